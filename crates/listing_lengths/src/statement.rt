// The line of one statement, measured from its text: the fields of the terms that a walk over it meets, and the words
// around them. Assumes nothing.
ghost use Rattle.std.specs.Prelude.{◌≡◌};
ghost use Rattle.sums.specs.Met.{met_terms};
ghost use Rattle.statements.specs.Met.{goal_met, statement_met};
ghost use Rattle.house_lengths.specs.Lengths.{line_length};
ghost use Rattle.listing_lengths.specs.Measure.{fields_length};

use definitions::{Beginning, Entry, Options};

// The fields of the terms that stand at the front of s. A literal that was read has a file number, so each has a
// length.
fn sum_length(s: &[u8], options: Options) -> u64
    ensures { result ≡ fields_length options.first (met_terms options s.now) }
{
    let mut total: u64 = 0;
    let mut at: usize = 0;
    while let Ok(Some(term)) = pieces::next_term(&s[at..], options) {
        let Some(n) = house_lengths::term_length(term.weight, term.literal, options.first) else {
            return 0;
        };
        total = lengths::add_needed(total, n as u64);
        at += term.taken;
    }
    total
}

// The same for the objective at the front of s.
fn goal_length(s: &[u8], options: Options) -> u64
    ensures { result ≡ fields_length options.first (goal_met options s.now) }
{
    let Some(k) = beginnings::read_min(s) else {
        return 0;
    };
    let a = k + 4;
    sum_length(&s[a..], options)
}

// The same for the statement at the front of s.
fn fields_length(s: &[u8], options: Options) -> u64
    ensures { result ≡ fields_length options.first (statement_met options s.now) }
{
    let k = blanks::blanks_of(s);
    if s.len() <= k {
        return 0;
    }
    match symbols::begins(symbols::class_of(s[k])) {
        Beginning::Comment => 0,
        Beginning::Objective => goal_length(&s[k..], options),
        Beginning::Constraint => sum_length(&s[k..], options),
        Beginning::Nothing => 0,
    }
}

// The line of the statement at the front of s, which was read as this entry.
pub(crate) fn statement_length(s: &[u8], options: Options, entry: Entry) -> u64
    ensures { result ≡ line_length entry.kind entry.count entry.bound (fields_length options.first (statement_met options s.now)) }
{
    let fields = fields_length(s, options);
    house_lengths::line_length(entry.kind, entry.count, entry.bound, fields)
}
