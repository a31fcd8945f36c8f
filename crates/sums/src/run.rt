// Plain terms one after the other: the loop where a file's time goes. Assumes nothing.
ghost use Rattle.std.specs.Prelude.{◌≡◌, ◌+◌, ◌≤◌, ◌<◌, ◌^◌, length};
ghost use Rattle.term_checks.specs.Sizes.{size_cap, capped};
ghost use Rattle.sums.specs.Walked.{TermPut};
ghost use Rattle.plain.specs.Plain.{PlainFits, plain_term};
ghost use Rattle.sums.specs.Run.{RunSays};

use definitions::Options;
use literals::Lit;
use plain::PlainTerm;
use term_checks::SIZE_CAP;

// How many terms are counted and what their absolute weights add up to, with those of a run; and the bytes that the run
// takes.
#[derive(Clone, Copy)]
pub struct PlainRun {
    pub terms: usize,
    pub size: u64,
    pub taken: usize,
}

// A plain term at a place of two columns, if both have it. Its file number is not out of range.
fn put_plain(weights: &mut [i64], literals: &mut [u32], at: usize, term: PlainTerm, first: u32)
    requires { PlainFits first term }
    ensures { TermPut at (plain_term first term).weight (plain_term first term).code weights.old literals.old weights.new literals.new }
{
    if at < columns::term_room(weights, literals) {
        let Some(literal) = Lit::of_digits(term.number, first, term.negated) else {
            return;
        };
        let size = term.size as i64;
        weights[at] = if term.negative { -size } else { size };
        literals[at] = literal.code();
    }
}

// A size up to the cap and a plain weight's more. That sum is within 64 bits, so it needs no look at the size before
// it, as `term_checks::add_size` does for any two.
fn add_plain(size: u64, weight: u64) -> u64
    requires { (size ≤ size_cap) × (weight < 100_000_000) }
    ensures { result ≡ capped (size + weight) }
{
    let sum = size + weight;
    if sum < SIZE_CAP { sum } else { SIZE_CAP }
}

// The plain terms at the front of s, one after the other, behind so many that are counted already.
pub(crate) fn walk_plain(
    s: &[u8],
    options: Options,
    weights: &mut [i64],
    literals: &mut [u32],
    from: usize,
    before: u64,
) -> PlainRun
    requires { (from + length s.now < 2 ^ 64) × (before ≤ size_cap) }
    ensures { RunSays options s.now from before weights.old literals.old result weights.new literals.new }
{
    let mut terms: usize = from;
    let mut size: u64 = before;
    let mut rest = s;
    while let Some((term, taken)) = plain::plain_term(rest, options) {
        put_plain(weights, literals, terms, term, options.first);
        size = add_plain(size, term.size);
        terms += 1;
        rest = &rest[taken..];
    }
    PlainRun {
        terms,
        size,
        // told by what is left, so that no turn of the loop adds it up
        taken: s.len() - rest.len(),
    }
}
