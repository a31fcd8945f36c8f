// The terms of a row: each is checked, and counted with its weight and the length of its text. Assumes nothing.
ghost use Rattle.std.specs.Prelude.{◌≡◌, ◌+◌, length};
ghost use Rattle.shown.specs.Terms.{own_terms, term_words};
ghost use Rattle.measures.specs.Tallies.{no_tally, lawful_shown, tally_shown, tallied, said_tally};

use lengths::add_needed;
use literals::FileNumber;
use shown::{Shown, Style, Sums, show_term, with_weight};

// What the first walk counts of a row's terms: the sums of their weights; whether each so far has a file number, and if
// so the length of their text.
#[derive(Clone, Copy, Debug, PartialEq, Eq)]
pub(crate) struct Tally {
    pub sums: Sums,
    pub numbered: bool,
    pub length: u64,
}

// The length of a term's text, with the space before or behind it.
fn term_length(t: Shown, n: FileNumber) -> usize
    ensures { result ≡ length (term_words t n.0) + 1 }
{
    let digits = lengths::number_length(t.weight) + lengths::count_length(n.number() as u64);
    if t.tilde { digits + 4 } else { digits + 3 }
}

fn is_lawful(x: Shown) -> bool
    ensures { result ≡ lawful_shown x }
{
    x.own >= 0 && x.var.in_limit()
}

fn tally_shown(t: Tally, style: Style, x: Shown) -> Tally
    ensures { result ≡ tally_shown style t x }
{
    let sums = with_weight(t.sums, x.own, x.falls);
    match FileNumber::of(x.var, style.first) {
        Some(n) => Tally {
            sums,
            length: add_needed(t.length, term_length(x, n) as u64),
            ..t
        },
        None => Tally {
            sums,
            numbered: false,
            ..t
        },
    }
}

// All terms of a row, whose part of each column is lent. None: "an index above its limit", "a negative weight", 11.
pub(crate) fn tally_terms(style: Style, weights: &[i64], literals: &[u32]) -> Option<Tally>
    requires { length weights.now ≡ length literals.now }
    ensures { said_tally result ≡ tallied style no_tally (own_terms style.unit weights.now literals.now) }
{
    let mut t = Tally {
        sums: Sums { total: 0, fall: 0 },
        numbered: true,
        length: 0,
    };
    for (weight, code) in weights.iter().zip(literals) {
        let x = show_term(style, *weight, *code);
        if !is_lawful(x) {
            return None;
        }
        t = tally_shown(t, style, x);
    }
    Some(t)
}
