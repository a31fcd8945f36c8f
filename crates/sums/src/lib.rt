// A sum: as many terms as there are (01, "The text"). Both walks over a file are one function here: it checks and
// counts the terms, and puts them into two lent columns as far as these have room; the first walk lends none. Plain
// terms are passed by a loop of their own (run.rt). Assumes nothing.
#![tactic(auto)]

mod run;

ghost use Rattle.sums.specs.Walked.{TermPut, SumWalked};

use definitions::{Fault, Options};
use literals::Lit;

// How many terms, their absolute weights added up to a cap, and the bytes that they take.
#[derive(Clone, Copy, Debug, PartialEq, Eq)]
pub struct Sum {
    pub terms: usize,
    pub size: u64,
    pub taken: usize,
}

// A term at a place of two columns, if both have it.
fn put_term(weights: &mut [i64], literals: &mut [u32], at: usize, weight: i64, literal: Lit)
    ensures { TermPut at weight literal.0 weights.old literals.old weights.new literals.new }
{
    if at < columns::term_room(weights, literals) {
        weights[at] = weight;
        literals[at] = literal.code();
    }
}

// It answers what the sum is, and leaves in the columns the terms that it met, as far as both have room; so the loop is
// compiled once and as a whole for both walks.
pub fn weighted_lit_sum(
    s: &[u8],
    options: Options,
    weights: &mut [i64],
    literals: &mut [u32],
) -> Result<Sum, Fault>
    ensures { SumWalked options s.now weights.old literals.old result weights.new literals.new }
{
    let mut count: usize = 0;
    let mut size: u64 = 0;
    let mut at: usize = 0;
    loop {
        let run = crate::run::walk_plain(&s[at..], options, weights, literals, count, size);
        count = run.terms;
        size = run.size;
        at += run.taken;
        let Some(term) = pieces::next_term(&s[at..], options)? else {
            return Ok(Sum {
                terms: count,
                size,
                taken: at,
            });
        };
        put_term(weights, literals, count, term.weight, term.literal);
        size = term_checks::add_size(size, term.weight);
        count += 1;
        at += term.taken;
    }
}
