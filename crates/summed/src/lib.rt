// The sum of a row's terms under an assignment lent as words (01, "Normalising and evaluating"): "11, 8 for absolute
// weights, 12", or the sum. What the words assign is asked of crates/assigned, which `words` and `known` are for.
// Assumes nothing.
#![tactic(auto)]

ghost use Rattle.std.specs.Prelude.{◌≡◌, true, ◌*◌, ◌≤◌, ◌<◌, length, option_copied, option_map};
ghost use Rattle.definitions.specs.Limits.{weight_limit};
ghost use Rattle.definitions.specs.Literal.{index_of};
ghost use Rattle.definitions.specs.Row.{sizes};
ghost use Rattle.definitions.specs.Table.{terms_on};
ghost use Rattle.definitions.specs.Meaning.{is_true, sum_of, assigned};
ghost use Rattle.definitions.specs.Evaluate.{within};
ghost use Rattle.assigned.specs.WordsSay.{looked, has_by, codes_covered};
ghost use Rattle.summed.specs.Sums.{said_summed, summed_over, summed_at};

use definitions::{Entry, Fault, WEIGHT_LIMIT, WORD_LIMIT};
use literals::Lit;
use tables::Table;

// "Variable v is bit v mod 64 of word v/64."
fn is_true(literal: Lit, words: &[u64]) -> bool
    requires { index_of literal.0 < 64 * length words.now }
    ensures { result ≡ is_true (assigned words.now) literal.0 }
{
    let v = literal.var().index() as usize;
    let word = words[v / 64];
    let one = (word >> (v % 64)) % 2 == 1;
    if literal.is_neg() { !one } else { one }
}

// The weights whose literal is true. No sum on the way is larger than the absolute weights together, so none leaves 64
// bits.
fn sum_of(weights: &[i64], literals: &[u32], words: &[u64]) -> i64
    requires lengths { length weights.now ≡ length literals.now }
    requires small { sizes (terms_on weights.now literals.now) ≤ weight_limit }
    requires covers { codes_covered (within words.now) literals.now ≡ true }
    ensures { result ≡ sum_of (assigned words.now) (terms_on weights.now literals.now) }
{
    let mut sum: i64 = 0;
    for (weight, code) in weights.iter().zip(literals) {
        if is_true(Lit::of_code(*code), words) {
            sum += *weight;
        }
    }
    sum
}

// Terms that lie in their columns: what is left of 11, then "8 for absolute weights, 12".
fn sum_terms(
    weights: &[i64],
    literals: &[u32],
    words: &[u64],
    known: Option<&[u64]>,
) -> Result<i64, Fault>
    requires { length weights.now ≡ length literals.now }
    ensures { said_summed result ≡ summed_over (has_by (option_copied known.entry) words.now) (assigned words.now) (terms_on weights.now literals.now) }
{
    if !term_checks::indexed_of(literals) {
        return Err(Fault { number: 11 });
    }
    if term_checks::sizes_of(weights) > WEIGHT_LIMIT {
        return Err(Fault { number: 8 });
    }
    if !assigned::covered(literals, words, known) {
        return Err(Fault { number: 12 });
    }
    Ok(sum_of(weights, literals, words))
}

// The terms of an entry, under the words that are looked at.
pub fn sum_row(
    entry: Entry,
    t: Table<'_>,
    words: &[u64],
    known: Option<&[u64]>,
) -> Result<i64, Fault>
    ensures { said_summed result ≡ summed_at entry.first entry.count t.entry.weights.now t.entry.literals.now (option_map looked (option_copied known.entry)) (looked words.now) }
{
    let Entry { first, count, .. } = entry;
    if !columns::in_column(first, count, t.term_room()) {
        return Err(Fault { number: 11 });
    }
    let end = first + count;
    let looked = &words[..words.len().min(WORD_LIMIT)];
    sum_terms(
        &t.weights[first..end],
        &t.literals[first..end],
        looked,
        known,
    )
}
