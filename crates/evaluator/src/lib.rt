// The evaluator (01, "Normalising and evaluating"): one row of a table under an assignment lent as words, all of them
// known or with a second row of words that says which variables are (02, A1). The number of ones is counted first or,
// where a row is judged, not at all. Assumes nothing.
#![tactic(auto)]

mod judging;

ghost use Rattle.std.specs.Prelude.{◌≡◌};
ghost use Rattle.definitions.specs.Evaluate.{evaluating, evaluating_known};
ghost use Rattle.tables.specs.Lent.{table_of};
ghost use Rattle.verdicts.specs.Said.{said_evaluated};

use definitions::Refusal;
pub use judging::judge;
use tables::Table;
use verdicts::Evaluated;

// A row under words that are all known.
pub fn evaluate(t: Table<'_>, row: usize, words: &[u64]) -> Result<Evaluated, Refusal>
    ensures { said_evaluated result ≡ evaluating (table_of t.entry) row words.now }
{
    let ones = assigned::ones_of(words, None);
    rows::evaluate_row(t, row, words, None, ones)
}

// A row under values of which some are known: a variable beyond the shorter row, or not known, is 12.
pub fn evaluate_known(
    t: Table<'_>,
    row: usize,
    values: &[u64],
    known: &[u64],
) -> Result<Evaluated, Refusal>
    ensures { said_evaluated result ≡ evaluating_known (table_of t.entry) row values.now known.now }
{
    let ones = assigned::ones_of(values, Some(known));
    rows::evaluate_row(t, row, values, Some(known), ones)
}
