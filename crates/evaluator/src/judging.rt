// A row that is judged: for who asks many rows under one assignment. Assumes nothing.
ghost use Rattle.std.specs.Prelude.{◌≡◌};
ghost use Rattle.definitions.specs.Evaluate.{judging};
ghost use Rattle.tables.specs.Lent.{table_of};
ghost use Rattle.verdicts.specs.Said.{said_evaluated};

use definitions::Refusal;
use tables::Table;
use verdicts::Evaluated;

// A row under values of which some are known, without the ones, which are 0: the time that a row takes is that of its
// terms, however many words there are.
pub fn judge(t: Table<'_>, row: usize, values: &[u64], known: &[u64]) -> Result<Evaluated, Refusal>
    ensures { said_evaluated result ≡ judging (table_of t.entry) row values.now known.now }
{
    rows::evaluate_row(t, row, values, Some(known), 0)
}
