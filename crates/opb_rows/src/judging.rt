// One row under an assignment, without the ones: for who judges many rows, since the time that it takes is that of the
// row's terms. Assumes nothing.
ghost use Rattle.std.specs.Prelude.{◌≡◌};
ghost use Rattle.definitions.specs.Table.{table};
ghost use Rattle.opb_rows.specs.Calls.{judge_answer};

use crate::evaluating::{OpbValue, value_of};
use tables::Table;

// Row `row`, counted from 0, where the second row of words says which variables are known. 11, 8, 12, 8 in this order,
// with the row as the place.
#[unsafe(no_mangle)]
pub extern "C" fn opb_judge(
    kinds: &[u8],
    firsts: &[usize],
    counts: &[usize],
    bounds: &[i64],
    weights: &[i64],
    literals: &[u32],
    row: usize,
    values: &[u64],
    known: &[u64],
) -> OpbValue
    ensures { result ≡ judge_answer (table kinds.now firsts.now counts.now bounds.now weights.now literals.now) row values.now known.now }
{
    let t = Table {
        kinds,
        firsts,
        counts,
        bounds,
        weights,
        literals,
    };
    value_of(evaluator::judge(t, row, values, known))
}
