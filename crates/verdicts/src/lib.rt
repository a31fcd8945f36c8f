// What is answered for a row whose sum is known (01, "Normalising and evaluating"): whether a constraint holds, or an
// objective's value. Assumes nothing.
#![tactic(auto)]

ghost use Rattle.std.specs.Prelude.{◌≡◌, ◌+ℤ◌};
ghost use Rattle.definitions.specs.Evaluate.{on_place};
ghost use Rattle.verdicts.specs.Said.{said_evaluated};
ghost use Rattle.verdicts.specs.Verdicts.{valued, verdict_of};

use definitions::{Kind, Refusal};

// "The evaluator answers, for one row, the sum and whether it holds; for an objective, the sum plus the bound column
// ... It also reports the number of ones in the assignment's words."
#[derive(Clone, Copy, Debug, PartialEq, Eq)]
pub enum Evaluated {
    Constraint { sum: i64, holds: bool, ones: u64 },
    Objective { value: i64, ones: u64 },
}

// "For an objective, the sum plus the bound column", or 8.
fn objective(sum: i64, bound: i64, ones: u64, row: usize) -> Result<Evaluated, Refusal>
    ensures { said_evaluated result ≡ on_place row (valued (sum +ℤ bound) ones) }
{
    match sum.checked_add(bound) {
        Some(value) => Ok(Evaluated::Objective { value, ones }),
        None => Err(Refusal {
            number: 8,
            place: row as u64,
        }),
    }
}

// The place of a refusal is the row.
pub fn verdict(
    kind: Kind,
    sum: i64,
    bound: i64,
    ones: u64,
    row: usize,
) -> Result<Evaluated, Refusal>
    ensures { said_evaluated result ≡ on_place row (verdict_of kind sum bound ones) }
{
    let holds = match kind {
        Kind::AtLeast => bound <= sum,
        Kind::AtMost => sum <= bound,
        Kind::Equal => sum == bound,
        Kind::Objective => return objective(sum, bound, ones, row),
    };
    Ok(Evaluated::Constraint { sum, holds, ones })
}
