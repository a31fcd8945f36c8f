// One row under an assignment, with the number of ones in its words. Assumes nothing.
ghost use Rattle.std.specs.Prelude.{◌≡◌};
ghost use Rattle.definitions.specs.Table.{table};
ghost use Rattle.verdicts.specs.Said.{said_evaluated};
ghost use Rattle.opb_rows.specs.ByValue.{value_answer};
ghost use Rattle.opb_rows.specs.Calls.{evaluate_answer, evaluate_known_answer};

use definitions::Refusal;
use tables::Table;
use verdicts::Evaluated;

// A constraint's sum, with `holds` 1 or 0; or an objective's value, with `holds` 2. `ones` is the number of ones in the
// words. `refusal` is 0 exactly where the call accepted, else the refusal's number; then `place` is its place and every
// other number is 0.
#[repr(C)]
#[derive(Clone, Copy)]
pub struct OpbValue {
    pub refusal: u8,
    pub place: u64,
    pub value: i64,
    pub holds: u8,
    pub ones: u64,
}

// An objective is told from a constraint by `holds`.
pub(crate) fn value_of(found: Result<Evaluated, Refusal>) -> OpbValue
    ensures { result ≡ value_answer (said_evaluated found) }
{
    match found {
        Err(refusal) => OpbValue {
            refusal: refusal.number,
            place: refusal.place,
            value: 0,
            holds: 0,
            ones: 0,
        },
        Ok(Evaluated::Constraint { sum, holds, ones }) => OpbValue {
            refusal: 0,
            place: 0,
            value: sum,
            holds: u8::from(holds),
            ones,
        },
        Ok(Evaluated::Objective { value, ones }) => OpbValue {
            refusal: 0,
            place: 0,
            value,
            holds: 2,
            ones,
        },
    }
}

// Row `row`, counted from 0. 11, 8, 12, 8 in this order, with the row as the place.
#[unsafe(no_mangle)]
pub extern "C" fn opb_evaluate(
    kinds: &[u8],
    firsts: &[usize],
    counts: &[usize],
    bounds: &[i64],
    weights: &[i64],
    literals: &[u32],
    row: usize,
    words: &[u64],
) -> OpbValue
    ensures { result ≡ evaluate_answer (table kinds.now firsts.now counts.now bounds.now weights.now literals.now) row words.now }
{
    let t = Table {
        kinds,
        firsts,
        counts,
        bounds,
        weights,
        literals,
    };
    value_of(evaluator::evaluate(t, row, words))
}

// The same where the second row of words says which variables are known; one that is not is 12, as one beyond the
// shorter row.
#[unsafe(no_mangle)]
pub extern "C" fn opb_evaluate_known(
    kinds: &[u8],
    firsts: &[usize],
    counts: &[usize],
    bounds: &[i64],
    weights: &[i64],
    literals: &[u32],
    row: usize,
    values: &[u64],
    known: &[u64],
) -> OpbValue
    ensures { result ≡ evaluate_known_answer (table kinds.now firsts.now counts.now bounds.now weights.now literals.now) row values.now known.now }
{
    let t = Table {
        kinds,
        firsts,
        counts,
        bounds,
        weights,
        literals,
    };
    value_of(evaluator::evaluate_known(t, row, values, known))
}
