// What a comparison makes of a row: its kind, and its bound where that is in 64 bits (01, "The text"). Assumes nothing.
ghost use Rattle.std.specs.Prelude.{◌≡◌};
ghost use Rattle.definitions.specs.Table.{kind_number};
ghost use Rattle.definitions.specs.Text.{kind_of, bound_of};
ghost use Rattle.operators.specs.Bounds.{compared};
ghost use Rattle.operators.specs.Said.{said_bound};

use definitions::{AT_LEAST, AT_MOST, EQUAL, OpbOperator};

pub fn kind_of(operator: OpbOperator) -> u8
    ensures { result ≡ kind_number (kind_of operator) }
{
    match operator {
        OpbOperator::GE | OpbOperator::GT => AT_LEAST,
        OpbOperator::LE | OpbOperator::LT => AT_MOST,
        OpbOperator::EQ => EQUAL,
    }
}

// The bound, or none in 64 bits (8). "`> b` is at least b+1, `< b` is at most b-1."
pub fn bound_of(operator: OpbOperator, number: i64) -> Option<i64>
    ensures { said_bound result ≡ compared (bound_of operator number) }
{
    match operator {
        OpbOperator::LE | OpbOperator::GE | OpbOperator::EQ => Some(number),
        OpbOperator::LT => number.checked_sub(1),
        OpbOperator::GT => number.checked_add(1),
    }
}
