// Operators, read at the front of a text (01, "The text"). Assumes nothing.
ghost use Rattle.std.specs.Prelude.{◌≡◌};
ghost use Rattle.definitions.specs.Text.{operator};
ghost use Rattle.operators.specs.Said.{said_operator};

use definitions::OpbOperator;

// "`<=`, `>=`, `<`, `>`, `=`, longest first": an operator at the front and the bytes that it takes, or none (6).
#[tactic(auto, using(crate::proofs::Operators::by_bytes))]
pub fn read_operator(s: &[u8]) -> Option<(OpbOperator, usize)>
    ensures { said_operator result ≡ operator s.now }
{
    match s {
        [b'<', b'=', ..] => Some((OpbOperator::LE, 2)),
        [b'>', b'=', ..] => Some((OpbOperator::GE, 2)),
        [b'<', ..] => Some((OpbOperator::LT, 1)),
        [b'>', ..] => Some((OpbOperator::GT, 1)),
        [b'=', ..] => Some((OpbOperator::EQ, 1)),
        _ => None,
    }
}
