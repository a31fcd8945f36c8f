// Whether a sum stays in 64 signed bits (01, "Numbers and tables"). Assumes nothing.
#![tactic(auto)]

ghost use Rattle.std.specs.Prelude.{◌≡◌, ◌+ℤ◌};
ghost use Rattle.definitions.specs.Limits.{in_i64};

// Of two numbers: no "result beyond signed 64 bits".
#[tactic(auto, using(crate::proofs::Sums::sum_there))]
pub fn sum_fits(x: i64, y: i64) -> bool
    ensures { result ≡ in_i64 (x +ℤ y) }
{
    x.checked_add(y).is_some()
}
