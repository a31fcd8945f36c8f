// What the bound of a row moves by when its negative weights become positive (01, "Normalising and evaluating"): "a
// bound grows by -w, an objective's offset falls by -w". Assumes nothing.
#![tactic(auto)]

ghost use Rattle.std.specs.Prelude.{◌≡◌, min};
ghost use Rattle.definitions.specs.Limits.{weight_limit};
ghost use Rattle.shifts.specs.Shifts.{weight_rises, shift_of};

use definitions::{Kind, WEIGHT_LIMIT};

// What the sum grows by, up to M. No row with more than M is normal, and a size beyond it stays in 64 bits.
fn rise_of(weights: &[i64]) -> u64
    ensures { result ≡ min (weight_rises weights.now) weight_limit }
{
    let mut rise: u64 = 0;
    for weight in weights {
        if *weight < 0 {
            rise = term_checks::add_size(rise, *weight);
        }
    }
    rise.min(WEIGHT_LIMIT)
}

// What is added to the bound.
pub fn shift_of(kind: Kind, weights: &[i64]) -> i64
    ensures { result ≡ shift_of kind weights.now }
{
    let rise = rise_of(weights) as i64;
    match kind {
        Kind::AtLeast | Kind::AtMost | Kind::Equal => rise,
        Kind::Objective => -rise,
    }
}
