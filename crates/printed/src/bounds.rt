// The bound that is printed: "bound = weight sum less bound" of an "at most" row, then the fall of no-negated mode,
// each within 64 bits: "a result beyond signed 64 bits", 8, is None. Assumes nothing.
ghost use Rattle.std.specs.Prelude.{◌≡◌, cond, ◌-ℤ◌};
ghost use Rattle.printed.specs.Kinds.{is_at_most};
ghost use Rattle.printed.specs.Bounds.{within, said_bound, fallen_bound, printed_bound};

use crate::kinds::{is_at_most, is_objective};
use definitions::Kind;
use shown::Sums;

fn flipped_bound(kind: Kind, bound: i64, total: i64) -> Option<i64>
    ensures { said_bound result ≡ within (cond (is_at_most kind) (total -ℤ bound) bound) }
{
    if is_at_most(kind) {
        total.checked_sub(bound)
    } else {
        Some(bound)
    }
}

// "the bound falls by w; an objective's offset grows by w"
fn fallen_bound(kind: Kind, bound: i64, fall: u64) -> Option<i64>
    ensures { said_bound result ≡ fallen_bound kind fall bound }
{
    let f = i64::try_from(fall).ok()?;
    if is_objective(kind) {
        bound.checked_add(f)
    } else {
        bound.checked_sub(f)
    }
}

// "8 (weight sum, then the bound before and after the fall, or the offset)"
pub fn printed_bound(kind: Kind, bound: i64, sums: Sums) -> Option<i64>
    ensures { said_bound result ≡ printed_bound kind bound sums.total sums.fall }
{
    let total = i64::try_from(sums.total).ok()?;
    let flipped = flipped_bound(kind, bound, total)?;
    fallen_bound(kind, flipped, sums.fall)
}
