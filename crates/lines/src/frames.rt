// What stands behind the terms of a row: operator and bound of a constraint, ending and offset of an objective. Assumes
// nothing.
ghost use Rattle.std.specs.Prelude.{◌≡◌};
ghost use Rattle.puts.specs.Lands.{Lands};
ghost use Rattle.puts.specs.SeveralPuts.{LandsEach};
ghost use Rattle.printed.specs.Kinds.{is_equal};
ghost use Rattle.printed.specs.Bounds.{printed_bound};
ghost use Rattle.lines.specs.LinePieces.{final_bound, operator_piece, comparison_pieces, offset_pieces, ending_pieces};

use definitions::Kind;
use printed::printed_bound;
use puts::{put_number, put_text};
use shown::Sums;

// The bound that is printed, 0 in the place of one beyond 64 bits: no row with such a bound is written.
pub(crate) fn final_bound(kind: Kind, bound: i64, sums: Sums) -> i64
    ensures { result ≡ final_bound (printed_bound kind bound sums.total sums.fall) }
{
    printed_bound(kind, bound, sums).unwrap_or(0)
}

fn is_equal(kind: Kind) -> bool
    ensures { result ≡ is_equal kind }
{
    matches!(kind, Kind::Equal)
}

// The operator, and the space behind it.
fn put_operator(kind: Kind, out: &mut [u8], at: usize) -> usize
    ensures { Lands (operator_piece kind) at out.old result out.new }
{
    if is_equal(kind) {
        return put_text(b"= ", out, at);
    }
    put_text(b">= ", out, at)
}

pub(crate) fn put_comparison(kind: Kind, z: i64, out: &mut [u8], at: usize) -> usize
    ensures { LandsEach (comparison_pieces kind z) at out.old result out.new }
{
    let number = put_operator(kind, out, at);
    let end = put_number(z, out, number);
    put_text(b";\n", out, end)
}

// "If the final offset is not 0, a line ... follows, in either mode."
fn put_offset(z: i64, out: &mut [u8], at: usize) -> usize
    ensures { LandsEach (offset_pieces z) at out.old result out.new }
{
    if z == 0 {
        return at;
    }
    let number = put_text(b"* objective offset for previous objective: ", out, at);
    let end = put_number(z, out, number);
    put_text(b"\n", out, end)
}

// What ends an objective: `;`, the line's end, and its offset.
pub(crate) fn put_ending(z: i64, out: &mut [u8], at: usize) -> usize
    ensures { LandsEach (ending_pieces z) at out.old result out.new }
{
    let line = put_text(b";\n", out, at);
    put_offset(z, out, line)
}
