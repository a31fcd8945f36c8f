// The line of one row that is no comment, put into a lent output piece by piece, each behind the one before it; spaces
// as in the Rust (01, "The lines written"). A piece that does not fit is left out, so that nothing is asked of the
// output: who has measured the line before knows that all of it is put. specs/LinePieces.antt says what the pieces of a
// row are. Assumes nothing.
#![tactic(auto)]

mod frames;
mod terms;

ghost use Rattle.puts.specs.SeveralPuts.{LandsEach};
ghost use Rattle.shown.specs.Terms.{own_terms};
ghost use Rattle.lines.specs.LinePieces.{head_pieces, row_pieces};

use definitions::Mode;
use frames::{final_bound, put_comparison, put_ending};
use printed::{Shape, style_of};
use puts::put_text;
use terms::put_terms;

// `min:` before the terms of an objective.
fn put_head(goal: bool, out: &mut [u8], at: usize) -> usize
    ensures { LandsEach (head_pieces goal) at out.old result out.new }
{
    if goal {
        return put_text(b"min:", out, at);
    }
    at
}

// The row of a shape, from its part of the two columns.
pub fn put_row(
    shape: Shape,
    weights: &[i64],
    literals: &[u32],
    mode: Mode,
    out: &mut [u8],
    at: usize,
) -> usize
    ensures { LandsEach (row_pieces mode shape (own_terms shape.unit weights.now literals.now)) at out.old result out.new }
{
    let style = style_of(shape, mode);
    let from = put_head(style.apart, out, at);
    let terms = put_terms(style, weights, literals, out, from);
    let z = final_bound(shape.kind, shape.bound, terms.sums);
    if style.apart {
        return put_ending(z, out, terms.at);
    }
    put_comparison(shape.kind, z, out, terms.at)
}
