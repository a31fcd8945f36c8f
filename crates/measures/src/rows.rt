// One row that is no comment: its refusal, or the length of its line and how many lines and terms come back of it.
// Assumes nothing.
ghost use Rattle.std.specs.Prelude.{◌≡◌, length};
ghost use Rattle.printed.specs.Rows.{row_on};
ghost use Rattle.measures.specs.Rows.{frame_text, frame_lines, lacks_terms, said_measured, counted_length, row_measured};

use crate::terms::{Tally, tally_terms};
use definitions::{Fault, Kind, Mode};
use lengths::add_needed;
use printed::{Shape, printed_bound, style_of};

// What rows come to: the length of their lines, and how many lines and terms come back where these are read; each up to
// the limit of a needed number.
#[derive(Clone, Copy, Debug, PartialEq, Eq)]
pub struct Extent {
    pub length: u64,
    pub lines: u64,
    pub terms: u64,
}

// "constraint without terms, writing"
fn lacks_terms(kind: Kind, count: usize) -> bool
    ensures { result ≡ lacks_terms kind count }
{
    kind != Kind::Objective && count == 0
}

// The length of what stands around the terms. 44 bytes of an offset's line are no digits.
fn frame_length(kind: Kind, z: i64) -> usize
    ensures { result ≡ length (frame_text kind z) }
{
    let n = lengths::number_length(z);
    match kind {
        Kind::AtLeast | Kind::AtMost => n + 5,
        Kind::Equal => n + 4,
        Kind::Objective if z == 0 => 6,
        Kind::Objective => n + 50,
    }
}

// "If the final offset is not 0, a line ... follows": it comes back as a comment.
fn frame_lines(kind: Kind, z: i64) -> u64
    ensures { result ≡ frame_lines kind z }
{
    if kind == Kind::Objective && z != 0 {
        2
    } else {
        1
    }
}

// "Order per row: ..., 13, 5 (file number), 8"
fn counted_length(shape: Shape, count: usize, t: Tally) -> Result<Extent, Fault>
    ensures { said_measured result ≡ counted_length shape count t }
{
    let kind = shape.kind;
    if lacks_terms(kind, count) {
        return Err(Fault { number: 13 });
    }
    if !t.numbered {
        return Err(Fault { number: 5 });
    }
    let z = printed_bound(kind, shape.bound, t.sums).ok_or(Fault { number: 8 })?;
    Ok(Extent {
        length: add_needed(t.length, frame_length(kind, z) as u64),
        lines: frame_lines(kind, z),
        terms: count as u64,
    })
}

pub(crate) fn row_length(
    shape: Shape,
    weights: &[i64],
    literals: &[u32],
    mode: Mode,
) -> Result<Extent, Fault>
    requires { length weights.now ≡ length literals.now }
    ensures { said_measured result ≡ row_measured mode (row_on shape weights.now literals.now) }
{
    let style = style_of(shape, mode);
    let t = tally_terms(style, weights, literals).ok_or(Fault { number: 11 })?;
    counted_length(shape, literals.len(), t)
}
