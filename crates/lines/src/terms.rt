// The terms of a row, each with its space, and their sums. Assumes nothing.
ghost use Rattle.puts.specs.Lands.{Lands};
ghost use Rattle.puts.specs.SeveralPuts.{LandsEach};
ghost use Rattle.shown.specs.Terms.{literal_words, own_terms};
ghost use Rattle.lines.specs.LinePieces.{space_if, term_pieces, shown_pieces};
ghost use Rattle.lines.specs.Ended.{PutsTerms};

use literals::FileNumber;
use puts::{put_number, put_text};
use shown::{Shown, Style, Sums, show_term, with_weight};

// Where the text of a row's terms ends, and their sums.
#[derive(Clone, Copy, Debug, PartialEq, Eq)]
pub(crate) struct Ended {
    pub at: usize,
    pub sums: Sums,
}

fn put_space(wanted: bool, out: &mut [u8], at: usize) -> usize
    ensures { LandsEach (space_if wanted) at out.old result out.new }
{
    if wanted {
        return put_text(b" ", out, at);
    }
    at
}

// What stands behind the weight: a space and the literal. The number is printed first: where it does not fit, nothing
// of it is put.
fn put_literal(tilde: bool, n: FileNumber, out: &mut [u8], at: usize) -> usize
    ensures { Lands (literal_words tilde n.0) at out.old result out.new }
{
    let number = n.number() as u64;
    let x: usize = if tilde { 2 } else { 1 };
    if at >= out.len() {
        return at;
    }
    let Some(end) = outputs::print_count(number, out, at + x + 1) else {
        return at;
    };
    // Where there is no `~`, the `x` takes its place.
    out[at + 1] = b'~';
    out[at + x] = b'x';
    out[at] = b' ';
    end
}

// A term with the space before or behind it.
fn put_term(apart: bool, x: Shown, n: FileNumber, out: &mut [u8], at: usize) -> usize
    ensures { LandsEach (term_pieces apart x n.0) at out.old result out.new }
{
    let from = put_space(apart, out, at);
    let literal = put_number(x.weight, out, from);
    let end = put_literal(x.tilde, n, out, literal);
    put_space(!apart, out, end)
}

fn put_shown(style: Style, x: Shown, out: &mut [u8], at: usize) -> usize
    ensures { LandsEach (shown_pieces style x) at out.old result out.new }
{
    match FileNumber::of(x.var, style.first) {
        Some(n) => put_term(style.apart, x, n, out, at),
        None => at,
    }
}

// All terms of a row, whose part of each column is lent.
pub(crate) fn put_terms(
    style: Style,
    weights: &[i64],
    literals: &[u32],
    out: &mut [u8],
    at: usize,
) -> Ended
    ensures { PutsTerms style (own_terms style.unit weights.now literals.now) at out.old result out.new }
{
    let mut end = at;
    let mut sums = Sums { total: 0, fall: 0 };
    for (weight, code) in weights.iter().zip(literals) {
        let x = show_term(style, *weight, *code);
        sums = with_weight(sums, x.own, x.falls);
        end = put_shown(style, x, out, end);
    }
    Ended { at: end, sums }
}
