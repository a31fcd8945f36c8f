// The first conflict in a block of signed numbers or `x` tokens (02, A1: "22 conflicting value"). Nothing may be marked
// in the lent words before the block is known to be good, so what a token said is marked in a local row of bits, for a
// window of variables; each window in use has a walk of its own. Assumes nothing.
ghost use Rattle.std.specs.Prelude.{◌≡◌, ◌≤◌, length};
ghost use Rattle.definitions.specs.Literal.{index_of};
ghost use Rattle.definitions.specs.Values.{front, items_from};
ghost use Rattle.settling.specs.Flat.{said_by};
ghost use Rattle.heard.specs.Windows.{conflict_before, window_of, marks_size, PlacesBelow, Unmarked, clashes, meet_of, marked_by, noted};

use bits::{bit_at, is_otherwise, make_bit};
use definitions::INDEX_LIMIT;
use literals::Lit;
use tokens::next_token;

// How many variables a window has.
const WINDOW: u32 = 1_048_576;

// The place of the first conflict of a window, and the least variable behind the window.
#[derive(Clone, Copy, Debug, PartialEq, Eq)]
pub(crate) struct Window {
    pub place: usize,
    pub next: u32,
}

// What a literal is to a window: not its own, a conflict, or marked.
#[derive(Clone, Copy, Debug, PartialEq, Eq)]
enum Met {
    Before,
    Behind(u32),
    Conflict,
    Marked,
}

// Whether a literal of the window is known otherwise, or its opposite is marked. The mark of a literal is the bit of
// its code, counted from the window's first.
fn clashes(literal: Lit, base: u32, marks: &[u64], values: &[u64], known: &[u64]) -> bool
    requires { base ≤ index_of literal.0 }
    ensures { result ≡ clashes values.now known.now marks.now base literal.0 }
{
    let opposite = literal.negated().code();
    is_otherwise(literal, values, known) || bit_at(marks, (opposite - 2 * base) as usize)
}

// A literal of the window that does not clash is marked.
fn meet(literal: Lit, base: u32, marks: &mut [u64], values: &[u64], known: &[u64]) -> Met
    ensures met { result ≡ meet_of values.now known.now marks.old base literal.0 }
    ensures marks { marks.new ≡ marked_by result base literal.0 marks.old }
{
    let v = literal.var().index();
    if v < base {
        return Met::Before;
    }
    if v - base >= WINDOW {
        return Met::Behind(v);
    }
    if clashes(literal, base, marks, values, known) {
        return Met::Conflict;
    }
    let mark = (literal.code() - 2 * base) as usize;
    make_bit(marks, mark, true);
    Met::Marked
}

// The answer so far, with one literal more. After the first conflict the walk goes on for the variables behind the
// window; a later conflict has a later place.
fn note(met: Met, place: usize, found: Window) -> Window
    ensures { result ≡ noted met place found }
{
    match met {
        Met::Before | Met::Marked => found,
        Met::Behind(v) => Window {
            next: found.next.min(v),
            ..found
        },
        Met::Conflict => Window {
            place: found.place.min(place),
            ..found
        },
    }
}

// The walk for the window that begins at `base`, with no mark set before it.
fn mark_window(
    block: &[u8],
    named: bool,
    end: usize,
    base: u32,
    marks: &mut [u64],
    values: &[u64],
    known: &[u64],
) -> Window
    requires size { length marks.old ≡ marks_size }
    requires unmarked { Unmarked marks.old }
    requires places { PlacesBelow end (said_by named (items_from front 0 block.now)) }
    ensures { result ≡ window_of values.now known.now end base (said_by named (items_from front 0 block.now)) }
{
    let mut found = Window {
        place: end,
        next: INDEX_LIMIT + 1,
    };
    let mut at: usize = 0;
    let mut opens = true;
    while let Ok(Some(said)) = next_token(block, at, opens, named) {
        if let Some(literal) = said.literal {
            let met = meet(literal, base, marks, values, known);
            found = note(met, said.place, found);
        }
        at = said.end;
        opens = false;
    }
    found
}

// Two literals to a variable, 64 marks to a word: 32,768 words.
fn walk_for(
    block: &[u8],
    named: bool,
    end: usize,
    base: u32,
    values: &[u64],
    known: &[u64],
) -> Window
    requires { PlacesBelow end (said_by named (items_from front 0 block.now)) }
    ensures { result ≡ window_of values.now known.now end base (said_by named (items_from front 0 block.now)) }
{
    let mut marks = [0u64; 32768];
    mark_window(block, named, end, base, &mut marks, values, known)
}

// The place of the first conflict before `end`, where the first walk stopped.
pub(crate) fn first_conflict(
    block: &[u8],
    named: bool,
    end: usize,
    values: &[u64],
    known: &[u64],
) -> Option<usize>
    requires { PlacesBelow end (said_by named (items_from front 0 block.now)) }
    ensures { result ≡ conflict_before values.now known.now end (said_by named (items_from front 0 block.now)) }
{
    let mut found = end;
    let mut base: u32 = 0;
    while base <= INDEX_LIMIT {
        let w = walk_for(block, named, end, base, values, known);
        found = found.min(w.place);
        base = w.next;
    }
    (found < end).then_some(found)
}
