// The library for C, texts: the rows of a table as the lines of an OPB file or as house lines, from the front of a lent
// output, by C's calling convention over slices (a pointer and a length) and numbers, with an answer by value. No call
// asks anything of what it is lent but that it is there. A refused call changes no byte of the output; 14 has the
// length needed as its place. specs/Calls.antt says what each promises. Assumes nothing.
#![tactic(auto)]

ghost use Rattle.std.specs.Prelude.{◌≡◌};
ghost use Rattle.definitions.specs.Answers.{said_length};
ghost use Rattle.definitions.specs.Table.{table};
ghost use Rattle.opb_texts.specs.ByValue.{length_answer};
ghost use Rattle.opb_texts.specs.Calls.{WritesLines, ListsTable};

use definitions::{Mode, Refusal};
use tables::Table;

// How many bytes of the output the text takes. `refusal` is 0 exactly where the call accepted, else the refusal's
// number; then `place` is its place and the length is 0.
#[repr(C)]
#[derive(Clone, Copy)]
pub struct OpbText {
    pub refusal: u8,
    pub place: u64,
    pub length: u64,
}

// What a callee answers, as C has it.
fn text_answer(found: Result<usize, Refusal>) -> OpbText
    ensures { result ≡ length_answer (said_length found) }
{
    match found {
        Err(why) => OpbText {
            refusal: why.number,
            place: why.place,
            length: 0,
        },
        Ok(length) => OpbText {
            refusal: 0,
            place: 0,
            length: length as u64,
        },
    }
}

// The lines of an OPB file, with `text` as the bytes that comment rows point into. `plain` other than 0 is no-negated
// mode. 11, 15, 13, 5, 8 row by row; then 14.
#[unsafe(no_mangle)]
pub extern "C" fn opb_write(
    kinds: &[u8],
    firsts: &[usize],
    counts: &[usize],
    bounds: &[i64],
    weights: &[i64],
    literals: &[u32],
    text: &[u8],
    first: u32,
    plain: u8,
    out: &mut [u8],
) -> OpbText
    ensures { WritesLines first plain (table kinds.now firsts.now counts.now bounds.now weights.now literals.now) text.now out.old result out.new }
{
    let plain = plain != 0;
    let mode = Mode { first, plain };
    let t = Table {
        kinds,
        firsts,
        counts,
        bounds,
        weights,
        literals,
    };
    text_answer(writer::write_opb_lines(t, text, mode, out))
}

// The house lines of the first `rows` rows, or of all where there are fewer. 11, 5 row by row; then 14.
#[unsafe(no_mangle)]
pub extern "C" fn opb_list(
    kinds: &[u8],
    firsts: &[usize],
    counts: &[usize],
    bounds: &[i64],
    weights: &[i64],
    literals: &[u32],
    rows: usize,
    first: u32,
    out: &mut [u8],
) -> OpbText
    ensures { ListsTable first rows (table kinds.now firsts.now counts.now bounds.now weights.now literals.now) out.old result out.new }
{
    let t = Table {
        kinds,
        firsts,
        counts,
        bounds,
        weights,
        literals,
    };
    text_answer(house::list_table(t, rows, first, out))
}
