// What writing rows and reading the written part again will answer, before anything is changed: what comes back is
// counted from the rows alone. specs/Returning.antt says what is answered. Assumes nothing.
#![tactic(auto)]

ghost use Rattle.std.specs.Prelude.{◌≡◌, length};
ghost use Rattle.definitions.specs.Write.{writing};
ghost use Rattle.tables.specs.Lent.{table_of};
ghost use Rattle.foreseen.specs.Returning.{said_returned, returning, foretold};

use definitions::{Mode, Refusal};
use measures::Extent;
use tables::Table;

// What comes back: the length of the text, and the rows and terms read of it.
#[derive(Clone, Copy, Debug, PartialEq, Eq)]
pub struct Back {
    pub length: usize,
    pub rows: usize,
    pub terms: usize,
}

// Nothing comes back: the writer's refusal, or the reader's.
#[derive(Clone, Copy, Debug, PartialEq, Eq)]
pub enum NotBack {
    NotWritten(Refusal),
    NotRead(Refusal),
}

// 14 of the writer, then the reader's 1, 9 and 10: no other refusal is left once the rows are known to be good.
fn foretell(all: Extent, room: usize, rows: usize, terms: usize) -> Result<Back, NotBack>
    ensures { said_returned result ≡ foretold all room rows terms }
{
    let length = all.length as usize;
    let lines = all.lines as usize;
    let count = all.terms as usize;
    if length > room {
        return Err(NotBack::NotWritten(Refusal {
            number: 14,
            place: all.length,
        }));
    }
    if length > definitions::FILE_LIMIT {
        return Err(NotBack::NotRead(Refusal {
            number: 1,
            place: 0,
        }));
    }
    if lines > rows {
        return Err(NotBack::NotRead(Refusal {
            number: 9,
            place: all.lines,
        }));
    }
    if count > terms {
        return Err(NotBack::NotRead(Refusal {
            number: 10,
            place: all.terms,
        }));
    }
    Ok(Back {
        length,
        rows: lines,
        terms: count,
    })
}

// Into an output with that room, and back into tables with theirs.
pub fn foresee(
    t: Table<'_>,
    text: &[u8],
    mode: Mode,
    out: &[u8],
    new: Table<'_>,
) -> Result<Back, NotBack>
    ensures { said_returned result ≡ returning mode (table_of new.entry) (writing mode (table_of t.entry) text.now (length out.now)) }
{
    let all = measures::measure_opb_lines(t, text, mode).map_err(NotBack::NotWritten)?;
    foretell(all, out.len(), new.row_room(), new.term_room())
}
