// One row of the table, comments too: its refusal, or what it comes to. Assumes nothing.
ghost use Rattle.std.specs.Prelude.{◌≡◌};
ghost use Rattle.definitions.specs.Write.{written_in};
ghost use Rattle.measures.specs.Rows.{measured, said_measured};
ghost use Rattle.measures.specs.Entries.{comment_measured, part_measured};
ghost use Rattle.tables.specs.Lent.{table_of};

use crate::rows::{Extent, row_length};
use definitions::{Entry, Fault, Mode};
use printed::{Shape, sort_of};
use tables::Table;

// 11: "a comment outside its lent text"; 15: "comment text with an LF". Behind the text stand `* ` and the line's end.
fn comment_length(first: usize, count: usize, text: &[u8]) -> Result<Extent, Fault>
    ensures { said_measured result ≡ comment_measured first count text.now }
{
    if !columns::in_column(first, count, text.len()) {
        return Err(Fault { number: 11 });
    }
    let end = first + count;
    if text[first..end].contains(&b'\n') {
        return Err(Fault { number: 15 });
    }
    let length = count as u64 + 3;
    Ok(Extent {
        length,
        lines: 1,
        terms: 0,
    })
}

// 11: "terms outside their column"
fn part_length(shape: Shape, entry: Entry, t: Table<'_>, mode: Mode) -> Result<Extent, Fault>
    ensures { said_measured result ≡ part_measured shape entry (table_of t.entry) mode }
{
    let Entry { first, count, .. } = entry;
    if !columns::in_column(first, count, t.term_room()) {
        return Err(Fault { number: 11 });
    }
    let end = first + count;
    row_length(shape, &t.weights[first..end], &t.literals[first..end], mode)
}

pub(crate) fn entry_length(
    entry: Entry,
    t: Table<'_>,
    text: &[u8],
    mode: Mode,
) -> Result<Extent, Fault>
    ensures { said_measured result ≡ measured mode (written_in mode (table_of t.entry) text.now entry) }
{
    match sort_of(entry.kind, entry.bound)? {
        None => comment_length(entry.first, entry.count, text),
        Some(shape) => part_length(shape, entry, t, mode),
    }
}
