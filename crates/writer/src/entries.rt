// The line of one row of the table, comments too. Assumes nothing.
ghost use Rattle.laws.proofs.Puts.{Puts};
ghost use Rattle.puts.specs.SeveralPuts.{LandsEach};
ghost use Rattle.tables.specs.Lent.{table_of};
ghost use Rattle.writer.specs.Entries.{remark_pieces, entry_text, EntryReady};

use definitions::{Entry, Mode};
use lines::put_row;
use printed::sort_of;
use puts::put_text;
use tables::Table;

// The text behind `* `, and the line's end.
fn put_remark(text: &[u8], out: &mut [u8], at: usize) -> usize
    ensures { LandsEach (remark_pieces text.now) at out.old result out.new }
{
    let from = put_text(b"* ", out, at);
    let end = put_text(text, out, from);
    put_text(b"\n", out, end)
}

pub(crate) fn write_entry(
    entry: Entry,
    t: Table<'_>,
    text: &[u8],
    mode: Mode,
    out: &mut [u8],
    at: usize,
) -> usize
    requires { EntryReady mode (table_of t) text.now entry at out.old }
    ensures { Puts (entry_text mode (table_of t.entry) text.now entry) at out.old result out.new }
{
    let Entry { first, count, .. } = entry;
    match sort_of(entry.kind, entry.bound) {
        Ok(None) => {
            let end = first + count;
            put_remark(&text[first..end], out, at)
        }
        Ok(Some(shape)) => {
            let end = first + count;
            put_row(
                shape,
                &t.weights[first..end],
                &t.literals[first..end],
                mode,
                out,
                at,
            )
        }
        Err(_) => at,
    }
}
