// Rows become the lines that the Rust writes, byte for byte, or a refusal (01, "The lines written"). Two walks: the
// first, `measures`, checks all rows and counts the length, the second writes. So a refused call changes no byte of the
// output. Assumes nothing.
#![tactic(auto)]

mod entries;

ghost use Rattle.std.specs.Prelude.{◌≡◌};
ghost use Rattle.definitions.specs.Lists.{over};
ghost use Rattle.tables.specs.Lent.{table_of};
ghost use Rattle.writer.specs.SecondWalk.{lines_for, LinesReady};
ghost use Rattle.writer.specs.Writes.{Writes};

use definitions::{Mode, Refusal};
use entries::write_entry;
use measures::measure_opb_lines;
use tables::Table;

pub(crate) fn write_lines(t: Table<'_>, text: &[u8], mode: Mode, out: &mut [u8])
    requires { LinesReady mode (table_of t) text.now out.old }
    ensures { out.new ≡ over (lines_for mode (table_of t.entry) text.now) out.old }
{
    let mut at: usize = 0;
    for row in 0..t.row_room() {
        let Some(entry) = t.entry(row) else {
            break;
        };
        at = write_entry(entry, t, text, mode, out, at);
    }
}

pub fn write_opb_lines(
    t: Table<'_>,
    text: &[u8],
    mode: Mode,
    out: &mut [u8],
) -> Result<usize, Refusal>
    ensures { Writes mode (table_of t.entry) text.now out.old result out.new }
{
    let all = measure_opb_lines(t, text, mode)?;
    let length = all.length;
    if length > out.len() as u64 {
        return Err(Refusal {
            number: 14,
            place: length,
        });
    }
    write_lines(t, text, mode, out);
    Ok(length as usize)
}
