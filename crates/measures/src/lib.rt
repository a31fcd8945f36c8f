// The first of two walks over rows that are to be written (01, "The lines written"): it checks all rows and counts the
// length of their lines, before a byte is written. Assumes nothing.
#![tactic(auto)]

mod entries;
mod rows;
mod terms;

ghost use Rattle.std.specs.Prelude.{◌≡◌};
ghost use Rattle.tables.specs.Lent.{table_of};
ghost use Rattle.measures.specs.RowsMeasured.{added_to, said_measure, extent_for};

use definitions::{Mode, Refusal};
use entries::entry_length;
use lengths::add_needed;
pub use rows::Extent;
use tables::Table;

fn add_extent(all: Extent, more: Extent) -> Extent
    ensures { result ≡ added_to all more }
{
    Extent {
        length: add_needed(all.length, more.length),
        lines: add_needed(all.lines, more.lines),
        terms: add_needed(all.terms, more.terms),
    }
}

// What all rows come to: what would be written, and what of it would come back, whatever room there is for it; or the
// first refusal and its row.
pub fn measure_opb_lines(t: Table<'_>, text: &[u8], mode: Mode) -> Result<Extent, Refusal>
    ensures { said_measure result ≡ extent_for mode (table_of t.entry) text.now }
{
    let mut all = Extent {
        length: 0,
        lines: 0,
        terms: 0,
    };
    for row in 0..t.row_room() {
        let Some(entry) = t.entry(row) else {
            break;
        };
        let more = entry_length(entry, t, text, mode).map_err(|fault| Refusal {
            number: fault.number,
            place: row as u64,
        })?;
        all = add_extent(all, more);
    }
    Ok(all)
}
