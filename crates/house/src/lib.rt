// The house lines of the listing program (01, "Examples on each side"), from a table into a lent output. Two walks over
// the rows: house_measures checks and counts, and what it has accepted is put. Every table gets an answer; a refused
// call changes nothing. specs/ListsTable.antt says what `list_table` promises. Assumes nothing.
#![tactic(auto)]

mod lines;
mod terms;

ghost use Rattle.house.specs.ListsTable.{Lists};
ghost use Rattle.tables.specs.Lent.{table_of};

use definitions::Refusal;
use tables::Table;

// The lines of the first `rows` rows. Row by row 11, then 5; then 14 with the length needed.
pub fn list_table(t: Table<'_>, rows: usize, first: u32, out: &mut [u8]) -> Result<usize, Refusal>
    ensures { Lists first rows (table_of t.entry) out.old result out.new }
{
    let (n, size) = house_measures::measure_rows(t, rows, first)?;
    let length = house_lengths::text_length(n, size.terms, size.length, first);
    if length > out.len() as u64 {
        return Err(Refusal {
            number: 14,
            place: length,
        });
    }
    let at = lines::put_head(n, size.terms, first, out);
    Ok(lines::put_rows(t, n, first, out, at))
}
