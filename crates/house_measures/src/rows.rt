// The first walk over the rows of a table: each is checked, and terms and the length of the lines are counted. Assumes
// nothing.
ghost use Rattle.std.specs.Prelude.{◌≡◌, ◌<◌, ◌≤◌, true};
ghost use Rattle.definitions.specs.Table.{in_column};
ghost use Rattle.house_measures.specs.Lines.{line_on, lines_of};
ghost use Rattle.house_measures.specs.Sizes.{said_size, size_in, said_measured, sizes_in};
ghost use Rattle.tables.specs.Lent.{table_of};

use crate::terms::terms_length;
use definitions::{COMMENT, Entry, Fault, OBJECTIVE, Refusal};
use lengths::add_needed;
use tables::Table;

// "row that no table may hold"
const NO_ROW: u8 = 11;

// "file number beyond u32"
const NO_NUMBER: u8 = 5;

// How many terms, and the length of the lines.
#[derive(Clone, Copy, Debug, PartialEq, Eq)]
pub struct Size {
    pub terms: u64,
    pub length: u64,
}

// A row of a read kind, whose terms lie in their columns: the rest of 11, then 5.
#[tactic(auto, using(crate::proofs::Entries::by_line))]
fn measure_line(entry: Entry, t: Table<'_>, first: u32) -> Result<Size, Fault>
    requires { (0 < entry.kind) × (entry.kind ≤ 4) × (in_column (table_of t) entry ≡ true) }
    ensures { said_size result ≡ size_in first (line_on first t.entry.weights.now t.entry.literals.now entry) }
{
    let end = entry.first + entry.count;
    let weights = &t.weights[entry.first..end];
    let literals = &t.literals[entry.first..end];
    if !term_checks::indexed_of(literals) {
        return Err(Fault { number: NO_ROW });
    }
    let length = terms_length(weights, literals, first).ok_or(Fault { number: NO_NUMBER })?;
    Ok(Size {
        terms: entry.count as u64,
        length: house_lengths::line_length(entry.kind, entry.count, entry.bound, length),
    })
}

// A row of a table: a comment is listed as it is; a kind that the reader does not give is refused.
fn measure_row(entry: Entry, t: Table<'_>, first: u32) -> Result<Size, Fault>
    ensures { said_size result ≡ size_in first (line_on first t.entry.weights.now t.entry.literals.now entry) }
{
    if entry.kind == COMMENT {
        return Ok(Size {
            terms: 0,
            length: house_lengths::line_length(entry.kind, entry.count, entry.bound, 0),
        });
    }
    if entry.kind > OBJECTIVE {
        return Err(Fault { number: NO_ROW });
    }
    if !columns::in_column(entry.first, entry.count, t.term_room()) {
        return Err(Fault { number: NO_ROW });
    }
    measure_line(entry, t, first)
}

// How many rows, and their sizes together; or the first row that is refused.
pub fn measure_rows(t: Table<'_>, rows: usize, first: u32) -> Result<(usize, Size), Refusal>
    ensures { said_measured result ≡ sizes_in first (lines_of first rows (table_of t.entry)) }
{
    let n = rows.min(t.row_room());
    let mut all = Size {
        terms: 0,
        length: 0,
    };
    for row in 0..n {
        let Some(entry) = t.entry(row) else {
            break;
        };
        match measure_row(entry, t, first) {
            Ok(size) => {
                all = Size {
                    terms: add_needed(all.terms, size.terms),
                    length: add_needed(all.length, size.length),
                };
            }
            Err(fault) => {
                return Err(Refusal {
                    number: fault.number,
                    place: row as u64,
                });
            }
        }
    }
    Ok((n, all))
}
