// The first of the two walks that normalise a table (01, "Normalising and evaluating"): each row is checked, rows and
// terms are counted, and held against the room of the columns that are to be filled. "Row by row 11, 8; then 9, 10."
// Assumes nothing.
#![tactic(auto)]

ghost use Rattle.std.specs.Prelude.{◌≡◌};
ghost use Rattle.definitions.specs.Answers.{said_counted};
ghost use Rattle.definitions.specs.Normal.{normalising};
ghost use Rattle.definitions.specs.Table.{counted};
ghost use Rattle.normal_checks.specs.FirstWalk.{terms_checked, normal_of, term_count, normal_rows, totals_needed, totals_within};
ghost use Rattle.normal_checks.specs.Said.{said_row};
ghost use Rattle.tables.specs.Lent.{table_of};

use definitions::{COMMENT, Entry, Fault, OBJECTIVE, Refusal, Totals, WEIGHT_LIMIT};
use tables::Table;

// A row of a read kind, whose terms lie in their columns: the rest of 11, then 8.
fn check_terms(kind: u8, bound: i64, weights: &[i64], literals: &[u32]) -> Result<usize, Fault>
    ensures { said_row result ≡ terms_checked kind bound weights.now literals.now }
{
    if !term_checks::indexed_of(literals) {
        return Err(Fault { number: 11 });
    }
    if term_checks::sizes_of(weights) > WEIGHT_LIMIT {
        return Err(Fault { number: 8 });
    }
    if !fits::sum_fits(bound, shifts::shift_of(kinds::read_kind(kind), weights)) {
        return Err(Fault { number: 8 });
    }
    Ok(weights.len())
}

// An entry of the table. A comment is accepted as it is; a kind that the reader does not give is a "row that no table
// may hold".
fn check_row(entry: Entry, t: Table<'_>) -> Result<usize, Fault>
    ensures { said_row result ≡ term_count (normal_of entry t.entry.weights.now t.entry.literals.now) }
{
    if entry.kind == COMMENT {
        return Ok(0);
    }
    if entry.kind > OBJECTIVE {
        return Err(Fault { number: 11 });
    }
    if !columns::in_column(entry.first, entry.count, t.term_room()) {
        return Err(Fault { number: 11 });
    }
    let end = entry.first + entry.count;
    check_terms(
        entry.kind,
        entry.bound,
        &t.weights[entry.first..end],
        &t.literals[entry.first..end],
    )
}

fn refused(number: u8, place: usize) -> Result<Totals, Refusal>
    ensures { result ≡ Err (record { number = number; place = place }) }
{
    Err(Refusal {
        number,
        place: place as u64,
    })
}

// "A call over a table takes every row lent; rows count from 0."
fn count_rows(t: Table<'_>) -> Result<Totals, Refusal>
    ensures { said_counted result ≡ totals_needed (normal_rows (table_of t.entry)) }
{
    let rows = t.row_room();
    let mut terms: usize = 0;
    for row in 0..rows {
        let Some(entry) = t.entry(row) else {
            break;
        };
        let needed = check_row(entry, t).map_err(|fault| Refusal {
            number: fault.number,
            place: row as u64,
        })?;
        // Rows may share terms, so a count can pass 64 bits.
        terms = terms.saturating_add(needed);
    }
    Ok(Totals { rows, terms })
}

// "Then 9, 10."
fn within(totals: Totals, rows: usize, terms: usize) -> Result<Totals, Refusal>
    ensures { said_counted result ≡ totals_within rows terms totals }
{
    if rows < totals.rows {
        return refused(9, totals.rows);
    }
    if terms < totals.terms {
        return refused(10, totals.terms);
    }
    Ok(totals)
}

// What the call is to answer: the rows and terms that there are to fill, or the refusal.
pub fn measure_normal(t: Table<'_>, out: Table<'_>) -> Result<Totals, Refusal>
    ensures { said_counted result ≡ counted (normalising (table_of t.entry) (table_of out.entry)) }
{
    let totals = count_rows(t)?;
    within(totals, out.row_room(), out.term_room())
}
