// One row of a table under an assignment lent as words (01, "Normalising and evaluating"): its entry, the sum of its
// terms, and what is answered for it. Where there are no known words, everything that the words hold is known. The
// number of ones is told. Assumes nothing.
#![tactic(auto)]

ghost use Rattle.std.specs.Prelude.{◌≡◌, option_copied, option_map};
ghost use Rattle.definitions.specs.Refusal.{refusal};
ghost use Rattle.definitions.specs.Evaluate.{on_place};
ghost use Rattle.tables.specs.Lent.{table_of};
ghost use Rattle.assigned.specs.WordsSay.{looked};
ghost use Rattle.verdicts.specs.Said.{said_evaluated};
ghost use Rattle.rows.specs.FoundRow.{found_at, evaluating_of};

use definitions::{AT_LEAST, Entry, OBJECTIVE, Refusal};
use tables::Table;
use verdicts::Evaluated;

// The place of each refusal is the row.
fn at_row(number: u8, row: usize) -> Refusal
    ensures { result ≡ refusal number row }
{
    Refusal {
        number,
        place: row as u64,
    }
}

// An entry of the table. A comment, and any kind that the reader does not give, is a "row that no table may hold".
fn evaluate_entry(
    entry: Entry,
    t: Table<'_>,
    row: usize,
    words: &[u64],
    known: Option<&[u64]>,
    ones: u64,
) -> Result<Evaluated, Refusal>
    ensures { said_evaluated result ≡ on_place row (found_at entry t.entry.weights.now t.entry.literals.now (option_map looked (option_copied known.entry)) (looked words.now) ones) }
{
    match entry.kind {
        AT_LEAST..=OBJECTIVE => {}
        _ => return Err(at_row(11, row)),
    }
    match summed::sum_row(entry, t, words, known) {
        Ok(sum) => verdicts::verdict(kinds::read_kind(entry.kind), sum, entry.bound, ones, row),
        Err(fault) => Err(at_row(fault.number, row)),
    }
}

// Row `row` of the table, rows counted from 0. Order: "11 (comments and missing rows too), 8 for absolute weights, 12,
// then 8 for an objective's value".
pub fn evaluate_row(
    t: Table<'_>,
    row: usize,
    words: &[u64],
    known: Option<&[u64]>,
    ones: u64,
) -> Result<Evaluated, Refusal>
    ensures { said_evaluated result ≡ evaluating_of (table_of t.entry) row (option_map looked (option_copied known.entry)) (looked words.now) ones }
{
    let Some(entry) = t.entry(row) else {
        return Err(at_row(11, row));
    };
    evaluate_entry(entry, t, row, words, known, ones)
}
