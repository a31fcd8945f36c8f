// A part of the program `vectors`: the cases over a table, which is written, evaluated or, by vectors_normalising,
// normalised. Its columns are arrays, of which as many entries are lent as the case has. Assumes nothing.
#![tactic(auto)]

mod evaluating;
mod writing;

ghost use Rattle.std.specs.Prelude.{◌≤◌, length, IfSome};

use std::io;
use std::io::Write;
use tables::Table;
use vectors_columns::{ROOM, column};
use vectors_words::Words;

fn run<W: Write>(
    output: &mut W,
    command: u8,
    words: Words<'_>,
    table: Table<'_>,
) -> io::Result<bool> {
    match command {
        b'w' => writing::write_case(output, words, table),
        b'n' => vectors_normalising::normal_case(output, words, table),
        b'e' => evaluating::evaluate_case(output, words, table),
        _ => Ok(false),
    }
}

// The columns of terms stand behind those of rows.
fn terms_case<W: Write>(
    output: &mut W,
    command: u8,
    mut words: Words<'_>,
    kinds: &[u8],
    firsts: &[usize],
    counts: &[usize],
    bounds: &[i64],
) -> io::Result<bool> {
    let mut weights = [0i64; ROOM];
    let mut literals = [0u32; ROOM];
    let Some(m) = column(&mut words, &mut weights) else {
        return Ok(false);
    };
    let Some(n) = column(&mut words, &mut literals) else {
        return Ok(false);
    };
    let table = Table {
        kinds,
        firsts,
        counts,
        bounds,
        weights: &weights[0..m],
        literals: &literals[0..n],
    };
    run(output, command, words, table)
}

// How many entries each column of rows has.
#[derive(Clone, Copy)]
struct Rows {
    kinds: usize,
    firsts: usize,
    counts: usize,
    bounds: usize,
}

// The columns of rows, each at the front of its array.
fn rows_of(
    words: &mut Words<'_>,
    kinds: &mut [u8],
    firsts: &mut [usize],
    counts: &mut [usize],
    bounds: &mut [i64],
) -> Option<Rows>
    ensures kinds { IfSome result (λ n. n.kinds ≤ length kinds.new) }
    ensures firsts { IfSome result (λ n. n.firsts ≤ length firsts.new) }
    ensures counts { IfSome result (λ n. n.counts ≤ length counts.new) }
    ensures bounds { IfSome result (λ n. n.bounds ≤ length bounds.new) }
{
    Some(Rows {
        kinds: column(words, kinds)?,
        firsts: column(words, firsts)?,
        counts: column(words, counts)?,
        bounds: column(words, bounds)?,
    })
}

// Whether the words are a case over a table, which is then run.
pub fn table_case<W: Write>(output: &mut W, command: u8, mut words: Words<'_>) -> io::Result<bool> {
    let mut kinds = [0u8; ROOM];
    let mut firsts = [0usize; ROOM];
    let mut counts = [0usize; ROOM];
    let mut bounds = [0i64; ROOM];
    let Some(rows) = rows_of(
        &mut words,
        &mut kinds,
        &mut firsts,
        &mut counts,
        &mut bounds,
    ) else {
        return Ok(false);
    };
    terms_case(
        output,
        command,
        words,
        &kinds[0..rows.kinds],
        &firsts[0..rows.firsts],
        &counts[0..rows.counts],
        &bounds[0..rows.bounds],
    )
}
