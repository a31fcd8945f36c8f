// The second walk: the head and the lines of rows that the first walk has accepted, into an output that has room for
// all of it. Assumes nothing.
ghost use Rattle.std.specs.Prelude.{◌≡◌, List, ◌+◌, ◌<◌, ◌≤◌, true, length};
ghost use Rattle.definitions.specs.Lists.{joined};
ghost use Rattle.definitions.specs.Refusal.{accept};
ghost use Rattle.definitions.specs.Row.{Line};
ghost use Rattle.definitions.specs.Table.{accepted, in_column};
ghost use Rattle.definitions.specs.House.{house_line};
ghost use Rattle.laws.proofs.Puts.{Puts};
ghost use Rattle.columns.specs.Kinds.{read_kind};
ghost use Rattle.house_lengths.specs.Words.{head_text, comment_line, word_field};
ghost use Rattle.house_measures.specs.Lines.{line_on, lines_of};
ghost use Rattle.house.specs.Ready.{RowReady, RowsReady};
ghost use Rattle.tables.specs.Lent.{table_of};

use crate::terms::put_terms;
use definitions::{AT_LEAST, AT_MOST, COMMENT, EQUAL, Entry};
use puts::{put_field, put_number, put_text};
use tables::Table;

// "The first line is rows, terms, first index."
pub(crate) fn put_head(rows: usize, terms: u64, first: u32, out: &mut [u8]) -> usize
    requires { length (head_text rows terms first) ≤ length out.old }
    ensures { Puts (head_text rows terms first) 0 out.old result out.new }
{
    let a = put_text(b"opb", out, 0);
    let b = put_field(rows as u64, out, a);
    let c = put_field(terms, out, b);
    let end = put_field(first as u64, out, c);
    out[end] = b'\n';
    end + 1
}

// "`c` gives the text's length."
fn put_comment(count: usize, out: &mut [u8], at: usize) -> usize
    requires { at + length (comment_line count) ≤ length out.old }
    ensures { Puts (comment_line count) at out.old result out.new }
{
    out[at] = b'c';
    let end = put_field(count as u64, out, at + 1);
    out[end] = b'\n';
    end + 1
}

// The word of a kind, and the tab behind it.
fn put_word(kind: u8, out: &mut [u8], at: usize) -> usize
    requires { at + length (word_field (read_kind kind)) ≤ length out.old }
    ensures { Puts (word_field (read_kind kind)) at out.old result out.new }
{
    match kind {
        AT_LEAST => put_text(b"ge\t", out, at),
        AT_MOST => put_text(b"le\t", out, at),
        EQUAL => put_text(b"eq\t", out, at),
        _ => put_text(b"min\t", out, at),
    }
}

// A row of a read kind, from its part of the two columns.
fn put_line(entry: Entry, t: Table<'_>, first: u32, out: &mut [u8], at: usize) -> usize
    requires { (0 < entry.kind) × (in_column (table_of t) entry ≡ true) × RowReady first t.weights.now t.literals.now entry at out.old }
    ensures { (l : Line) → line_on first t.entry.weights.now t.entry.literals.now entry ≡ accept l
        → Puts (house_line first l) at out.old result out.new }
{
    let last = entry.first + entry.count;
    let weights = &t.weights[entry.first..last];
    let literals = &t.literals[entry.first..last];
    let a = put_word(entry.kind, out, at);
    let b = put_number(entry.bound, out, a);
    let end = put_terms(weights, literals, first, out, b);
    out[end] = b'\n';
    end + 1
}

fn put_row(entry: Entry, t: Table<'_>, first: u32, out: &mut [u8], at: usize) -> usize
    requires { RowReady first t.weights.now t.literals.now entry at out.old }
    ensures { (l : Line) → line_on first t.entry.weights.now t.entry.literals.now entry ≡ accept l
        → Puts (house_line first l) at out.old result out.new }
{
    if entry.kind == COMMENT {
        return put_comment(entry.count, out, at);
    }
    put_line(entry, t, first, out, at)
}

pub(crate) fn put_rows(t: Table<'_>, rows: usize, first: u32, out: &mut [u8], at: usize) -> usize
    requires { RowsReady first rows (table_of t) at out.old }
    ensures { (ls : List Line) → lines_of first rows (table_of t.entry) ≡ accepted ls
        → Puts (joined (house_line first) ls) at out.old result out.new }
{
    let mut end = at;
    for row in 0..rows {
        let Some(entry) = t.entry(row) else {
            break;
        };
        end = put_row(entry, t, first, out, end);
    }
    end
}
