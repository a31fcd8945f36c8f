// How long a row's line is, and the whole text. Assumes nothing.
ghost use Rattle.std.specs.Prelude.{◌≡◌, ◌+◌, length};
ghost use Rattle.definitions.specs.Refusal.{needed};
ghost use Rattle.definitions.specs.Number.{integer_text};
ghost use Rattle.definitions.specs.House.{kind_word};
ghost use Rattle.columns.specs.Kinds.{read_kind};
ghost use Rattle.house_lengths.specs.Words.{comment_line, word_field, head_text};
ghost use Rattle.house_lengths.specs.Lengths.{line_length};

use definitions::{AT_LEAST, AT_MOST, COMMENT, EQUAL};
use lengths::add_needed;

fn word_length(kind: u8) -> usize
    ensures { result ≡ length (kind_word (read_kind kind)) }
{
    match kind {
        AT_LEAST | AT_MOST | EQUAL => 2,
        _ => 3,
    }
}

// `c`, a tab, the length of the text and an LF.
fn comment_length(count: usize) -> u64
    ensures { result ≡ needed (length (comment_line count)) }
{
    let length = 3 + lengths::count_length(count as u64);
    length as u64
}

// Behind the word stand a tab, the bound, the terms and an LF.
fn row_length(kind: u8, bound: i64, terms: u64) -> u64
    ensures { result ≡ needed (terms + (length (word_field (read_kind kind)) + (length (integer_text bound) + 1))) }
{
    let more = word_length(kind) + lengths::number_length(bound) + 2;
    add_needed(terms, more as u64)
}

// The length of a row's line, from the length of its terms' fields.
pub fn line_length(kind: u8, count: usize, bound: i64, terms: u64) -> u64
    ensures { result ≡ line_length kind count bound terms }
{
    if kind == COMMENT {
        return comment_length(count);
    }
    row_length(kind, bound, terms)
}

// The length with the head: `opb`, three tabs, rows, terms, first index and an LF. The lines have the length `lines`.
pub fn text_length(rows: usize, terms: u64, lines: u64, first: u32) -> u64
    ensures { result ≡ needed (lines + length (head_text rows terms first)) }
{
    let counts = lengths::count_length(rows as u64) + lengths::count_length(terms);
    let head = 7 + counts + lengths::count_length(first as u64);
    add_needed(lines, head as u64)
}
