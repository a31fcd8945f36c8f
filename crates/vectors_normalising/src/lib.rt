// A part of the program `vectors`: a table, normalised. Assumes nothing.
#![tactic(auto)]

use std::io;
use std::io::Write;
use tables::Table;
use vectors_shown::{say_counted, say_table};
use vectors_words::Words;

// Into columns of unequal length, whose entries are 9 before: four kinds, bounds and weights, three counts, so many
// firsts and literals.
fn normalise<W: Write>(
    output: &mut W,
    rows: usize,
    terms: usize,
    table: Table<'_>,
) -> io::Result<()> {
    let mut outkinds = [9u8; 4];
    let mut outfirsts = [9usize; 4];
    let mut outcounts = [9usize; 3];
    let mut outbounds = [9i64; 4];
    let mut outweights = [9i64; 4];
    let mut outliterals = [9u32; 5];
    if rows > 4 {
        return Ok(());
    }
    if terms > 5 {
        return Ok(());
    }
    let lentfirsts = &mut outfirsts[0..rows];
    let lentliterals = &mut outliterals[0..terms];
    let answer = normaliser::normalise(
        table,
        &mut outkinds,
        lentfirsts,
        &mut outcounts,
        &mut outbounds,
        &mut outweights,
        lentliterals,
    );
    say_counted(output, answer)?;
    say_table(
        output,
        &outkinds,
        lentfirsts,
        &outcounts,
        &outbounds,
        &outweights,
        lentliterals,
    )
}

// How many firsts and literals are lent in such a case, or none.
fn asked_of(mut words: Words<'_>) -> Option<(usize, usize)> {
    let rows = words.natural(4)?;
    let terms = words.natural(5)?;
    words.is_end().then_some((rows as usize, terms as usize))
}

// Whether the words are the rest of such a case, which is then run.
pub fn normal_case<W: Write>(
    output: &mut W,
    words: Words<'_>,
    table: Table<'_>,
) -> io::Result<bool> {
    let Some((rows, terms)) = asked_of(words) else {
        return Ok(false);
    };
    normalise(output, rows, terms, table)?;
    Ok(true)
}
