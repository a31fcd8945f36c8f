// A part of the program `vectors`: a block of value lines, read on top of a length and two rows of words. Assumes
// nothing.
#![tactic(auto)]

ghost use Rattle.std.specs.Prelude.{◌≤◌, length, IfSome};

use definitions::Refusal;
use std::io;
use std::io::Write;
use vectors_columns::{ROOM, WORDS, column};
use vectors_shown::{say_each, say_refusal};
use vectors_words::Words;

fn show<W: Write>(output: &mut W, answer: Result<usize, Refusal>) -> io::Result<()> {
    match answer {
        Ok(after) => write!(output, " length {after}"),
        Err(why) => say_refusal(output, why),
    }
}

fn read<W: Write>(
    output: &mut W,
    block: &[u8],
    length: u64,
    values: &mut [u64],
    known: &mut [u64],
) -> io::Result<()> {
    show(output, values::read_values(block, length, values, known))?;
    say_each(output, values)?;
    say_each(output, known)
}

// The length of such a case, and how many bytes and words it has at the front of each buffer; or none.
#[derive(Clone, Copy)]
struct Block {
    length: u64,
    bytes: usize,
    values: usize,
    known: usize,
}

fn block_of(
    mut words: Words<'_>,
    block: &mut [u8],
    values: &mut [u64],
    known: &mut [u64],
) -> Option<Block>
    ensures bytes { IfSome result (λ b. b.bytes ≤ length block.new) }
    ensures values { IfSome result (λ b. b.values ≤ length values.new) }
    ensures known { IfSome result (λ b. b.known ≤ length known.new) }
{
    let found = Block {
        length: words.natural(u64::MAX)?,
        bytes: column(&mut words, block)?,
        values: column(&mut words, values)?,
        known: column(&mut words, known)?,
    };
    words.is_end().then_some(found)
}

// Whether the words are such a case, which is then run.
pub fn block_case<W: Write>(output: &mut W, words: Words<'_>) -> io::Result<bool> {
    let mut block = [0u8; ROOM];
    let mut values = [0u64; WORDS];
    let mut known = [0u64; WORDS];
    let Some(found) = block_of(words, &mut block, &mut values, &mut known) else {
        return Ok(false);
    };
    let n = found.bytes;
    let held = found.values;
    let told = found.known;
    read(
        output,
        &block[0..n],
        found.length,
        &mut values[0..held],
        &mut known[0..told],
    )?;
    Ok(true)
}
