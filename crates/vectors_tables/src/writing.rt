// A table, written. Assumes nothing.
ghost use Rattle.std.specs.Prelude.{◌≤◌, length, IfSome};

use definitions::{Mode, Refusal};
use std::io;
use std::io::Write;
use tables::Table;
use vectors_columns::{ROOM, column};
use vectors_shown::{say_each, say_refusal};
use vectors_words::Words;

fn show_written<W: Write>(output: &mut W, answer: Result<usize, Refusal>) -> io::Result<()> {
    match answer {
        Ok(n) => write!(output, " wrote {n}"),
        Err(why) => say_refusal(output, why),
    }
}

// Into an output of so many dots.
fn write<W: Write>(
    output: &mut W,
    mode: Mode,
    room: usize,
    text: &[u8],
    table: Table<'_>,
) -> io::Result<()> {
    let mut out = [b'.'; ROOM];
    if room > ROOM {
        return Ok(());
    }
    let lent = &mut out[0..room];
    show_written(output, writer::write_opb_lines(table, text, mode, lent))?;
    say_each(output, lent)
}

// How such a case is to be written, into how much room, and the bytes of its text at the front of the buffer; or none.
#[derive(Clone, Copy)]
struct Asked {
    mode: Mode,
    room: usize,
    bytes: usize,
}

fn asked_of(mut words: Words<'_>, text: &mut [u8]) -> Option<Asked>
    ensures { IfSome result (λ a. a.bytes ≤ length text.new) }
{
    let first = words.natural(4_294_967_295)? as u32;
    let plain = words.natural(1)? == 1;
    let room = words.natural(512)? as usize;
    let bytes = column(&mut words, text)?;
    words.is_end().then_some(Asked {
        mode: Mode { first, plain },
        room,
        bytes,
    })
}

pub(crate) fn write_case<W: Write>(
    output: &mut W,
    words: Words<'_>,
    table: Table<'_>,
) -> io::Result<bool> {
    let mut text = [0u8; ROOM];
    let Some(asked) = asked_of(words, &mut text) else {
        return Ok(false);
    };
    let n = asked.bytes;
    write(output, asked.mode, asked.room, &text[0..n], table)?;
    Ok(true)
}
