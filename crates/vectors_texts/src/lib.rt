// A part of the program `vectors`: the front of a text; and a number, a count and a text printed into an output of 24
// bytes, which are dots before. Each public function says whether the words are such a case, which is then run. Assumes
// nothing.
#![tactic(auto)]

ghost use Rattle.std.specs.Prelude.{◌≤◌, length, IfSome};

use std::io;
use std::io::Write;
use vectors_columns::{ROOM, column};
use vectors_shown::{say, say_each, say_number};
use vectors_words::Words;

// ---- the front of a text

fn show_blanks<W: Write>(output: &mut W, s: &[u8]) -> io::Result<()> {
    say_number(output, blanks::blanks_of(s))?;
    say_number(output, blanks::line_ending_of(s))?;
    say_number(output, blanks::until_ending_of(s))
}

fn show_number<W: Write>(output: &mut W, s: &[u8]) -> io::Result<()> {
    match numbers::read_number(s) {
        Some((z, n)) => {
            say_number(output, z)?;
            say_number(output, n)
        }
        None => say(output, b" missing"),
    }
}

fn show_run<W: Write>(output: &mut W, s: &[u8]) -> io::Result<()> {
    let run = numbers::read_run(s);
    say_number(output, run.size)?;
    say_number(output, run.count)
}

fn show_text<W: Write>(output: &mut W, s: &[u8]) -> io::Result<()> {
    show_blanks(output, s)?;
    show_number(output, s)?;
    show_run(output, s)
}

// A text of such a case, at the front of the buffer: how many bytes it has, or none.
fn text_of(mut words: Words<'_>, text: &mut [u8]) -> Option<usize>
    ensures { IfSome result (λ n. n ≤ length text.new) }
{
    let n = column(&mut words, text)?;
    words.is_end().then_some(n)
}

pub fn text_case<W: Write>(output: &mut W, words: Words<'_>) -> io::Result<bool> {
    let mut text = [0u8; ROOM];
    let Some(n) = text_of(words, &mut text) else {
        return Ok(false);
    };
    show_text(output, &text[0..n])?;
    Ok(true)
}

// ---- prints

fn show_put<W: Write>(output: &mut W, end: Option<usize>, out: &[u8]) -> io::Result<()> {
    match end {
        Some(end) => say_number(output, end)?,
        None => say(output, b" full")?,
    }
    say_each(output, out)
}

fn print_number<W: Write>(output: &mut W, z: i64, at: usize) -> io::Result<()> {
    let mut out = [b'.'; 24];
    say_number(output, lengths::number_length(z))?;
    let end = outputs::print_number(z, &mut out, at);
    show_put(output, end, &out)
}

fn print_count<W: Write>(output: &mut W, m: u64, at: usize) -> io::Result<()> {
    let mut out = [b'.'; 24];
    say_number(output, lengths::count_length(m))?;
    let end = outputs::print_count(m, &mut out, at);
    show_put(output, end, &out)
}

fn print_text<W: Write>(output: &mut W, t: &[u8], at: usize) -> io::Result<()> {
    let mut out = [b'.'; 24];
    let end = outputs::print_text(t, &mut out, at);
    show_put(output, end, &out)
}

// What is printed, and from which place on; the text stands at the front of the buffer.
#[derive(Clone, Copy)]
struct Prints {
    number: i64,
    count: u64,
    at: usize,
    text: usize,
}

fn prints_of(mut words: Words<'_>, text: &mut [u8]) -> Option<Prints>
    ensures { IfSome result (λ p. p.text ≤ length text.new) }
{
    let number = words.integer()?;
    let count = words.natural(u64::MAX)?;
    let at = words.natural(u64::MAX)? as usize;
    let n = text_of(words, text)?;
    Some(Prints {
        number,
        count,
        at,
        text: n,
    })
}

pub fn print_case<W: Write>(output: &mut W, words: Words<'_>) -> io::Result<bool> {
    let mut text = [0u8; ROOM];
    let Some(prints) = prints_of(words, &mut text) else {
        return Ok(false);
    };
    let n = prints.text;
    print_number(output, prints.number, prints.at)?;
    print_count(output, prints.count, prints.at)?;
    print_text(output, &text[0..n], prints.at)?;
    Ok(true)
}
