// A part of the program `vectors`: what is printed of a case's answer. Each number stands behind a space. Each function
// prints all of it, or answers with the error of a write, which leaves some of it printed. Assumes nothing.
#![tactic(auto)]

use definitions::{Refusal, Totals};
use std::fmt::Display;
use std::io;
use std::io::Write;

pub fn say<W: Write>(output: &mut W, text: &[u8]) -> io::Result<()> {
    streams::print(output, text)
}

pub fn say_number<W: Write, T: Display + Drop>(output: &mut W, number: T) -> io::Result<()> {
    write!(output, " {number}")
}

// 1 for yes, 0 for no.
pub fn say_whether<W: Write>(output: &mut W, yes: bool) -> io::Result<()> {
    say_number(output, u8::from(yes))
}

pub fn say_refusal<W: Write>(output: &mut W, why: Refusal) -> io::Result<()> {
    write!(output, " refused {} at {}", why.number, why.place)
}

pub fn say_counted<W: Write>(output: &mut W, answer: Result<Totals, Refusal>) -> io::Result<()> {
    match answer {
        Ok(found) => write!(output, " table {} {}", found.rows, found.terms),
        Err(why) => say_refusal(output, why),
    }
}

// A column that was lent.
pub fn say_each<W: Write, T: Display>(output: &mut W, entries: &[T]) -> io::Result<()> {
    say(output, b" |")?;
    for entry in entries {
        say_number(output, entry)?;
    }
    Ok(())
}

pub fn say_table<W: Write>(
    output: &mut W,
    kinds: &[u8],
    firsts: &[usize],
    counts: &[usize],
    bounds: &[i64],
    weights: &[i64],
    literals: &[u32],
) -> io::Result<()> {
    say_each(output, kinds)?;
    say_each(output, firsts)?;
    say_each(output, counts)?;
    say_each(output, bounds)?;
    say_each(output, weights)?;
    say_each(output, literals)
}
