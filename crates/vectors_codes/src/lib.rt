// A part of the program `vectors`: a number as a file number, an index, a code and a byte. Assumes nothing.
#![tactic(auto)]

use definitions::{Beginning, Class};
use literals::{FileNumber, Lit, Var};
use std::io;
use std::io::Write;
use vectors_shown::{say, say_number, say_whether};
use vectors_words::Words;

fn class_mark(c: Class) -> u8 {
    match c {
        Class::Digit => b'0',
        Class::Sign => b'+',
        Class::Blank => b'_',
        Class::Cr => b'r',
        Class::Lf => b'n',
        Class::Semicolon => b';',
        Class::Star => b'*',
        Class::Tilde => b'~',
        Class::LetterX => b'x',
        Class::LetterM => b'm',
        Class::Operator => b'=',
        Class::Other => b'.',
    }
}

fn beginning_mark(p: Beginning) -> u8 {
    match p {
        Beginning::Comment => b'c',
        Beginning::Objective => b'o',
        Beginning::Constraint => b'p',
        Beginning::Nothing => b'.',
    }
}

fn show_byte<W: Write>(output: &mut W, b: u8) -> io::Result<()> {
    let marks = [
        class_mark(symbols::class_of(b)),
        beginning_mark(symbols::beginning_of(b)),
    ];
    say(output, b" ")?;
    say(output, &marks)
}

// A number, where it stands for something.
fn show_said<W: Write>(output: &mut W, number: Option<u32>) -> io::Result<()> {
    match number {
        Some(n) => say_number(output, n),
        None => say(output, b" refused"),
    }
}

// A number of a file.
fn show_file<W: Write>(output: &mut W, size: u64, first: u32) -> io::Result<()> {
    let Some(number) = FileNumber::of_digits(size) else {
        return show_said(output, None);
    };
    say_number(output, number.number())?;
    show_said(output, Var::of_file(number, first).map(|v| v.index()))
}

// An index.
fn show_index<W: Write>(output: &mut W, index: u32, first: u32) -> io::Result<()> {
    let variable = Var::of_index(index);
    show_said(output, FileNumber::of(variable, first).map(|n| n.number()))?;
    show_said(output, variable.pos_lit().map(|l| l.code()))?;
    show_said(output, variable.neg_lit().map(|l| l.code()))?;
    show_said(output, variable.lit(true).map(|l| l.code()))
}

// A code.
fn show_literal<W: Write>(output: &mut W, l: Lit) -> io::Result<()> {
    say_whether(output, l.is_neg())?;
    say_whether(output, l.is_pos())?;
    say_number(output, l.var().index())?;
    say_number(output, l.negated().code())
}

// What is no index and no code, or no byte, is shown up to there.
fn show<W: Write>(output: &mut W, size: u64, first: u32) -> io::Result<()> {
    show_file(output, size, first)?;
    if size > 4_294_967_295 {
        return Ok(());
    }
    show_index(output, size as u32, first)?;
    show_literal(output, Lit::of_code(size as u32))?;
    if size > 255 {
        return Ok(());
    }
    show_byte(output, size as u8)
}

// The number and the first index of such a case, or none.
fn case_of(mut words: Words<'_>) -> Option<(u64, u32)> {
    let n = words.natural(u64::MAX)?;
    let first = words.natural(4_294_967_295)?;
    words.is_end().then_some((n, first as u32))
}

// Whether the words are such a case, which is then run.
pub fn symbol_case<W: Write>(output: &mut W, words: Words<'_>) -> io::Result<bool> {
    let Some((n, first)) = case_of(words) else {
        return Ok(false);
    };
    show(output, n, first)?;
    Ok(true)
}
