// Runs cases through the proved code. Standard input has a case to a line, standard output gets a line for each: what
// was answered, and what everything lent holds afterwards. A line that is no case is answered `bad case` and its
// number, from 1. The program has no data of its own: tests/vectors makes the cases and, from 01 and 02 alone, the
// answers.
//
// A case is a letter and numbers, each parted from the next by one space. A column is the count of its entries, and the
// entries; so are BYTES. TABLE is the columns of kinds, firsts, counts, bounds, weights and literals.
//
//   s NUMBER FIRST               a number as file number, index, code and byte
//   t BYTES                      the front of a text: blanks, line ending, bytes up to one, number, digits
//   p NUMBER COUNT AT BYTES      a number, a count and a text, each printed into 24 bytes from a place on
//   v LENGTH BYTES VALUES KNOWN  a block of value lines on top of what is known
//   r SIZES FIRST BYTES          a file read into columns of so many entries
//   w TABLE FIRST PLAIN ROOM BYTES  the table written, with BYTES as the comments' text; PLAIN is 1 for no-negated mode
//   n TABLE FIRSTS LITERALS      the table normalised into columns of which two have so many entries
//   e TABLE ROW VALUES KNOWN     a row evaluated, also where only some variables are known, and judged
//
// Each is run by a crate of its own: s by vectors_codes, t and p by vectors_texts, v by vectors_blocks, r by
// vectors_files, w and e by vectors_tables, which reads the table of n too and hands it to vectors_normalising. A line is
// read by vectors_words and vectors_columns, an answer printed by vectors_shown.
//
// Where a write fails, the program ends with its error.
#![tactic(auto)]

ghost use Rattle.std.specs.Prelude.{◌≡◌, ◌<◌, ◌≤◌, length};

use std::io;
use std::io::Write;
use vectors_words::Words;

// Whether the line is a case, which is then run.
fn is_case<W: Write>(output: &mut W, line: &[u8]) -> io::Result<bool> {
    let [command, b' ', rest @ ..] = line else {
        return Ok(false);
    };
    let words = Words::new(rest);
    match *command {
        b's' => vectors_codes::symbol_case(output, words),
        b't' => vectors_texts::text_case(output, words),
        b'p' => vectors_texts::print_case(output, words),
        b'v' => vectors_blocks::block_case(output, words),
        b'r' => vectors_files::read_case(output, words),
        _ => vectors_tables::table_case(output, *command, words),
    }
}

fn run_case<W: Write>(output: &mut W, line: &[u8], number: usize) -> io::Result<()> {
    vectors_shown::say(output, b"=")?;
    if !is_case(output, line)? {
        write!(output, " bad case {number}")?;
    }
    vectors_shown::say(output, b"\n")
}

// How many bytes the first line has with its LF; the last line has none where the text ends first.
fn line_length(s: &[u8]) -> usize
    requires { 0 < length s.now }
    ensures { (0 < result) × (result ≤ length s.now) }
{
    match s.iter().position(|&b| b == b'\n') {
        Some(before) => before + 1,
        None => s.len(),
    }
}

fn run_cases<W: Write>(output: &mut W, s: &[u8]) -> io::Result<()> {
    let mut rest = s;
    let mut number: usize = 0;
    while !rest.is_empty() {
        let (line, after) = rest.split_at(line_length(rest));
        number += 1;
        run_case(output, line, number)?;
        rest = after;
    }
    Ok(())
}

// Room for the cases. Callers know its length alone.
fn space() -> [u8; 131072]
    ensures { 131072 ≡ length result }
{
    [0; 131072]
}

fn main(rt: HostRuntime) -> io::Result<()> {
    let mut errors = rt.stderr();
    let mut input = space();
    match streams::read_input(&mut rt.stdin(), &mut input) {
        Ok(Some(n)) => run_cases(&mut rt.stdout(), &input[..n]),
        Ok(None) => streams::say(&mut errors, b"vectors: more than 131,072 bytes\n"),
        Err(_) => streams::say(&mut errors, b"vectors: standard input cannot be read\n"),
    }
}
