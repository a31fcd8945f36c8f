// A part of the program `vectors`: a file, read into columns. They are arrays, of which as many entries are lent as the
// case says. Assumes nothing.
#![tactic(auto)]

ghost use Rattle.std.specs.Prelude.{◌≤◌, length, IfSome};

use definitions::Options;
use std::io;
use std::io::Write;
use vectors_columns::{ROOM, column};
use vectors_shown::{say_counted, say_table};
use vectors_words::Words;

// Into columns of so many entries, which are 7 before.
fn read<W: Write>(output: &mut W, file: &[u8], options: Options, sizes: [u8; 6]) -> io::Result<()> {
    let mut kinds = [7u8; 256];
    let mut firsts = [7usize; 256];
    let mut counts = [7usize; 256];
    let mut bounds = [7i64; 256];
    let mut weights = [7i64; 256];
    let mut literals = [7u32; 256];
    let [k, f, n, b, w, l] = sizes;
    let lentkinds = &mut kinds[0..k as usize];
    let lentfirsts = &mut firsts[0..f as usize];
    let lentcounts = &mut counts[0..n as usize];
    let lentbounds = &mut bounds[0..b as usize];
    let lentweights = &mut weights[0..w as usize];
    let lentliterals = &mut literals[0..l as usize];
    let answer = reader::parse_opb_data(
        file,
        options,
        lentkinds,
        lentfirsts,
        lentcounts,
        lentbounds,
        lentweights,
        lentliterals,
    );
    say_counted(output, answer)?;
    say_table(
        output,
        lentkinds,
        lentfirsts,
        lentcounts,
        lentbounds,
        lentweights,
        lentliterals,
    )
}

// The first index of such a case, with how many bytes its file has at the front of the buffer; or none.
fn file_of(mut words: Words<'_>, sizes: &mut [u8; 6], file: &mut [u8]) -> Option<(Options, usize)>
    ensures { IfSome result (λ f. f.1 ≤ length file.new) }
{
    column(&mut words, sizes)?;
    let first = words.natural(4_294_967_295)? as u32;
    let n = column(&mut words, file)?;
    words.is_end().then_some((Options { first }, n))
}

// Whether the words are such a case, which is then run.
pub fn read_case<W: Write>(output: &mut W, words: Words<'_>) -> io::Result<bool> {
    let mut sizes = [0u8; 6];
    let mut file = [0u8; ROOM];
    let Some((options, n)) = file_of(words, &mut sizes, &mut file) else {
        return Ok(false);
    };
    read(output, &file[0..n], options, sizes)?;
    Ok(true)
}
