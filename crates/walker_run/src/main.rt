// Runs the walker's own functions on four small files: a walker is made, looked ahead with, stepped twice, asked where
// it stands, moved, and its statement's terms are filled. tests/vectors/walker_stdout.py makes stdout. Assumes nothing.
#![tactic(auto)]

ghost use Rattle.std.specs.Prelude.{◌≡◌};
ghost use Rattle.definitions.specs.Stepping.{step_at, terms_at_step};
ghost use Rattle.fills.specs.FillsTerms.{FillsTerms};
ghost use Rattle.walker.specs.Said.{said_stepped, brief_stepped};
ghost use Rattle.walker_run.specs.Stands.{stands_after};

use definitions::{Entry, Options, Refusal};
use std::io;
use std::io::Write;
use walker::Step;

// ---- the functions over a walker

// Two statements in a row, and where the walker then stands.
#[derive(Clone, Copy)]
struct Walked {
    first: Result<Option<Step>, Refusal>,
    second: Result<Option<Step>, Refusal>,
    at: usize,
}

fn walk_two(file: &[u8], options: Options) -> Walked
    ensures { (said_stepped result.first ≡ brief_stepped (step_at options file.now 0)) × (said_stepped result.second ≡ brief_stepped (step_at options file.now (stands_after options file.now 1))) × (result.at ≡ stands_after options file.now 2) }
{
    let mut w = held::new(file, options);
    let first = held_steps::next(&mut w);
    let second = held_steps::next(&mut w);
    let at = held::at(w);
    Walked { first, second, at }
}

// The statement at an offset; the walker is moved there, and stays.
fn look_ahead(file: &[u8], options: Options, at: usize) -> Result<Option<Step>, Refusal>
    ensures { said_stepped result ≡ brief_stepped (step_at options file.now at) }
{
    held_steps::step(held::moved(held::new(file, options), at))
}

// The terms of the statement at an offset.
fn terms_at(
    file: &[u8],
    options: Options,
    at: usize,
    weights: &mut [i64],
    literals: &mut [u32],
) -> Result<usize, Refusal>
    ensures { FillsTerms (terms_at_step options file.now at weights.old literals.old) weights.old literals.old result weights.new literals.new }
{
    let w = held::moved(held::new(file, options), at);
    held_fills::fill(w, weights, literals)
}

// ---- what is written

fn show_line<W: Write>(output: &mut W, entry: Entry, next: usize) -> io::Result<()> {
    write!(output, "kind {} first {} ", entry.kind, entry.first)?;
    write!(output, "count {} bound {} ", entry.count, entry.bound)?;
    write!(output, "next {next}")
}

fn show_refusal<W: Write>(output: &mut W, refusal: Refusal) -> io::Result<()> {
    write!(output, "refused {} at {}", refusal.number, refusal.place)
}

fn show_step<W: Write>(output: &mut W, s: Result<Option<Step>, Refusal>) -> io::Result<()> {
    match s {
        Ok(Some(Step { entry, next })) => show_line(output, entry, next)?,
        Ok(None) => write!(output, "end")?,
        Err(refusal) => show_refusal(output, refusal)?,
    }
    write!(output, "\n")
}

fn show_terms<W: Write>(output: &mut W, filled: Result<usize, Refusal>) -> io::Result<()> {
    match filled {
        Err(refusal) => show_refusal(output, refusal),
        Ok(n) => write!(output, "terms {n}"),
    }
}

// ---- the files

// The statement at an offset, and its terms into columns of two that hold 7.
fn show_at<W: Write>(output: &mut W, file: &[u8], options: Options, at: usize) -> io::Result<()> {
    show_step(output, look_ahead(file, options, at))?;
    let mut weights = [7i64; 2];
    let mut literals = [7u32; 2];
    let filled = terms_at(file, options, at, &mut weights, &mut literals);
    show_terms(output, filled)?;
    write!(output, " {} {} ", weights[0], weights[1])?;
    write!(output, "{} {}\n", literals[0], literals[1])
}

// Where the next step is taken.
fn show_two<W: Write>(output: &mut W, file: &[u8], options: Options) -> io::Result<usize> {
    let seen = walk_two(file, options);
    show_step(output, seen.first)?;
    show_step(output, seen.second)?;
    write!(output, "stands at {}\n", seen.at)?;
    Ok(seen.at)
}

fn show_file<W: Write>(output: &mut W, file: &[u8], options: Options) -> io::Result<()> {
    let at = show_two(output, file, options)?;
    show_at(output, file, options, 0)?;
    show_at(output, file, options, at)?;
    show_at(output, file, options, file.len())
}

fn main(rt: HostRuntime) -> io::Result<()> {
    let mut output = rt.stdout();
    let options = Options { first: 1 };
    show_file(
        &mut output,
        b"* budget\nmin: 3 x1 -2 ~x2 ;\n+1 x1 +1 x2 >= 1 ;\n",
        options,
    )?;
    show_file(&mut output, b"2 x3 < 5;\n 1 x0 >= 1;\n", options)?;
    show_file(&mut output, b"1 x1 1 x2 1 x3 = -2;\n1 x1 >= 1", options)?;
    show_file(&mut output, b" \t", options)
}
