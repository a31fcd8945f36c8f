// A literal, read at the front of a rest of the file: "optional `~` or `-` (negation), `x`, digits" (01, "The text").
// specs/Said.antt says what each answer is in 01's numbers and values. Assumes nothing.
#![tactic(auto)]

ghost use Rattle.std.specs.Prelude.{◌≡◌};
ghost use Rattle.definitions.specs.Text.{digits, variable, literal};
ghost use Rattle.literal_read.specs.Said.{said_literal};

use definitions::{Fault, Options};
use literals::Lit;

// "no literal there"
const NO_LITERAL: Fault = Fault { number: 4 };

// "file number beyond u32, below the first index, or index above its limit"
const OUT_OF_RANGE: Fault = Fault { number: 5 };

// The digits of a file number.
fn read_digits(s: &[u8], options: Options, negated: bool) -> Result<(Lit, usize), Fault>
    ensures { said_literal result ≡ digits options negated s.now }
{
    let run = numbers::read_run(s);
    if run.count == 0 {
        return Err(NO_LITERAL);
    }
    let literal = Lit::of_digits(run.size, options.first, negated).ok_or(OUT_OF_RANGE)?;
    Ok((literal, run.count))
}

// An `x` and the digits behind it.
fn read_variable(s: &[u8], options: Options, negated: bool) -> Result<(Lit, usize), Fault>
    ensures { said_literal result ≡ variable options negated s.now }
{
    let [b'x', rest @ ..] = s else {
        return Err(NO_LITERAL);
    };
    let (literal, count) = read_digits(rest, options, negated)?;
    Ok((literal, 1 + count))
}

// A literal at the front and the bytes that it takes.
pub fn read_literal(s: &[u8], options: Options) -> Result<(Lit, usize), Fault>
    ensures { said_literal result ≡ literal options s.now }
{
    let [b'~' | b'-', rest @ ..] = s else {
        return read_variable(s, options, false);
    };
    let (literal, count) = read_variable(rest, options, true)?;
    Ok((literal, 1 + count))
}
