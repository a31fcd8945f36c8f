// What one token says (02, A1): signed numbers and `x` tokens, with first index 1. Assumes nothing.
ghost use Rattle.std.specs.Prelude.{◌≡◌};
ghost use Rattle.definitions.specs.Table.{and_then};
ghost use Rattle.definitions.specs.Values.{whole_number, literal_for, signed_for, signed_token, named_variable, x_token};
ghost use Rattle.tokens.specs.Said.{said_whole, capped, said_token, token_says};

use literals::{FileNumber, Lit, Var};
use numbers::read_run;

// "first index 1"
const FIRST: u32 = 1;

// "21 bad token", or 5.
#[derive(Clone, Copy, Debug, PartialEq, Eq)]
pub(crate) enum TokenFault {
    Bad,
    Beyond,
}

// Digits and nothing else: their value, up to the cap of `numbers`.
fn whole_number(s: &[u8]) -> Option<u64>
    ensures { said_whole result ≡ capped (whole_number s.now) }
{
    let run = read_run(s);
    if run.count == 0 || run.count < s.len() {
        return None;
    }
    Some(run.size)
}

// The literal of the variable with that number: a file number, then a variable, then its literal; 5 where one of them
// is not there.
fn literal_for(negative: bool, size: u64) -> Result<Option<Lit>, TokenFault>
    ensures { said_token result ≡ literal_for negative size }
{
    let number = FileNumber::of_digits(size).ok_or(TokenFault::Beyond)?;
    let variable = Var::of_file(number, FIRST).ok_or(TokenFault::Beyond)?;
    let literal = variable.lit(negative).ok_or(TokenFault::Beyond)?;
    Ok(Some(literal))
}

// The digits behind a sign, or behind none. The 0 that ends signed numbers sets nothing.
fn signed_for(negative: bool, digits: &[u8]) -> Result<Option<Lit>, TokenFault>
    ensures { said_token result ≡ and_then (whole_number digits.now) (signed_for negative) }
{
    match whole_number(digits) {
        None => Err(TokenFault::Bad),
        Some(0) => Ok(None),
        Some(size) => literal_for(negative, size),
    }
}

// "signed numbers": optional `+` or `-`, digits.
fn signed_token(s: &[u8]) -> Result<Option<Lit>, TokenFault>
    ensures { said_token result ≡ signed_token s.now }
{
    match s {
        [b'-', digits @ ..] => signed_for(true, digits),
        [b'+', digits @ ..] => signed_for(false, digits),
        _ => signed_for(false, s),
    }
}

// `x` and digits, and nothing behind them.
fn named_variable(negative: bool, s: &[u8]) -> Result<Option<Lit>, TokenFault>
    ensures { said_token result ≡ named_variable negative s.now }
{
    let [b'x', digits @ ..] = s else {
        return Err(TokenFault::Bad);
    };
    match whole_number(digits) {
        None => Err(TokenFault::Bad),
        Some(size) => literal_for(negative, size),
    }
}

// "`x` tokens": optional `~` or `-`, `x`, digits.
fn x_token(s: &[u8]) -> Result<Option<Lit>, TokenFault>
    ensures { said_token result ≡ x_token s.now }
{
    match s {
        [b'~' | b'-', variable @ ..] => named_variable(true, variable),
        _ => named_variable(false, s),
    }
}

// A token of a block whose variables have an `x`, or not.
pub(crate) fn token_says(named: bool, s: &[u8]) -> Result<Option<Lit>, TokenFault>
    ensures { said_token result ≡ token_says named s.now }
{
    if named { x_token(s) } else { signed_token(s) }
}
