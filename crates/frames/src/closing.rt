// Ending, and comparison: operator, number, ending (01, "The text"). Assumes nothing.
ghost use Rattle.std.specs.Prelude.{◌≡◌};
ghost use Rattle.definitions.specs.Text.{closing, ending, comparison};
ghost use Rattle.frames.specs.Said.{said_ending, said_comparison};

use definitions::{Fault, OpbOperator};

// An operator, the number behind it, whether a `;` closes them, and the bytes of all with the ending.
#[derive(Clone, Copy, Debug, PartialEq, Eq)]
pub struct Comparison {
    pub operator: OpbOperator,
    pub number: i64,
    pub semicolon: bool,
    pub taken: usize,
}

// "`;` (then blanks and one line ending, if there), or a line ending, or file end"
fn read_closing(s: &[u8]) -> Option<(bool, usize)>
    ensures { said_ending result ≡ closing s.now }
{
    if s.len() == 0 {
        return Some((false, 0));
    }
    if s[0] == b';' {
        let k = blanks::blanks_of(&s[1..]);
        let a = k + 1;
        let n = blanks::line_ending_of(&s[a..]);
        return Some((true, a + n));
    }
    let n = blanks::line_ending_of(s);
    if n == 0 {
        return None;
    }
    Some((false, n))
}

// "blanks, then" the closing: whether a `;` stands in it, and the bytes of both; or none (7).
pub fn read_ending(s: &[u8]) -> Option<(bool, usize)>
    ensures { said_ending result ≡ ending s.now }
{
    let k = blanks::blanks_of(s);
    let (semicolon, n) = read_closing(&s[k..])?;
    Some((semicolon, k + n))
}

// "operator, blanks, number, ending"
pub fn read_comparison(s: &[u8]) -> Result<Comparison, Fault>
    ensures { said_comparison result ≡ comparison s.now }
{
    let (operator, n) = operators::read_operator(s).ok_or(Fault { number: 6 })?;
    let a = n + blanks::blanks_of(&s[n..]);
    let (number, m) = numbers::read_number(&s[a..]).ok_or(Fault { number: 3 })?;
    let b = a + m;
    let (semicolon, k) = read_ending(&s[b..]).ok_or(Fault { number: 7 })?;
    Ok(Comparison {
        operator,
        number,
        semicolon,
        taken: b + k,
    })
}
