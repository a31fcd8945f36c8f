// Terms: "number, one or more blanks, optional `~` or `-` (negation), `x`, digits, blanks" (01, "The text"). Assumes
// nothing.
ghost use Rattle.std.specs.Prelude.{◌≡◌};
ghost use Rattle.definitions.specs.Text.{after_weight, weighted, term_step};
ghost use Rattle.pieces.specs.Said.{said_term, said_next};

use definitions::{Beginning, Fault, Options};
use literals::Lit;

// "number missing, sign alone, or beyond 64 bits"
const NO_NUMBER: Fault = Fault { number: 3 };

// "no blank after a weight"
const NO_BLANK: Fault = Fault { number: 4 };

// A term and the bytes that it takes.
#[derive(Clone, Copy, Debug, PartialEq, Eq)]
pub struct Term {
    pub weight: i64,
    pub literal: Lit,
    pub taken: usize,
}

// What follows a weight: blanks, literal, blanks.
fn read_weighted(s: &[u8], options: Options, weight: i64) -> Result<Term, Fault>
    ensures { said_term result ≡ after_weight options weight s.now }
{
    let k = blanks::blanks_of(s);
    if k == 0 {
        return Err(NO_BLANK);
    }
    let (literal, n) = literal_read::read_literal(&s[k..], options)?;
    let a = k + n;
    let j = blanks::blanks_of(&s[a..]);
    Ok(Term {
        weight,
        literal,
        taken: a + j,
    })
}

pub fn read_term(s: &[u8], options: Options) -> Result<Term, Fault>
    ensures { said_term result ≡ weighted options s.now }
{
    let (weight, n) = numbers::read_number(s).ok_or(NO_NUMBER)?;
    let term = read_weighted(&s[n..], options, weight)?;
    Ok(Term {
        taken: n + term.taken,
        ..term
    })
}

// "A digit or sign after a term begins another." Where neither stands, the sum stops: `None`.
#[tactic(auto, using(crate::proofs::Terms::by_next))]
pub fn next_term(s: &[u8], options: Options) -> Result<Option<Term>, Fault>
    ensures { said_next result ≡ term_step options s.now }
{
    if s.len() == 0 {
        return Ok(None);
    }
    let Beginning::Constraint = symbols::beginning_of(s[0]) else {
        return Ok(None);
    };
    Ok(Some(read_term(s, options)?))
}
