// Terms in their plain form, as solvers' files have them: a weight of up to seven bytes, a `-` or none and digits; one
// space; a literal of up to seven, `x` or `~x` and digits; one space, and no blank behind it. plain_parts reads weight
// and literal with their spaces. specs/Plain.antt says exactly which terms are plain; one of any other form is left to
// others. Assumes nothing.
#![tactic(auto)]

ghost use Rattle.std.specs.Prelude.{◌≡◌};
ghost use Rattle.plain.specs.Plain.{plain_at, said_plain};

use definitions::Options;

// A term whose weight has a sign and a size, and whose literal has the file number of its variable.
#[derive(Clone, Copy, Debug, PartialEq, Eq)]
pub struct PlainTerm {
    pub negative: bool,
    pub size: u64,
    pub negated: bool,
    pub number: u64,
}

// The term at the front of s, if it is plain, and the bytes that it takes. "Each reading step takes the rest of the
// file from where the last one stopped": the weight is read from s, the literal from what is left behind the weight's
// space. They and two spaces take 16 bytes at most. A file number above 0 is not below the first index 0 or 1; with
// another first index no term is plain.
pub fn plain_term(s: &[u8], options: Options) -> Option<(PlainTerm, usize)>
    ensures { said_plain result ≡ plain_at options s.now }
{
    if s.len() < 17 {
        return None;
    }
    if options.first > 1 {
        return None;
    }
    let weight = plain_parts::plain_weight(s)?;
    let literal = plain_parts::plain_literal(&s[weight.taken + 1..])?;
    let taken = weight.taken + literal.taken + 2;
    if s[taken] <= b' ' {
        return None;
    }
    let term = PlainTerm {
        negative: weight.negative,
        size: weight.size,
        negated: literal.negated,
        number: literal.number,
    };
    Some((term, taken))
}
