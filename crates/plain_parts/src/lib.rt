// The two parts of a plain term, weight and literal, each read by eight bytes at once from the rest of the file where
// it begins, with the space behind it. specs/PartForms.antt says exactly what a part is; a text of any other form, or
// with fewer than eight bytes left, is left to others. Assumes nothing.
#![tactic(auto)]

mod parts;
mod word;

ghost use Rattle.std.specs.Prelude.{◌≡◌};
ghost use Rattle.plain_parts.specs.PartForms.{weight_at, literal_at, said_weight, said_literal};

// A weight, by its sign and its size, and the bytes that it takes without the space behind it.
#[derive(Clone, Copy, Debug, PartialEq, Eq)]
pub struct PlainWeight {
    pub negative: bool,
    pub size: u64,
    pub taken: usize,
}

// A literal, by the file number of its variable, and the bytes that it takes without the space behind it.
#[derive(Clone, Copy, Debug, PartialEq, Eq)]
pub struct PlainLiteral {
    pub negated: bool,
    pub number: u64,
    pub taken: usize,
}

// The weight at the front of s: a `-` or none, digits, and a space behind them.
pub fn plain_weight(s: &[u8]) -> Option<PlainWeight>
    ensures { said_weight result ≡ weight_at s.now }
{
    if s.len() < 8 {
        return None;
    }
    let lanes = crate::parts::weight_in(crate::word::first_word(s))?;
    if s[lanes.taken] != b' ' {
        return None;
    }
    Some(PlainWeight {
        negative: lanes.marked,
        size: crate::word::lane_value(lanes.digits),
        taken: lanes.taken,
    })
}

// The literal at the front of s: `x` or `~x`, digits that are not all 0, and a space behind them.
pub fn plain_literal(s: &[u8]) -> Option<PlainLiteral>
    ensures { said_literal result ≡ literal_at s.now }
{
    if s.len() < 8 {
        return None;
    }
    let lanes = crate::parts::literal_in(crate::word::first_word(s))?;
    if s[lanes.taken] != b' ' {
        return None;
    }
    if lanes.digits == 0 {
        return None;
    }
    Some(PlainLiteral {
        negated: lanes.marked,
        number: crate::word::lane_value(lanes.digits),
        taken: lanes.taken,
    })
}
