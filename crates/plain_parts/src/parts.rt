// Weight and literal, as they stand in a word of eight bytes: their digits in lanes, up to the first byte that may be a
// space. The byte there is looked at later. Assumes nothing.
ghost use Rattle.plain_parts.specs.InWord.{WeightIn, LiteralIn};

use crate::word::Lanes;

// Bytes in the lowest lanes of a word.
const NINE: u64 = 0x39;

const MINUS: u64 = 0x2d;

const X: u64 = 0x78;

const TILDE_X: u64 = 0x787e;

// Digits, `x` and `~` have the bit 4, a space has not. A weight has one byte at least, a literal two.
const WEIGHT_GAPS: u64 = 0x1010_1010_1010_1000;

const LITERAL_GAPS: u64 = 0x1010_1010_1010_0000;

// A weight: a `-` or none, and digits up to the gap.
pub(crate) fn weight_in(word: u64) -> Option<Lanes>
    ensures { WeightIn word result }
{
    // A sum's end is seen before any digit is looked for.
    if word & 0xff > NINE {
        return None;
    }
    let gap = crate::word::first_gap(word, WEIGHT_GAPS);
    if gap > 60 {
        return None;
    }
    let taken = (gap >> 3) as usize;
    if word & 0xff == MINUS {
        if gap < 16 {
            return None;
        }
        return crate::word::digits_in(word >> 8, gap - 12, true, taken);
    }
    crate::word::digits_in(word, gap - 4, false, taken)
}

// A literal: `x` or `~x`, and digits up to the gap.
pub(crate) fn literal_in(word: u64) -> Option<Lanes>
    ensures { LiteralIn word result }
{
    let gap = crate::word::first_gap(word, LITERAL_GAPS);
    if gap > 60 {
        return None;
    }
    let taken = (gap >> 3) as usize;
    if word & 0xff == X {
        return crate::word::digits_in(word >> 8, gap - 12, false, taken);
    }
    if word & 0xffff != TILDE_X {
        return None;
    }
    if gap < 24 {
        return None;
    }
    crate::word::digits_in(word >> 16, gap - 20, true, taken)
}
