// Eight bytes at once. A word holds eight bytes, the first in its lowest lane of eight bits; digits in its lanes are
// tested and made a number together, without a branch for each. Assumes nothing.
ghost use Rattle.std.specs.Prelude.{◌≡◌, ◌≤◌, length, take};
ghost use Rattle.plain_parts.specs.Lanes.{lanes, Loaded, lane_value, digit_lanes, InLanes, FirstGap, DigitsSay};

// `0` in every lane
const ZEROS: u64 = 0x3030_3030_3030_3030;

// The highest bit of every lane.
const TOPS: u64 = 0x8080_8080_8080_8080;

// Ten more than a digit has the highest bit of its lane.
const ABOVE_NINE: u64 = 0x7676_7676_7676_7676;

const LOWER_BYTES: u64 = 0x00ff_00ff_00ff_00ff;

const LOWER_PAIRS: u64 = 0x0000_ffff_0000_ffff;

const LOWER_HALF: u64 = 0xffff_ffff;

// A part of a term: whether it is marked by a `-` or a `~`, its digits in the highest lanes, below which all are 0, and
// the bytes that it takes.
#[derive(Clone, Copy, Debug, PartialEq, Eq)]
pub struct Lanes {
    pub marked: bool,
    pub digits: u64,
    pub taken: usize,
}

// The four bytes at the front. By hand: `from_le_bytes` takes an array, which a slice becomes only by a conversion that
// may fail.
fn first_half(s: &[u8]) -> u64
    requires { 4 ≤ length s.now }
    ensures { Loaded s.now 4 result }
{
    s[0] as u64 | (s[1] as u64) << 8 | (s[2] as u64) << 16 | (s[3] as u64) << 24
}

// The eight bytes at the front.
pub(crate) fn first_word(s: &[u8]) -> u64
    requires { 8 ≤ length s.now }
    ensures { lanes 8 result ≡ take 8 s.now }
{
    first_half(s) | first_half(&s[4..]) << 32
}

// The number whose digits stand in the lanes: pairs of digits, then fours, then all eight.
pub(crate) fn lane_value(y: u64) -> u64
    ensures { result ≡ lane_value y }
{
    let pairs = (y & LOWER_BYTES) * 10 + ((y >> 8) & LOWER_BYTES);
    let fours = (pairs & LOWER_PAIRS) * 100 + ((pairs >> 16) & LOWER_PAIRS);
    (fours & LOWER_HALF) * 10_000 + (fours >> 32)
}

// Whether every lane is from 0 to 9. No sum of a lane goes beyond it once no lane has its highest bit.
fn are_digits(y: u64) -> bool
    ensures { result ≡ digit_lanes y }
{
    if y & TOPS != 0 {
        return false;
    }
    (y + ABOVE_NINE) & TOPS == 0
}

// A part whose digits are the bytes in the lowest `bits` bits of a word, if these are digits.
pub(crate) fn digits_in(word: u64, bits: u32, marked: bool, taken: usize) -> Option<Lanes>
    requires { InLanes bits }
    ensures { DigitsSay word bits marked taken result }
{
    let digits = (word ^ ZEROS) << (64 - bits);
    if are_digits(digits) {
        Some(Lanes {
            marked,
            digits,
            taken,
        })
    } else {
        None
    }
}

// Where the first of the marked bits stands that the word has not; 64 for none.
pub(crate) fn first_gap(word: u64, marks: u64) -> u32
    ensures { FirstGap word marks result }
{
    u64::trailing_zeros(!word & marks)
}
