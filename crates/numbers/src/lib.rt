// Integers read: a number, or the digits alone, at the front of a part of a file, and a number's size. Assumes nothing.
#![tactic(auto)]

ghost use Rattle.std.specs.Prelude.{◌≡◌, ◌+◌, ◌<◌, ◌^◌, length, nat_abs, FitsSigned, SomeIff};
ghost use Rattle.std.specs.Int.{w64};
ghost use Rattle.definitions.specs.Number.{leading, signed, ended, number};
ghost use Rattle.numbers.specs.Read.{said, run_of};

// The digits at the front of a part: how many, and their value up to a cap.
#[derive(Clone, Copy, Debug, PartialEq, Eq)]
pub struct Run {
    pub count: usize,
    pub size: u64,
}

// The cap of specs/Read.antt: one more than signed 64 bits hold at either sign.
const CAP: u64 = 9_223_372_036_854_775_809;

pub fn read_run(s: &[u8]) -> Run
    ensures { result ≡ run_of s.now }
{
    let mut size: u64 = 0;
    for (i, b) in s.iter().enumerate() {
        match b {
            b'0'..=b'9' => {
                // Ten times as much and a digit is at most the cap.
                if size <= CAP / 10 {
                    size = size * 10 + (b - b'0') as u64;
                } else {
                    size = CAP;
                }
            }
            _ => return Run { count: i, size },
        }
    }
    Run {
        count: s.len(),
        size,
    }
}

// The number of a sign and a size, if it is within 64 bits.
fn signed_of(negative: bool, size: u64) -> Option<i64>
    ensures { SomeIff result (FitsSigned w64 (signed negative size)) (signed negative size) }
{
    if negative {
        0_i64.checked_sub_unsigned(size)
    } else {
        0_i64.checked_add_unsigned(size)
    }
}

// A sign of k bytes, and behind it the digits at the front of s.
fn read_signed(negative: bool, k: usize, s: &[u8]) -> Option<(i64, usize)>
    requires { k + length s.now < 2 ^ 64 }
    ensures { said result ≡ ended negative k (leading s.now) }
{
    let run = read_run(s);
    if run.count == 0 {
        return None;
    }
    let number = signed_of(negative, run.size)?;
    Some((number, k + run.count))
}

// A number at the front of s and the bytes that it takes, or none (3).
pub fn read_number(s: &[u8]) -> Option<(i64, usize)>
    ensures { said result ≡ number s.now }
{
    match s.first()? {
        b'+' => read_signed(false, 1, &s[1..]),
        b'-' => read_signed(true, 1, &s[1..]),
        _ => read_signed(false, 0, s),
    }
}

// The size of z.
pub fn magnitude(z: i64) -> u64
    ensures { result ≡ nat_abs z }
{
    z.unsigned_abs()
}
