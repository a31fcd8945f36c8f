// How long a printed number is, where its digits stand, and lengths added up as needed numbers. Assumes nothing.
#![tactic(auto)]

ghost use Rattle.std.specs.Prelude.{◌≡◌, ◌+◌, length};
ghost use Rattle.definitions.specs.Number.{decimal, integer_text};
ghost use Rattle.definitions.specs.Refusal.{needed};
ghost use Rattle.lengths.specs.Places.{places_of};

// "A needed number above 18,446,744,073,709,551,615 is given as that one."
pub fn add_needed(number: u64, more: u64) -> u64
    ensures { result ≡ needed (number + more) }
{
    number.saturating_add(more)
}

// Where the hundreds, the tens and the ones of a number below 10,000 stand in its text, counted from its first digit. A
// digit that would be a zero in front has the place of the one behind it.
#[derive(Clone, Copy, Debug, PartialEq, Eq)]
pub struct Places {
    pub hundreds: usize,
    pub tens: usize,
    pub ones: usize,
}

// Found without a branch: how long the next number is can't be foreseen.
pub fn places_of(m: u32) -> Places
    ensures { result ≡ places_of m }
{
    let hundreds = (m >= 1_000) as usize;
    let tens = hundreds + (m >= 100) as usize;
    let ones = tens + (m >= 10) as usize;
    Places {
        hundreds,
        tens,
        ones,
    }
}

// How many powers of ten are at most m, found without a division. By `ilog10`, numbers of six digits took longer.
fn long_length(m: u64) -> usize
    ensures { result ≡ length (decimal m) }
{
    let mut n: usize = 1;
    let mut power: u64 = 10;
    while power <= m {
        n += 1;
        // The next power is beyond 64 bits.
        if n == 20 {
            return n;
        }
        power = power * 10;
    }
    n
}

pub fn count_length(m: u64) -> usize
    ensures { result ≡ length (decimal m) }
{
    if m >= 10_000 {
        return long_length(m);
    }
    let p = places_of(m as u32);
    p.ones + 1
}

pub fn number_length(z: i64) -> usize
    ensures { result ≡ length (integer_text z) }
{
    let n = count_length(z.unsigned_abs());
    if z < 0 { n + 1 } else { n }
}
