// Text into a lent output: a number, a count or any bytes printed at a place. Assumes nothing.
#![tactic(auto)]

ghost use Rattle.std.specs.Prelude.{◌≡◌, ◌++◌, ◌+◌, ◌<◌, ◌≤◌, leb, length, take, drop};
ghost use Rattle.definitions.specs.Number.{decimal, integer_text};
ghost use Rattle.lengths.specs.Places.{places_of, four_digits};
ghost use Rattle.outputs.specs.Print.{Prints, signed_text, four_bytes};

use lengths::Places;

// Whether n bytes from `at` on lie in an output of `room` bytes; the sum may be beyond 64 bits.
fn has_room(n: usize, at: usize, room: usize) -> bool
    ensures { result ≡ leb (at + n) room }
{
    if at > room {
        return false;
    }
    n <= room - at
}

// The four digits of a number below 10,000 as bytes, the first one lowest: pairs of digits, then digits, two of each at
// once.
fn four_digits(m: u32) -> u32
    requires { m < 10_000 }
    ensures { result ≡ four_bytes m }
{
    let high = m / 100;
    let low = m - 100 * high;
    let pairs = high + 65_536 * low;
    let tens = (pairs * 103 / 1_024) & 0x000f_000f;
    let ones = pairs - 10 * tens;
    tens + 256 * ones + 0x3030_3030
}

// The four digits of m, zeros in front included.
// Stores one by one: with arrays of bytes that are copied, printing a number took two to three times as long.
fn put_four(m: u32, out: &mut [u8], at: usize)
    requires { (m < 10_000) × (at + 4 ≤ length out.old) }
    ensures { out.new ≡ take at out.old ++ (four_digits m ++ drop (at + 4) out.old) }
{
    let d = four_digits(m);
    out[at] = (d & 0xff) as u8;
    out[at + 1] = ((d >> 8) & 0xff) as u8;
    out[at + 2] = ((d >> 16) & 0xff) as u8;
    out[at + 3] = (d >> 24) as u8;
}

// The digits of a number below 10,000. A zero in front is written over by the digit behind it.
fn put_few(m: u32, p: Places, out: &mut [u8], at: usize)
    requires { (m < 10_000) × (p ≡ places_of m) × (at + length (decimal m) ≤ length out.old) }
    ensures { out.new ≡ take at out.old ++ (decimal m ++ drop (at + length (decimal m)) out.old) }
{
    let d = four_digits(m);
    out[at] = (d & 0xff) as u8;
    out[at + p.hundreds] = ((d >> 8) & 0xff) as u8;
    out[at + p.tens] = ((d >> 16) & 0xff) as u8;
    out[at + p.ones] = (d >> 24) as u8;
}

// The n digits of m, from `at` on, the last four first.
fn put_digits(m: u64, out: &mut [u8], at: usize, n: usize)
    requires { (n ≡ length (decimal m)) × (at + n ≤ length out.old) }
    ensures { out.new ≡ take at out.old ++ (decimal m ++ drop (at + n) out.old) }
{
    let mut x = m;
    let mut k = n;
    while x >= 10_000 {
        k -= 4;
        put_four((x % 10_000) as u32, out, at + k);
        x = x / 10_000;
    }
    let few = x as u32;
    put_few(few, lengths::places_of(few), out, at);
}

// A `-` or none, and then the digits of m.
fn print_long(negative: bool, m: u64, out: &mut [u8], at: usize) -> Option<usize>
    ensures { Prints (signed_text negative m) at out.old result out.new }
{
    let n = lengths::count_length(m);
    let k: usize = if negative { 1 } else { 0 };
    if !has_room(n + k, at, out.len()) {
        return None;
    }
    // Where there is no sign, the first digit takes its place.
    out[at] = b'-';
    put_digits(m, out, at + k, n);
    Some(at + k + n)
}

// The same for the numbers that most files have, with no loop and no branch but for the room.
fn print_few(negative: bool, m: u32, out: &mut [u8], at: usize) -> Option<usize>
    requires { m < 10_000 }
    ensures { Prints (signed_text negative m) at out.old result out.new }
{
    let p = lengths::places_of(m);
    let n = p.ones + 1;
    let k: usize = if negative { 1 } else { 0 };
    if !has_room(n + k, at, out.len()) {
        return None;
    }
    out[at] = b'-';
    put_few(m, p, out, at + k);
    Some(at + k + n)
}

pub fn print_count(m: u64, out: &mut [u8], at: usize) -> Option<usize>
    ensures { Prints (decimal m) at out.old result out.new }
{
    if m >= 10_000 {
        return print_long(false, m, out, at);
    }
    print_few(false, m as u32, out, at)
}

pub fn print_number(value: i64, out: &mut [u8], at: usize) -> Option<usize>
    ensures { Prints (integer_text value) at out.old result out.new }
{
    let negative = value < 0;
    let m = numbers::magnitude(value);
    if m >= 10_000 {
        return print_long(negative, m, out, at);
    }
    print_few(negative, m as u32, out, at)
}

pub fn print_text(text: &[u8], out: &mut [u8], at: usize) -> Option<usize>
    ensures { Prints text.now at out.old result out.new }
{
    let n = text.len();
    if !has_room(n, at, out.len()) {
        return None;
    }
    // A loop: by `copy_from_slice`, printing a short text took four times as long.
    let mut i: usize = 0;
    while i < n {
        out[at + i] = text[i];
        i += 1;
    }
    Some(at + n)
}
