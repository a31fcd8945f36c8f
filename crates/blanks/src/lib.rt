// Blanks and line endings at the front of a rest of the file (01, "The text"). Assumes nothing.
#![tactic(auto)]

ghost use Rattle.std.specs.Prelude.{◌≡◌, length};
ghost use Rattle.blanks.specs.FirstLf.{IsFirstLf};
ghost use Rattle.definitions.specs.Bytes.{blanks, line_ending, until_ending};

use std::simd::prelude::*;

const LF: u8 = b'\n';

// So many bytes are looked at together.
const GROUP: usize = 16;

// How many blanks stand at the front.
pub fn blanks_of(s: &[u8]) -> usize
    ensures { result ≡ blanks s.now }
{
    for (i, b) in s.iter().enumerate() {
        if *b != b' ' && *b != b'\t' {
            return i;
        }
    }
    s.len()
}

// How many bytes a line ending at the front has, 0 where none stands there.
#[tactic(auto, using(crate::proofs::Endings::by_bytes))]
pub fn line_ending_of(s: &[u8]) -> usize
    ensures { result ≡ line_ending s.now }
{
    match s {
        [b'\n', ..] => 1,
        [b'\r', b'\n', ..] => 2,
        _ => 0,
    }
}

// The place of the first LF, or the length, byte by byte.
fn lf_by_bytes(s: &[u8]) -> usize
    ensures { IsFirstLf s.now result }
{
    for (i, b) in s.iter().enumerate() {
        if *b == LF {
            return i;
        }
    }
    s.len()
}

// The same of one group, by one comparison of all its bytes: the lowest mark is the first LF's.
fn lf_in_group(group: &[u8]) -> usize
    requires { length group.now ≡ 16 }
    ensures { IsFirstLf group.now result }
{
    let found = u8x16::from_slice(group)
        .simd_eq(u8x16::splat(LF))
        .to_bitmask();
    if found == 0 {
        return GROUP;
    }
    found.trailing_zeros() as usize
}

// The same, by groups as long as there are any, so that neither a long line nor where the loop lies costs much.
fn first_lf(s: &[u8]) -> usize
    ensures { IsFirstLf s.now result }
{
    let mut passed = 0;
    for group in s.chunks_exact(GROUP) {
        let n = lf_in_group(group);
        if n < GROUP {
            return passed + n;
        }
        passed += GROUP;
    }
    passed + lf_by_bytes(&s[passed..])
}

// How many bytes stand before the first line ending, or all. Looked for is LF alone, and then the one byte before it that
// may belong to it.
pub fn until_ending_of(s: &[u8]) -> usize
    ensures { result ≡ until_ending s.now }
{
    let i = first_lf(s);
    if 0 < i && i < s.len() && s[i - 1] == b'\r' {
        return i - 1;
    }
    i
}
