// A part of the program `vectors`: the columns of a case's line, each read into an array of as many entries or more.
// Assumes nothing.
#![tactic(auto)]

ghost use Rattle.std.specs.Prelude.{◌≤◌, length, IfSome};

use vectors_words::Words;

// Room for the entries of a column. One that has more is wrong.
pub const ROOM: usize = 512;

// Room for words of variables.
pub const WORDS: usize = 8;

// What a column may hold.
pub trait Entry: Copy {
    fn entry(words: &mut Words<'_>) -> Option<Self>;
}

impl Entry for u8 {
    fn entry(words: &mut Words<'_>) -> Option<u8> {
        Some(words.natural(255)? as u8)
    }
}

impl Entry for u32 {
    fn entry(words: &mut Words<'_>) -> Option<u32> {
        Some(words.natural(4_294_967_295)? as u32)
    }
}

impl Entry for u64 {
    fn entry(words: &mut Words<'_>) -> Option<u64> {
        words.natural(u64::MAX)
    }
}

impl Entry for usize {
    fn entry(words: &mut Words<'_>) -> Option<usize> {
        Some(words.natural(u64::MAX)? as usize)
    }
}

impl Entry for i64 {
    fn entry(words: &mut Words<'_>) -> Option<i64> {
        words.integer()
    }
}

// How many entries were filled.
pub fn column<T: Entry>(words: &mut Words<'_>, out: &mut [T]) -> Option<usize>
    ensures { IfSome result (λ count. count ≤ length out.new) }
{
    let count = words.natural(out.len() as u64)? as usize;
    for entry in &mut out[..count] {
        *entry = T::entry(words)?;
    }
    Some(count)
}
