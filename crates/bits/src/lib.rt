// Bits of lent words: "variable v is bit v mod 64 of word v/64" (01); and by them what two rows of words, the values
// and which of them are known, say of a literal (02, A1). A bit beyond the words is 0, and making it changes nothing.
// Assumes nothing.
#![tactic(auto)]

ghost use Rattle.std.specs.Prelude.{◌≡◌, not, ◌&&◌, [], ◌∷◌, ◌<◌};
ghost use Rattle.definitions.specs.Literal.{index_of};
ghost use Rattle.definitions.specs.Meaning.{is_true, assigned, is_known};
ghost use Rattle.definitions.specs.Values.{word_with, bit_made, valued, marked};

use literals::Lit;

pub fn bit_at(words: &[u64], index: usize) -> bool
    ensures { result ≡ assigned words.now index }
{
    if index / 64 >= words.len() {
        return false;
    }
    let word = words[index / 64];
    (word >> (index % 64)) % 2 == 1
}

// The word with bit k made: its power of two is added or taken away where the bit is not yet as it should be.
fn word_with(one: bool, k: usize, word: u64) -> u64
    requires { k < 64 }
    ensures { result ≡ word_with one k word }
{
    let power = 1u64 << k;
    if (word >> k) % 2 == 1 {
        if one { word } else { word - power }
    } else if one {
        word + power
    } else {
        word
    }
}

pub fn make_bit(words: &mut [u64], index: usize, one: bool)
    ensures { words.new ≡ bit_made one index words.old }
{
    let place = index / 64;
    if place >= words.len() {
        return;
    }
    let word = words[place];
    words[place] = word_with(one, index % 64, word);
}

// Whether the literal's variable is known with another value.
pub fn is_otherwise(literal: Lit, values: &[u64], known: &[u64]) -> bool
    ensures { result ≡ (is_known values.now known.now (index_of literal.0) && not (is_true (assigned values.now) literal.0)) }
{
    let v = literal.var().index() as usize;
    if v / 64 >= values.len() {
        return false;
    }
    if !bit_at(known, v) {
        return false;
    }
    bit_at(values, v) == literal.is_neg()
}

// The literal becomes true: its variable has that value, and is known.
pub fn make_true(literal: Lit, values: &mut [u64], known: &mut [u64])
    ensures values { values.new ≡ valued (literal.0 ∷ []) values.old }
    ensures known { known.new ≡ marked (literal.0 ∷ []) known.old }
{
    let v = literal.var().index() as usize;
    make_bit(values, v, literal.is_pos());
    make_bit(known, v, true);
}
