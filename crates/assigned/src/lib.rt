// What lent words assign (01, "Normalising and evaluating"): "variable v is bit v mod 64 of word v/64", all of them
// known or with a second row of words that says which variables are (02, A1). Whether variables have a value, and how
// many are known and true. Where there is no second row, everything that the words hold is known. Assumes nothing.
#![tactic(auto)]

ghost use Rattle.std.specs.Prelude.{◌≡◌, option_copied, option_map};
ghost use Rattle.assigned.specs.WordsSay.{looked, known_word, has_by, ones_by, codes_covered};

use definitions::WORD_LIMIT;
use literals::Lit;

// The bits of word i that are known: beyond the known words none.
fn known_word(known: Option<&[u64]>, i: usize) -> u64
    ensures { result ≡ known_word (option_copied known.entry) i }
{
    match known {
        None => u64::MAX,
        Some(known) => known.get(i).copied().unwrap_or(0),
    }
}

// Whether a variable has a bit that is known.
fn has_value(v: usize, words: &[u64], known: Option<&[u64]>) -> bool
    ensures { result ≡ has_by (option_copied known.entry) words.now v }
{
    if v / 64 >= words.len() {
        return false;
    }
    let bits = known_word(known, v / 64);
    (bits >> (v % 64)) % 2 == 1
}

// Whether every variable has a value; if not, "variable beyond the assignment" or unknown.
pub fn covered(literals: &[u32], words: &[u64], known: Option<&[u64]>) -> bool
    ensures { result ≡ codes_covered (has_by (option_copied known.entry) words.now) literals.now }
{
    literals.iter().all(|code| {
        let v = Lit::of_code(*code).var().index() as usize;
        has_value(v, words, known)
    })
}

// "The number of ones in the assignment's words", of those that are looked at and known.
pub fn ones_of(words: &[u64], known: Option<&[u64]>) -> u64
    ensures { result ≡ ones_by (option_map looked (option_copied known.entry)) (looked words.now) }
{
    let looked = &words[..words.len().min(WORD_LIMIT)];
    let mut ones: u64 = 0;
    for (i, word) in looked.iter().enumerate() {
        let bits = known_word(known, i);
        ones += u64::from((*word & bits).count_ones());
    }
    ones
}
