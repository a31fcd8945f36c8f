// How long the fields of a term are. Assumes nothing.
ghost use Rattle.std.specs.Prelude.{◌≡◌, length};
ghost use Rattle.definitions.specs.Row.{term};
ghost use Rattle.house_lengths.specs.Words.{term_words};
ghost use Rattle.house_lengths.specs.Lengths.{said_term_length, term_length};

use literals::{FileNumber, Lit};

// Of a weight and a literal with its file number: the digits, two tabs, `x`, and `~` where it stands.
fn fields_length(w: i64, tilde: bool, n: FileNumber) -> usize
    ensures { result ≡ length (term_words w tilde n.0) }
{
    let digits = lengths::number_length(w) + lengths::count_length(n.number() as u64);
    if tilde { digits + 4 } else { digits + 3 }
}

// The length of a term's fields, where its variable has a file number; else none, "file number beyond u32": 5.
pub fn term_length(w: i64, l: Lit, first: u32) -> Option<usize>
    ensures { said_term_length result ≡ term_length first (term w l.0) }
{
    let n = FileNumber::of(l.var(), first)?;
    Some(fields_length(w, l.is_neg(), n))
}
