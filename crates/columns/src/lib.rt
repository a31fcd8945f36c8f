// What is asked of rows in lent columns (01, "Numbers and tables"), by reader, normaliser, evaluator and writer alike:
// how many there is room for, which terms a row of a kind has, and whether they lie in their columns. Assumes nothing.
#![tactic(auto)]

ghost use Rattle.std.specs.Prelude.{◌≡◌, ◌+◌, min, leb, length};
ghost use Rattle.columns.specs.Kinds.{terms_of_kind, first_of_kind};

use definitions::COMMENT;

pub fn lesser(a: usize, b: usize) -> usize
    ensures { result ≡ min a b }
{
    if a < b { a } else { b }
}

// "Columns of unequal length have the room of the shortest."
pub fn row_room(kinds: &[u8], firsts: &[usize], counts: &[usize], bounds: &[i64]) -> usize
    ensures { result ≡ min (length kinds.now) (min (length firsts.now) (min (length counts.now) (length bounds.now))) }
{
    lesser(
        kinds.len(),
        lesser(firsts.len(), lesser(counts.len(), bounds.len())),
    )
}

pub fn term_room(weights: &[i64], literals: &[u32]) -> usize
    ensures { result ≡ min (length weights.now) (length literals.now) }
{
    lesser(weights.len(), literals.len())
}

// Whether `count` terms from `first` on lie in columns with room for `room`; the sum may be beyond 64 bits.
pub fn in_column(first: usize, count: usize, room: usize) -> bool
    ensures { result ≡ leb (first + count) room }
{
    if first > room {
        return false;
    }
    count <= room - first
}

// How many terms a row has. A comment's count is that of its bytes.
pub fn terms_of(kind: u8, count: usize) -> usize
    ensures { result ≡ terms_of_kind kind count }
{
    if kind == COMMENT { 0 } else { count }
}

// "Its first term (the count of terms before it)"; a comment's is its offset in the file.
pub fn first_of(kind: u8, offset: usize, term: usize) -> usize
    ensures { result ≡ first_of_kind kind offset term }
{
    if kind == COMMENT { offset } else { term }
}
