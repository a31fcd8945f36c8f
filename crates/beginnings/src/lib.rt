// The beginnings of a statement that are a word: `min:` of an objective, and the whole of a comment (01, "The text").
// specs/Said.antt says what each answer is in 01's numbers and values. Assumes nothing.
#![tactic(auto)]

ghost use Rattle.std.specs.Prelude.{◌≡◌};
ghost use Rattle.definitions.specs.Text.{min_blanks, remark};
ghost use Rattle.beginnings.specs.Said.{said_min, said_comment};

// Where a comment's text begins, counted from its `*`, how long it is, and the bytes that the comment takes with its
// line ending.
#[derive(Clone, Copy, Debug, PartialEq, Eq)]
pub struct Comment {
    pub first: usize,
    pub count: usize,
    pub taken: usize,
}

// How many blanks stand behind `min:`, or another word (2).
pub fn read_min(s: &[u8]) -> Option<usize>
    ensures { said_min result ≡ min_blanks s.now }
{
    let rest = s.strip_prefix(b"min:")?;
    Some(blanks::blanks_of(rest))
}

// "`*`: comment to the line ending or file end, any bytes"; the text begins "after `*` and after one space directly
// behind it, if there"
pub fn read_comment(s: &[u8]) -> Option<Comment>
    ensures { said_comment result ≡ remark s.now }
{
    if s.len() == 0 {
        return None;
    }
    let n = blanks::until_ending_of(&s[1..]);
    let e = n + 1;
    let taken = e + blanks::line_ending_of(&s[e..]);
    if 0 < n && s[1] == b' ' {
        return Some(Comment {
            first: 2,
            count: n - 1,
            taken,
        });
    }
    Some(Comment {
        first: 1,
        count: n,
        taken,
    })
}
