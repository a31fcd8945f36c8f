// What is answered of a statement, and a row's or a comment's answer from further on (01, "The text"). Assumes nothing.
ghost use Rattle.std.specs.Prelude.{◌≡◌};
ghost use Rattle.definitions.specs.Reader.{more};
ghost use Rattle.closings.specs.Closed.{said_row};
ghost use Rattle.statements.specs.Brief.{row_after, comment_after};
ghost use Rattle.statements.specs.Fitting.{Fitting, CommentFitting};
ghost use Rattle.beginnings.specs.Said.{said_comment};
ghost use Rattle.statements.specs.Said.{said_statement};

use beginnings::Comment;
use definitions::{COMMENT, Entry, Fault, Refusal};

// A row of the table, with the bytes that its statement takes. A comment's first is counted from where the reading
// began, as a refusal's place is; a comment has no terms.
#[derive(Clone, Copy, Debug, PartialEq, Eq)]
pub struct Line {
    pub entry: Entry,
    pub taken: usize,
}

// A row's answer, behind a sum of n bytes.
pub(crate) fn behind(n: usize, r: Result<(Entry, usize), Fault>) -> Result<(Entry, usize), Fault>
    requires { Fitting n (said_row r) }
    ensures { said_row result ≡ more n (said_row r) }
{
    let (entry, taken) = r?;
    Ok((entry, n + taken))
}

// A row's answer, k blanks on.
pub(crate) fn row_after(k: usize, r: Result<(Entry, usize), Fault>) -> Result<Option<Line>, Refusal>
    requires { Fitting k (said_row r) }
    ensures { said_statement result ≡ row_after k (said_row r) }
{
    match r {
        Err(e) => Err(Refusal {
            number: e.number,
            place: k as u64,
        }),
        Ok((entry, taken)) => Ok(Some(Line {
            entry,
            taken: k + taken,
        })),
    }
}

pub(crate) fn comment_after(k: usize, r: Option<Comment>) -> Result<Option<Line>, Refusal>
    requires { CommentFitting k r }
    ensures { said_statement result ≡ comment_after k (said_comment r) }
{
    match r {
        None => Err(Refusal {
            number: 2,
            place: k as u64,
        }),
        Some(comment) => Ok(Some(Line {
            entry: Entry {
                kind: COMMENT,
                first: k + comment.first,
                count: comment.count,
                bound: 0,
            },
            taken: k + comment.taken,
        })),
    }
}
