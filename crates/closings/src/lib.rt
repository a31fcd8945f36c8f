// What closes a row behind its sum: a constraint's comparison, an objective's ending, and then 8 (01, "The text").
// specs/Closed.antt says what each answer is in 01's numbers and values. Assumes nothing.
#![tactic(auto)]

ghost use Rattle.std.specs.Prelude.{◌≡◌};
ghost use Rattle.definitions.specs.Text.{comparison, ending};
ghost use Rattle.closings.specs.Closed.{said_row, closed_by, ended_by};

use definitions::{Entry, Fault, OBJECTIVE, Options, WEIGHT_LIMIT};

// What closes a constraint behind a sum of so many terms, and of the size: its row, its terms counted and its first
// term still 0, with its bytes; 8 "after the ending of its statement".
pub fn close_constraint(
    s: &[u8],
    options: Options,
    terms: usize,
    size: u64,
) -> Result<(Entry, usize), Fault>
    ensures { said_row result ≡ closed_by options terms size (comparison s.now) }
{
    let comparison = frames::read_comparison(s)?;
    if size > WEIGHT_LIMIT {
        return Err(Fault { number: 8 });
    }
    let bound = operators::bound_of(comparison.operator, comparison.number).ok_or(Fault {
        number: 8,
    })?;
    let entry = Entry {
        kind: operators::kind_of(comparison.operator),
        first: 0,
        count: terms,
        bound,
    };
    Ok((entry, comparison.taken))
}

// The same for an objective, whose bound is 0.
pub fn close_objective(
    s: &[u8],
    options: Options,
    terms: usize,
    size: u64,
) -> Result<(Entry, usize), Fault>
    ensures { said_row result ≡ ended_by options terms size (ending s.now) }
{
    let (_, taken) = frames::read_ending(s).ok_or(Fault { number: 7 })?;
    if size > WEIGHT_LIMIT {
        return Err(Fault { number: 8 });
    }
    let entry = Entry {
        kind: OBJECTIVE,
        first: 0,
        count: terms,
        bound: 0,
    };
    Ok((entry, taken))
}
