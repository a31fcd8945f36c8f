// What the number in the column of kinds says (01, "The lines written"): a comment, a row of some kind, or nothing that
// the writer knows. Assumes nothing.
ghost use Rattle.std.specs.Prelude.{◌≡◌};
ghost use Rattle.definitions.specs.Back.{is_goal};
ghost use Rattle.definitions.specs.Table.{sort_of};
ghost use Rattle.printed.specs.Kinds.{is_at_most, style_of, weighted_sort, cardinality_sort, sort_said};

use definitions::{Fault, Kind, Mode};
use shown::Style;

// A row that is no comment: its kind, whether every weight is 1, and its bound.
#[derive(Clone, Copy, Debug, PartialEq, Eq)]
pub struct Shape {
    pub kind: Kind,
    pub unit: bool,
    pub bound: i64,
}

pub(crate) fn is_at_most(kind: Kind) -> bool
    ensures { result ≡ is_at_most kind }
{
    kind == Kind::AtMost
}

pub(crate) fn is_objective(kind: Kind) -> bool
    ensures { result ≡ is_goal kind }
{
    kind == Kind::Objective
}

pub fn style_of(shape: Shape, mode: Mode) -> Style
    ensures { result ≡ style_of shape mode }
{
    Style {
        unit: shape.unit,
        flip: is_at_most(shape.kind),
        plain: mode.plain,
        apart: is_objective(shape.kind),
        first: mode.first,
    }
}

fn weighted(kind: Kind, bound: i64) -> Result<Option<Shape>, Fault>
    ensures { result ≡ weighted_sort kind bound }
{
    Ok(Some(Shape {
        kind,
        unit: false,
        bound,
    }))
}

// "a negative cardinality bound": 11
fn cardinality(kind: Kind, bound: i64) -> Result<Option<Shape>, Fault>
    ensures { result ≡ cardinality_sort kind bound }
{
    if bound < 0 {
        return Err(Fault { number: 11 });
    }
    Ok(Some(Shape {
        kind,
        unit: true,
        bound,
    }))
}

// None: a comment. "a clause's bound is taken as 1, its bound column is not looked at either"
#[tactic(auto, unfolding(definitions::specs::Table::sort_of))]
pub fn sort_of(kind: u8, bound: i64) -> Result<Option<Shape>, Fault>
    ensures { result ≡ sort_said (sort_of kind) bound }
{
    match kind {
        0 => Ok(None),
        1 => weighted(Kind::AtLeast, bound),
        2 => weighted(Kind::AtMost, bound),
        3 => weighted(Kind::Equal, bound),
        4 => weighted(Kind::Objective, bound),
        5 => cardinality(Kind::AtLeast, 1),
        6 => cardinality(Kind::AtLeast, bound),
        7 => cardinality(Kind::AtMost, bound),
        8 => cardinality(Kind::Equal, bound),
        _ => Err(Fault { number: 11 }),
    }
}
