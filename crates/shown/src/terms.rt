// A term as it is printed: its weight, its literal, and whether the bound falls by it. Assumes nothing.
ghost use Rattle.std.specs.Prelude.{◌≡◌};
ghost use Rattle.definitions.specs.Literal.{negated};
ghost use Rattle.definitions.specs.Row.{term};
ghost use Rattle.shown.specs.Terms.{flipped_code, own_weight, own_term, Shows};

use literals::{Lit, Var};

// How the terms of a row are written.
#[derive(Clone, Copy, Debug, PartialEq, Eq)]
pub struct Style {
    // "Clause and cardinality rows have every weight 1, the weight column is not looked at."
    pub unit: bool,
    // "An 'at most' row is written with each literal negated."
    pub flip: bool,
    // No-negated mode.
    pub plain: bool,
    // A space before each term, as in an objective, and not behind it.
    pub apart: bool,
    pub first: u32,
}

// A term as it is printed: its weight in the row, the weight that is printed, whether `~` stands before the variable,
// and the variable; and whether the bound falls by the weight.
#[derive(Clone, Copy, Debug, PartialEq, Eq)]
pub struct Shown {
    pub own: i64,
    pub weight: i64,
    pub tilde: bool,
    pub var: Var,
    pub falls: bool,
}

fn own_weight(unit: bool, w: i64) -> i64
    ensures { result ≡ own_weight unit w }
{
    if unit { 1 } else { w }
}

fn is_negated(flip: bool, l: Lit) -> bool
    ensures { result ≡ negated (flipped_code flip l.0) }
{
    if flip {
        return l.negated().is_neg();
    }
    l.is_neg()
}

// "In no-negated mode a negated literal of weight w is written -w on the plain variable." No row with a weight below 0
// is written: such a term is shown by its weight and its variable alone.
pub fn show_term(style: Style, weight: i64, code: u32) -> Shown
    ensures { Shows style (own_term style.unit (term weight code)) result }
{
    let own = own_weight(style.unit, weight);
    let l = Lit::of_code(code);
    let plain = Shown {
        own,
        weight: own,
        tilde: false,
        var: l.var(),
        falls: false,
    };
    if own < 0 || !is_negated(style.flip, l) {
        return plain;
    }
    if style.plain {
        return Shown {
            weight: -own,
            falls: true,
            ..plain
        };
    }
    Shown {
        tilde: true,
        ..plain
    }
}
