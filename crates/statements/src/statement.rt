// One statement, walked: a comment, an objective or a constraint (01, "The text"). Each function answers what stands
// there, and leaves in the columns the terms that it met, as far as both have room. Assumes nothing.
ghost use Rattle.std.specs.Prelude.{◌≡◌};
ghost use Rattle.definitions.specs.Text.{constraint, goal, statement};
ghost use Rattle.sums.specs.Met.{met_terms};
ghost use Rattle.statements.specs.Brief.{brief_step};
ghost use Rattle.statements.specs.Met.{goal_met};
ghost use Rattle.statements.specs.Walked.{RowWalked, StatementWalked};
ghost use Rattle.statements.specs.Said.{said_statement};

use crate::row::Line;
use definitions::{Beginning, Entry, Fault, Options, Refusal};

fn constraint(
    s: &[u8],
    options: Options,
    weights: &mut [i64],
    literals: &mut [u32],
) -> Result<(Entry, usize), Fault>
    ensures { RowWalked (constraint options s.now) (met_terms options s.now) weights.old literals.old result weights.new literals.new }
{
    let sum = sums::weighted_lit_sum(s, options, weights, literals)?;
    let closed = closings::close_constraint(&s[sum.taken..], options, sum.terms, sum.size);
    crate::row::behind(sum.taken, closed)
}

fn objective(
    s: &[u8],
    options: Options,
    weights: &mut [i64],
    literals: &mut [u32],
) -> Result<(Entry, usize), Fault>
    ensures { RowWalked (goal options s.now) (goal_met options s.now) weights.old literals.old result weights.new literals.new }
{
    let Some(k) = beginnings::read_min(s) else {
        return Err(Fault { number: 2 });
    };
    let a = k + 4;
    let sum = sums::weighted_lit_sum(&s[a..], options, weights, literals)?;
    let e = a + sum.taken;
    let closed = closings::close_objective(&s[e..], options, sum.terms, sum.size);
    crate::row::behind(e, closed)
}

// "Blanks before a statement are skipped. At the end of the file that is a normal end." A step of the reader's own:
// what the text is refused for is its answer, and what it met before stands in the columns.
pub fn walk_statement(
    s: &[u8],
    options: Options,
    weights: &mut [i64],
    literals: &mut [u32],
) -> Result<Option<Line>, Refusal>
    ensures { StatementWalked options s.now weights.old literals.old result weights.new literals.new }
{
    let k = blanks::blanks_of(s);
    if s.len() <= k {
        return Ok(None);
    }
    match symbols::begins(symbols::class_of(s[k])) {
        Beginning::Comment => crate::row::comment_after(k, beginnings::read_comment(&s[k..])),
        Beginning::Objective => crate::row::row_after(
            k,
            objective(&s[k..], options, weights, literals),
        ),
        Beginning::Constraint => crate::row::row_after(
            k,
            constraint(&s[k..], options, weights, literals),
        ),
        Beginning::Nothing => Err(Refusal {
            number: 2,
            place: k as u64,
        }),
    }
}

// The statement alone: no columns are lent.
pub fn opb_data(s: &[u8], options: Options) -> Result<Option<Line>, Refusal>
    ensures { said_statement result ≡ brief_step (statement options s.now) }
{
    let mut weights = [0i64; 0];
    let mut literals = [0u32; 0];
    walk_statement(s, options, &mut weights, &mut literals)
}
