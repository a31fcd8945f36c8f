// The terms of the statement that a walker (crates/held) comes to next, into lent columns: the struct is taken apart
// and `fills::fill_at` called. Assumes nothing.
#![tactic(auto)]

ghost use Rattle.definitions.specs.Stepping.{terms_at_step};
ghost use Rattle.fills.specs.FillsTerms.{FillsTerms};

use definitions::Refusal;
use held::Walker;

// The terms of the next statement; the walker stays where it is.
pub fn fill<'a>(w: Walker<'a>, weights: &mut [i64], literals: &mut [u32]) -> Result<usize, Refusal>
    ensures { FillsTerms (terms_at_step w.entry.options w.entry.file.now w.entry.at weights.old literals.old) weights.old literals.old result weights.new literals.new }
{
    fills::fill_at(w.file, w.options, w.at, weights, literals)
}
