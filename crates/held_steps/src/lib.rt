// The steps of a walker (crates/held): each function takes the struct apart and calls a function of the crate walker.
// Assumes nothing.
#![tactic(auto)]

ghost use Rattle.std.specs.Prelude.{◌≡◌};
ghost use Rattle.walker.specs.Said.{said_stepped, brief_stepped};
ghost use Rattle.held_steps.specs.WalkerSteps.{step_of, Nexts};

use definitions::Refusal;
use held::Walker;
use walker::Step;

// The next statement; the walker stays where it is.
pub fn step<'a>(w: Walker<'a>) -> Result<Option<Step>, Refusal>
    ensures { said_stepped result ≡ brief_stepped (step_of w.entry) }
{
    walker::step_at(w.file, w.options, w.at)
}

// "hands out one statement per call": the next statement, and the walker moves behind it.
pub fn next<'s, 'a>(w: &'s mut Walker<'a>) -> Result<Option<Step>, Refusal>
    ensures { Nexts w.old result w.new }
{
    let at = w.at;
    let stepped = walker::step_at(w.file, w.options, at);
    w.at = walker::offset_after(stepped, at);
    stepped
}
