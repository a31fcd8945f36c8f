// A whole walk of steps: every statement is checked, rows and terms are counted. Nothing is kept but the offset and the
// counts. Assumes nothing.
#![tactic(auto)]

ghost use Rattle.std.specs.Prelude.{◌≡◌};
ghost use Rattle.definitions.specs.Answers.{said_counted};
ghost use Rattle.definitions.specs.Table.{counted};
ghost use Rattle.definitions.specs.File.{file};

use definitions::{Options, Refusal, Totals};
use walker::Step;

// "with the same answers": what is counted of the file as it is read at once, or its refusal of 1 to 8.
pub fn count_steps(s: &[u8], options: Options) -> Result<Totals, Refusal>
    ensures { said_counted result ≡ counted (file options s.now) }
{
    let mut rows: usize = 0;
    let mut terms: usize = 0;
    let mut at: usize = 0;
    while let Some(Step { entry, next }) = walker::step_at(s, options, at)? {
        rows += 1;
        terms += columns::terms_of(entry.kind, entry.count);
        at = next;
    }
    Ok(Totals { rows, terms })
}
