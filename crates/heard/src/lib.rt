// A block of signed numbers or `x` tokens (02, A1): what is heard in it. Two walks: one finds the first 20, 21 or 5 and
// the length, one the first conflict before it. Assumes nothing.
#![tactic(auto)]

mod conflicts;
mod survey;

ghost use Rattle.std.specs.Prelude.{◌≡◌, []};
ghost use Rattle.definitions.specs.Answers.{said_length};
ghost use Rattle.definitions.specs.Values.{front, items_from, hear, new_length};
ghost use Rattle.tokens.specs.Said.{form_by};

use definitions::Refusal;

// "per line 20, then by token 21, 5, 22, each placed at its first byte"; or the length, one past the highest variable
// met.
pub fn hear(
    block: &[u8],
    named: bool,
    kept: u64,
    values: &[u64],
    known: &[u64],
) -> Result<usize, Refusal>
    ensures { said_length result ≡ new_length kept (hear (form_by named) kept values.now known.now [] (items_from front 0 block.now)) }
{
    let surveyed = survey::survey(block, named, kept);
    let end = match surveyed {
        Ok(_) => block.len(),
        Err(stop) => stop.place as usize,
    };
    if let Some(conflict) = conflicts::first_conflict(block, named, end, values, known) {
        return Err(Refusal {
            number: 22,
            place: conflict as u64,
        });
    }
    surveyed
}
