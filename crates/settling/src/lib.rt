// The last walk over a block of signed numbers or `x` tokens (02, A1), which is known to be good: each literal becomes
// true. In any other block, those before the first 20, 21 or 5. Assumes nothing.
#![tactic(auto)]

ghost use Rattle.std.specs.Prelude.{◌≡◌, map};
ghost use Rattle.definitions.specs.Values.{front, items_from, valued, marked};
ghost use Rattle.settling.specs.Flat.{said_by, code_in};

use bits::make_true;
use tokens::next_token;

pub fn settle(block: &[u8], named: bool, values: &mut [u64], known: &mut [u64])
    ensures values { values.new ≡ valued (map code_in (said_by named (items_from front 0 block.now))) values.old }
    ensures known { known.new ≡ marked (map code_in (said_by named (items_from front 0 block.now))) known.old }
{
    let mut at: usize = 0;
    let mut opens = true;
    while let Ok(Some(said)) = next_token(block, at, opens, named) {
        if let Some(literal) = said.literal {
            make_true(literal, values, known);
        }
        at = said.end;
        opens = false;
    }
}
