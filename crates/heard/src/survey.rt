// The first walk over a block of signed numbers or `x` tokens: the first 20, 21 or 5, or the length that all of it asks
// for. Assumes nothing.
ghost use Rattle.std.specs.Prelude.{◌≡◌, ◌+◌, max};
ghost use Rattle.definitions.specs.Literal.{index_of};
ghost use Rattle.definitions.specs.Values.{front, items_from};
ghost use Rattle.heard.specs.Surveys.{survey_of};

use definitions::Refusal;
use literals::Lit;
use tokens::next_token;

// "the length, one past the highest variable met"
fn past(length: u64, literal: Lit) -> u64
    ensures { result ≡ max length (index_of literal.0 + 1) }
{
    length.max(literal.var().index() as u64 + 1)
}

pub(crate) fn survey(block: &[u8], named: bool, kept: u64) -> Result<usize, Refusal>
    ensures { result ≡ survey_of named kept (items_from front 0 block.now) }
{
    let mut at: usize = 0;
    let mut opens = true;
    let mut length = kept;
    while let Some(said) = next_token(block, at, opens, named)? {
        if let Some(literal) = said.literal {
            length = past(length, literal);
        }
        at = said.end;
        opens = false;
    }
    Ok(length as usize)
}
