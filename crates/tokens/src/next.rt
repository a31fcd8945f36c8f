// What is met next in a block (02, A1), with what a token says. Assumes nothing.
ghost use Rattle.std.specs.Prelude.{◌≡◌};
ghost use Rattle.items.specs.Items.{found_from};
ghost use Rattle.tokens.specs.NextTokens.{step_at, said_next, met_of};

use crate::token::{TokenFault, token_says};
use definitions::Refusal;
use items::{Token, Untagged, next_item};
use literals::Lit;

// A token: its offset, the offset behind it, and the literal that it says, or none, as the 0 that ends signed numbers.
#[derive(Clone, Copy, Debug, PartialEq, Eq)]
pub struct Said {
    pub place: usize,
    pub end: usize,
    pub literal: Option<Lit>,
}

// A token that was met, in the words of the walks.
fn met(says: Result<Option<Lit>, TokenFault>, token: Token) -> Result<Option<Said>, Refusal>
    ensures { result ≡ met_of says token }
{
    let Token { place, end } = token;
    match says {
        Ok(literal) => Ok(Some(Said {
            place,
            end,
            literal,
        })),
        Err(TokenFault::Bad) => Err(Refusal {
            number: 21,
            place: place as u64,
        }),
        Err(TokenFault::Beyond) => Err(Refusal {
            number: 5,
            place: place as u64,
        }),
    }
}

// What the next token says, in a block whose variables have an `x`, or not: none at the end; or a refusal, 20, 21 or 5.
pub fn next_token(
    block: &[u8],
    from: usize,
    front: bool,
    named: bool,
) -> Result<Option<Said>, Refusal>
    ensures { said_next result ≡ step_at named block.now (found_from front from block.now) }
{
    match next_item(block, from, front) {
        Ok(None) => Ok(None),
        Ok(Some(token)) => met(token_says(named, &block[token.place..token.end]), token),
        Err(Untagged(place)) => Err(Refusal {
            number: 20,
            place: place as u64,
        }),
    }
}
