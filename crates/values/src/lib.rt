// A solver's value lines (02, A1), the Rust's `extend_from_vline`: a block of lines makes variables known, in two lent
// rows of words. Nothing is set before the whole block is known to be good. Assumes nothing.
#![tactic(auto)]

mod string;

ghost use Rattle.std.specs.Prelude.{◌≡◌, ◌<◌, min, length};
ghost use Rattle.definitions.specs.Values.{form_of};
ghost use Rattle.definitions.specs.declared.Form.TheVariants.{ZerosAndOnes};
ghost use Rattle.tokens.specs.Said.{form_by};
ghost use Rattle.values.specs.Reads.{in_words, ReadsValues};

use definitions::{Form, Refusal};

// A length, where both rows have its words; else 12 with the words needed.
fn in_words(after: u64, values: &[u64], known: &[u64]) -> Result<usize, Refusal>
    ensures { result ≡ in_words after (min (length values.now) (length known.now)) }
{
    let needed = after.div_ceil(64);
    if (values.len().min(known.len()) as u64) < needed {
        return Err(Refusal {
            number: 12,
            place: needed,
        });
    }
    Ok(after as usize)
}

// Signed numbers or `x` tokens: 20, 21, 5 and 22, as `heard::hear` finds them; then 12; then the bits.
fn read_literals(
    block: &[u8],
    named: bool,
    kept: u64,
    values: &mut [u64],
    known: &mut [u64],
) -> Result<usize, Refusal>
    requires some { 0 < length block.now }
    requires form { form_of block.now ≡ form_by named }
    ensures { ReadsValues block.now kept values.old known.old result values.new known.new }
{
    let heard = heard::hear(block, named, kept, values, known)?;
    let after = in_words(heard as u64, values, known)?;
    settling::settle(block, named, values, known);
    Ok(after)
}

// One string: 20, 5, 22 and 20 again, as `string::check` finds them; then 12; then the bits.
fn read_string(
    block: &[u8],
    kept: u64,
    values: &mut [u64],
    known: &mut [u64],
) -> Result<usize, Refusal>
    requires some { 0 < length block.now }
    requires form { form_of block.now ≡ ZerosAndOnes }
    ensures { ReadsValues block.now kept values.old known.old result values.new known.new }
{
    let Some(string) = string::check(block, kept, values, known)? else {
        return in_words(kept, values, known);
    };
    let text = &block[string.place..string.end];
    let length = in_words(kept + text.len() as u64, values, known)?;
    string::append(text, kept, values, known);
    Ok(length)
}

// A block on top of what is known: the new length, or a refusal. "per line 20, then by token 21, 5, 22, each placed at
// its first byte; then 12 with the words needed."
pub fn read_values(
    block: &[u8],
    length: u64,
    values: &mut [u64],
    known: &mut [u64],
) -> Result<usize, Refusal>
    ensures { ReadsValues block.now length values.old known.old result values.new known.new }
{
    if block.is_empty() {
        return Err(Refusal {
            number: 20,
            place: 0,
        });
    }
    match forms::form_of(block) {
        Form::ZerosAndOnes => read_string(block, length, values, known),
        Form::SignedNumbers => read_literals(block, false, length, values, known),
        Form::XTokens => read_literals(block, true, length, values, known),
    }
}
