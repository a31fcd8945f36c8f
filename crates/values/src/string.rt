// One string of zeros and ones (02, A1), which appends at the length. Its variables are all different, so that only the
// known words can conflict with it. Assumes nothing.
ghost use Rattle.std.specs.Prelude.{◌≡◌, [], ◌+◌, ◌≤◌, ◌<◌, leb, eqb, length};
ghost use Rattle.definitions.specs.Limits.{index_limit};
ghost use Rattle.definitions.specs.Literal.{code_of};
ghost use Rattle.definitions.specs.Values.{front, items_from, form_of, hear, appended, any_conflict, valued, marked};
ghost use Rattle.definitions.specs.declared.Form.TheVariants.{ZerosAndOnes};
ghost use Rattle.items.specs.Items.{sought_of, end_at, on_from};
ghost use Rattle.values.specs.Strings.{behind_of, checked_at, said_checked, Fitting};

use bits::{is_otherwise, make_true};
use definitions::Refusal;
use items::{Token, Untagged, next_item};
use literals::{Lit, Var};

// One more than the greatest index: "variable index: 1,073,741,823"
const VARIABLES: u64 = 1_073_741_824;

// Not 5: the last index is within the limit.
pub(crate) fn fits(kept: u64, count: usize) -> bool
    ensures { result ≡ leb (kept + count) (index_limit + 1) }
{
    kept <= VARIABLES && count as u64 <= VARIABLES - kept
}

// The literal that a digit of the string makes true: `0` the negated one.
fn literal_at(variable: u64, digit: u8) -> Lit
    requires { variable ≤ index_limit }
    ensures { result.0 ≡ code_of (eqb digit 48) variable }
{
    Var::of_index(variable as u32)
        .lit(digit == b'0')
        .unwrap_or(Lit::of_code(0))
}

pub(crate) fn string_conflicts(text: &[u8], kept: u64, values: &[u64], known: &[u64]) -> bool
    requires { kept + length text.now ≤ index_limit + 1 }
    ensures { result ≡ any_conflict values.now known.now [] (appended kept text.now) }
{
    for (i, &digit) in text.iter().enumerate() {
        if is_otherwise(literal_at(kept + i as u64, digit), values, known) {
            return true;
        }
    }
    false
}

pub(crate) fn append(text: &[u8], kept: u64, values: &mut [u64], known: &mut [u64])
    requires { kept + length text.now ≤ index_limit + 1 }
    ensures values { values.new ≡ valued (appended kept text.now) values.old }
    ensures known { known.new ≡ marked (appended kept text.now) known.old }
{
    for (i, &digit) in text.iter().enumerate() {
        make_true(literal_at(kept + i as u64, digit), values, known);
    }
}

// What stands behind the string: nothing, or a line without `v`. Another token does not, since the block has one string
// only.
fn check_behind(block: &[u8], string: Token) -> Result<Option<Token>, Refusal>
    ensures { result ≡ behind_of string (sought_of (on_from block.now string.end)) }
{
    match next_item(block, string.end, false) {
        Ok(None) => Ok(Some(string)),
        Ok(Some(token)) => Err(Refusal {
            number: 21,
            place: token.place as u64,
        }),
        Err(Untagged(line)) => Err(Refusal {
            number: 20,
            place: line as u64,
        }),
    }
}

// The string: 5, 22, and what stands behind it.
fn check_at(
    block: &[u8],
    string: Token,
    kept: u64,
    values: &[u64],
    known: &[u64],
) -> Result<Option<Token>, Refusal>
    requires within { string.place ≤ length block.now }
    requires ends { string.end ≡ end_at block.now string.place }
    ensures { result ≡ checked_at kept values.now known.now block.now string.place }
{
    let Token { place, end } = string;
    if !fits(kept, end - place) {
        return Err(Refusal {
            number: 5,
            place: place as u64,
        });
    }
    if string_conflicts(&block[place..end], kept, values, known) {
        return Err(Refusal {
            number: 22,
            place: place as u64,
        });
    }
    check_behind(block, string)
}

// Where the string stands, or none; or 20, 5 or 22.
pub(crate) fn check(
    block: &[u8],
    kept: u64,
    values: &[u64],
    known: &[u64],
) -> Result<Option<Token>, Refusal>
    requires some { 0 < length block.now }
    requires form { form_of block.now ≡ ZerosAndOnes }
    ensures result_value { said_checked kept block.now result ≡ hear ZerosAndOnes kept values.now known.now [] (items_from front 0 block.now) }
    ensures fits { Fitting result kept (length block.now) }
{
    match next_item(block, 0, true) {
        Ok(None) => Ok(None),
        Ok(Some(string)) => check_at(block, string, kept, values, known),
        Err(Untagged(line)) => Err(Refusal {
            number: 20,
            place: line as u64,
        }),
    }
}
