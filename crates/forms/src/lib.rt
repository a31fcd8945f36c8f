// The form of a block of value lines (02, A1): "The source's test on the whole block picks the form." Assumes nothing.
#![tactic(auto)]

ghost use Rattle.std.specs.Prelude.{◌≡◌, not, ◌&&◌, length};
ghost use Rattle.definitions.specs.Values.{is_white, is_bit, front_of, behind, only_bits, just_zero, form_of};

use definitions::Form;
use items::is_white;

fn white_run(s: &[u8]) -> usize
    ensures { result ≡ length (front_of is_white s.now) }
{
    s.iter().take_while(|b| is_white(**b)).count()
}

fn bit_run(s: &[u8]) -> usize
    ensures { result ≡ length (front_of is_bit s.now) }
{
    s.iter().take_while(|b| matches!(**b, b'0' | b'1')).count()
}

// Whether all that stands there, trimmed, is zeros and ones alone, but not just `0`.
fn is_string(s: &[u8]) -> bool
    ensures { result ≡ (only_bits s.now && not (just_zero (front_of is_bit (behind is_white s.now)))) }
{
    let start = white_run(s);
    let count = bit_run(&s[start..]);
    let end = start + count;
    let tail = white_run(&s[end..]);
    if end + tail < s.len() {
        return false;
    }
    count != 1 || s[start] != b'0'
}

#[tactic(auto, using(crate::proofs::Forms::by_block))]
pub fn form_of(block: &[u8]) -> Form
    ensures { result ≡ form_of block.now }
{
    if block.contains(&b'x') {
        return Form::XTokens;
    }
    if block.is_empty() || is_string(&block[1..]) {
        return Form::ZerosAndOnes;
    }
    Form::SignedNumbers
}
