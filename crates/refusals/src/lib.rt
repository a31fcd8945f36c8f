// The house line of a refusal (01, "Examples on each side"): how long it is, and put into a lent output. Assumes
// nothing.
#![tactic(auto)]

ghost use Rattle.std.specs.Prelude.{◌≡◌, ◌≤◌, length};
ghost use Rattle.definitions.specs.Refusal.{refusal};
ghost use Rattle.definitions.specs.House.{refused_line};
ghost use Rattle.laws.proofs.Puts.{Puts};
ghost use Rattle.outputs.specs.Print.{Prints};

use puts::{put_field, put_text};

// The length of the line of a refusal: `refused`, two tabs, number, place and an LF.
pub fn refusal_length(number: u8, place: u64) -> usize
    ensures { result ≡ length (refused_line (refusal number place)) }
{
    10 + lengths::count_length(number as u64) + lengths::count_length(place)
}

fn put_refusal(number: u8, place: u64, out: &mut [u8]) -> usize
    requires { length (refused_line (refusal number place)) ≤ length out.old }
    ensures { Puts (refused_line (refusal number place)) 0 out.old result out.new }
{
    let a = put_text(b"refused", out, 0);
    let b = put_field(number as u64, out, a);
    let end = put_field(place, out, b);
    out[end] = b'\n';
    end + 1
}

// "A refusal prints `refused|number|place` alone."
pub fn list_refusal(number: u8, place: u64, out: &mut [u8]) -> Option<usize>
    ensures { Prints (refused_line (refusal number place)) 0 out.old result out.new }
{
    if refusal_length(number, place) > out.len() {
        return None;
    }
    Some(put_refusal(number, place, out))
}
