// The library for C, assignments: a block of a solver's value lines on top of an assignment (02, A1), by C's calling
// convention over slices (a pointer and a length) and numbers, with an answer by value. The call asks nothing of what
// it is lent but that it is there. A refused call leaves both rows of words as they were, an accepted one changes only
// the bits of the variables that it meets. specs/Calls.antt says what it promises. Assumes nothing.
#![tactic(auto)]

ghost use Rattle.std.specs.Prelude.{◌≡◌};
ghost use Rattle.definitions.specs.Refusal.{refusal};
ghost use Rattle.definitions.specs.Table.{refused, accepted};
ghost use Rattle.opb_assignments.specs.ByValue.{length_answer};
ghost use Rattle.opb_assignments.specs.Calls.{ReadsBlock};

use definitions::Refusal;

// The length of the assignment, which the caller keeps. `refusal` is 0 exactly where the call accepted, else the
// refusal's number; then `place` is its place and the length is 0.
#[repr(C)]
#[derive(Drop)]
pub struct OpbLength {
    pub refusal: u8,
    pub place: u64,
    pub length: u64,
}

fn refused_length(number: u8, place: u64) -> OpbLength
    ensures { result ≡ length_answer (refused (refusal number place)) }
{
    OpbLength {
        refusal: number,
        place,
        length: 0,
    }
}

fn length_of(length: u64) -> OpbLength
    ensures { result ≡ length_answer (accepted length) }
{
    OpbLength {
        refusal: 0,
        place: 0,
        length,
    }
}

// The caller keeps the length: 0 at first, then what was answered. "per line 20, then by token 21, 5, 22, each placed
// at its first byte; then 12 with the words needed."
#[unsafe(no_mangle)]
pub extern "C" fn opb_values(
    block: &[u8],
    length: u64,
    values: &mut [u64],
    known: &mut [u64],
) -> OpbLength
    ensures { ReadsBlock block.now length values.old known.old result values.new known.new }
{
    match values::read_values(block, length, values, known) {
        Err(found) => refused_length(found.number, found.place),
        Ok(after) => length_of(after as u64),
    }
}
