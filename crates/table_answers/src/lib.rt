// What a call of the library for C over a table answers (include/opb.h): a struct of numbers, by value. Assumes
// nothing.
#![tactic(auto)]

ghost use Rattle.std.specs.Prelude.{◌≡◌};
ghost use Rattle.definitions.specs.Answers.{said_counted};
ghost use Rattle.table_answers.specs.ByValue.{table_answer};

use definitions::{Refusal, Totals};

// How many rows and terms were counted or filled. `refusal` is 0 exactly where the call accepted, else the refusal's
// number; then `place` is its place and every other number is 0.
#[repr(C)]
#[derive(Drop)]
pub struct OpbTable {
    pub refusal: u8,
    pub place: u64,
    pub rows: u64,
    pub terms: u64,
}

// What a callee answers, as C has it.
pub fn table_answer(found: Result<Totals, Refusal>) -> OpbTable
    ensures { result ≡ table_answer (said_counted found) }
{
    match found {
        Ok(Totals { rows, terms }) => OpbTable {
            refusal: 0,
            place: 0,
            rows: rows as u64,
            terms: terms as u64,
        },
        Err(why) => OpbTable {
            refusal: why.number,
            place: why.place,
            rows: 0,
            terms: 0,
        },
    }
}
