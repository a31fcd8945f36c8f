// One step on a file, at an offset: the statement there, checked. Nothing is kept between two steps but the offset.
// Assumes nothing.
ghost use Rattle.std.specs.Prelude.{◌≡◌};
ghost use Rattle.definitions.specs.Stepping.{step_at, offset_after};
ghost use Rattle.walker.specs.Said.{said_stepped, brief_stepped};

use definitions::{Entry, FILE_LIMIT, Options, Refusal};
use statements::Line;

// A row of the table, with the offset after its statement. A comment's first is its offset in the file, any other row's
// is 0.
#[derive(Clone, Copy, Debug, PartialEq, Eq)]
pub struct Step {
    pub entry: Entry,
    pub next: usize,
}

// "takes the rest of the file from where the last one stopped"; None where nothing but blanks is left, as behind the
// file's end.
pub fn step_at(file: &[u8], options: Options, at: usize) -> Result<Option<Step>, Refusal>
    ensures { said_stepped result ≡ brief_stepped (step_at options file.now at) }
{
    if file.len() > FILE_LIMIT {
        return Err(Refusal {
            number: 1,
            place: 0,
        });
    }
    if file.len() < at {
        return Ok(None);
    }
    match statements::opb_data(&file[at..], options) {
        Ok(Some(Line { entry, taken })) => {
            let mut placed = entry;
            placed.first = columns::first_of(entry.kind, at + entry.first, 0);
            Ok(Some(Step {
                entry: placed,
                next: at + taken,
            }))
        }
        Ok(None) => Ok(None),
        Err(refusal) => Err(Refusal {
            number: refusal.number,
            place: at as u64 + refusal.place,
        }),
    }
}

// Where the next step is taken.
pub fn offset_after(stepped: Result<Option<Step>, Refusal>, at: usize) -> usize
    ensures { result ≡ offset_after (said_stepped stepped) at }
{
    match stepped {
        Ok(Some(step)) => step.next,
        Ok(None) => at,
        Err(_) => at,
    }
}
