// The first walk over a file: every statement is checked, rows and terms are counted (01, "What must change shape"),
// and what was counted is held against the room for it. Assumes nothing.
#![tactic(auto)]

ghost use Rattle.std.specs.Prelude.{◌≡◌};
ghost use Rattle.definitions.specs.Answers.{said_counted};
ghost use Rattle.definitions.specs.Table.{counted};
ghost use Rattle.definitions.specs.File.{lines_of, statements, file};
ghost use Rattle.counts.specs.Fitted.{fitted_totals};

use definitions::{FILE_LIMIT, Options, Refusal, Totals};
use statements::Line;

fn count_statements(s: &[u8], options: Options) -> Result<Totals, Refusal>
    ensures { said_counted result ≡ counted (lines_of (statements options s.now)) }
{
    let mut rows: usize = 0;
    let mut terms: usize = 0;
    let mut at: usize = 0;
    loop {
        match statements::opb_data(&s[at..], options) {
            Ok(Some(Line { entry, taken })) => {
                rows += 1;
                terms += columns::terms_of(entry.kind, entry.count);
                at += taken;
            }
            Ok(None) => {
                return Ok(Totals { rows, terms });
            }
            Err(refusal) => {
                return Err(Refusal {
                    number: refusal.number,
                    place: at as u64 + refusal.place,
                });
            }
        }
    }
}

// "Reader's order: 1; then statement by statement": what a file holds, whatever room there is for it.
pub fn count_file(s: &[u8], options: Options) -> Result<Totals, Refusal>
    ensures { said_counted result ≡ counted (file options s.now) }
{
    if s.len() > FILE_LIMIT {
        return Err(Refusal {
            number: 1,
            place: 0,
        });
    }
    count_statements(s, options)
}

// "9, then 10, once the whole file has read well": what was counted, held against the room for rows and for terms.
pub fn fitted(
    counted: Result<Totals, Refusal>,
    rows: usize,
    terms: usize,
) -> Result<Totals, Refusal>
    ensures { said_counted result ≡ fitted_totals rows terms (said_counted counted) }
{
    let all = counted?;
    if rows < all.rows {
        return Err(Refusal {
            number: 9,
            place: all.rows as u64,
        });
    }
    if terms < all.terms {
        return Err(Refusal {
            number: 10,
            place: all.terms as u64,
        });
    }
    Ok(all)
}
