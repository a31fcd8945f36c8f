// The length that a file's house lines need (01, "Examples on each side"), from its text alone: a walk over its
// statements that measures each line, so that nothing lent need be changed before it is known whether the lines fit.
// specs/Measure.antt says what is counted. Assumes nothing.
#![tactic(auto)]

mod statement;

ghost use Rattle.std.specs.Prelude.{◌≡◌, length};
ghost use Rattle.definitions.specs.Refusal.{needed};
ghost use Rattle.definitions.specs.Table.{Table, row_room, term_room};
ghost use Rattle.definitions.specs.File.{lines_of, statements, file, reading};
ghost use Rattle.definitions.specs.House.{listing};
ghost use Rattle.listing_lengths.specs.Measure.{file_sizes, said_measured};

use definitions::{FILE_LIMIT, Options, Refusal};
use statements::Line;

// How many rows and terms a file has, and the length of their lines.
#[derive(Clone, Copy, Debug, PartialEq, Eq)]
pub(crate) struct Sizes {
    pub rows: usize,
    pub terms: usize,
    pub lines: u64,
}

// Statement by statement, as the reader's first walk.
fn measure_statements(s: &[u8], options: Options) -> Result<Sizes, Refusal>
    ensures { said_measured result ≡ file_sizes options.first (lines_of (statements options s.now)) }
{
    let mut rows: usize = 0;
    let mut terms: usize = 0;
    let mut lines: u64 = 0;
    let mut at: usize = 0;
    loop {
        match statements::opb_data(&s[at..], options) {
            Ok(Some(Line { entry, taken })) => {
                let line = statement::statement_length(&s[at..], options, entry);
                lines = lengths::add_needed(lines, line);
                rows += 1;
                terms += columns::terms_of(entry.kind, entry.count);
                at += taken;
            }
            Ok(None) => {
                return Ok(Sizes { rows, terms, lines });
            }
            Err(refusal) => {
                return Err(Refusal {
                    number: refusal.number,
                    place: at as u64 + refusal.place,
                });
            }
        }
    }
}

// "Reader's order: 1; then statement by statement".
fn measure_file(s: &[u8], options: Options) -> Result<Sizes, Refusal>
    ensures { said_measured result ≡ file_sizes options.first (file options s.now) }
{
    if s.len() > FILE_LIMIT {
        return Err(Refusal {
            number: 1,
            place: 0,
        });
    }
    measure_statements(s, options)
}

// The whole text, for columns with room for so many rows and terms: of the head and the lines, or of a refusal, which
// may be "9, then 10".
pub fn listing_length(s: &[u8], options: Options, rows: usize, terms: usize) -> u64
    ensures { (t : Table) → row_room t ≡ rows → term_room t ≡ terms → result ≡ needed (length (listing options.first (reading options s.now t))) }
{
    match measure_file(s, options) {
        Ok(found) => {
            if rows < found.rows {
                return refusals::refusal_length(9, found.rows as u64) as u64;
            }
            if terms < found.terms {
                return refusals::refusal_length(10, found.terms as u64) as u64;
            }
            house_lengths::text_length(found.rows, found.terms as u64, found.lines, options.first)
        }
        Err(e) => refusals::refusal_length(e.number, e.place) as u64,
    }
}
