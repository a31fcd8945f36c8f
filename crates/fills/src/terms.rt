// The terms of the statement at the front of a text: it is checked and its terms are counted; then they are filled.
// Assumes nothing.
ghost use Rattle.definitions.specs.Text.{statement};
ghost use Rattle.definitions.specs.Stepping.{stepped_by, terms_by, columns_room};
ghost use Rattle.fills.specs.FillsTerms.{FillsTerms};

use definitions::{Options, Refusal};
use statements::Line;

// The statement at the front of s, as `opb_data` reads it, a refusal's place counted from there; 10 where its terms do
// not fit; nothing at the end.
pub fn fill_terms(
    s: &[u8],
    options: Options,
    weights: &mut [i64],
    literals: &mut [u32],
) -> Result<usize, Refusal>
    ensures { FillsTerms (terms_by (columns_room weights.old literals.old) (stepped_by 0 (statement options s.now))) weights.old literals.old result weights.new literals.new }
{
    match statements::opb_data(s, options) {
        Ok(None) => Ok(0),
        Err(refusal) => Err(refusal),
        Ok(Some(Line { entry, taken: _ })) => {
            let terms = columns::terms_of(entry.kind, entry.count);
            if columns::term_room(weights, literals) < terms {
                return Err(Refusal {
                    number: 10,
                    place: terms as u64,
                });
            }
            // It answers the line that was read.
            let _ = statements::walk_statement(s, options, weights, literals);
            Ok(terms)
        }
    }
}
