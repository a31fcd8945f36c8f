// The public entry: a whole file into lent columns. Assumes nothing.
ghost use Rattle.definitions.specs.Table.{table};
ghost use Rattle.reader.specs.Reads.{Reads};

use definitions::{Options, Refusal, Totals};

// "Reader's order: 1; then statement by statement .. 2 to 7 ..; 8 ..; 9, then 10, once the whole file has read well."
// How many rows and terms were read.
#[tactic(auto, using(crate::proofs::Files::by_file))]
pub fn parse_opb_data(
    s: &[u8],
    options: Options,
    kinds: &mut [u8],
    firsts: &mut [usize],
    counts: &mut [usize],
    bounds: &mut [i64],
    weights: &mut [i64],
    literals: &mut [u32],
) -> Result<Totals, Refusal>
    ensures { Reads options s.now (table kinds.old firsts.old counts.old bounds.old weights.old literals.old) result
        (table kinds.new firsts.new counts.new bounds.new weights.new literals.new) }
{
    let rows = columns::row_room(kinds, firsts, counts, bounds);
    let terms = columns::term_room(weights, literals);
    let found = counts::fitted(counts::count_file(s, options), rows, terms)?;
    crate::fill::fill_file(s, options, kinds, firsts, counts, bounds, weights, literals);
    Ok(found)
}
