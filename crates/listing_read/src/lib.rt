// A file read into lent columns, and what was read, or the refusal, listed into a lent output, where its house lines
// fit (01, "Examples on each side"). specs/ListsRead.antt says what is promised. Assumes nothing.
#![tactic(auto)]

ghost use Rattle.definitions.specs.Table.{table};
ghost use Rattle.listing_read.specs.ListsRead.{ListsRead};

use definitions::Options;
use tables::Table;

// Where the lines do not fit, the output stays as it is; the columns hold what was read all the same.
pub fn list_read(
    file: &[u8],
    first: u32,
    kinds: &mut [u8],
    firsts: &mut [usize],
    counts: &mut [usize],
    bounds: &mut [i64],
    weights: &mut [i64],
    literals: &mut [u32],
    out: &mut [u8],
)
    ensures { ListsRead first file.now (table kinds.old firsts.old counts.old bounds.old weights.old literals.old) out.old
        (table kinds.new firsts.new counts.new bounds.new weights.new literals.new) out.new }
{
    let options = Options { first };
    match reader::parse_opb_data(
        file, options, kinds, firsts, counts, bounds, weights, literals,
    ) {
        Ok(found) => {
            let t = Table {
                kinds,
                firsts,
                counts,
                bounds,
                weights,
                literals,
            };
            // What it answers is not asked: the lines lie in the output, or do not fit and it stays.
            let _ = house::list_table(t, found.rows, first, out);
        }
        Err(e) => {
            refusals::list_refusal(e.number, e.place, out);
        }
    }
}
