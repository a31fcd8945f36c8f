// A file's house lines (01, "Examples on each side"): the file is read into lent columns, and what was read, or the
// refusal, is listed into a lent output. All of the listing program but reading its input and printing its output. The
// lines are measured first (listing_lengths), so that a refused call changes nothing. specs/ListsFile.antt says what is
// promised. Assumes nothing.
#![tactic(auto)]

ghost use Rattle.definitions.specs.Table.{table};
ghost use Rattle.listing.specs.ListsFile.{ListsFile};

use definitions::{Options, Refusal};

// 14 with the length needed, or the length of the lines.
pub fn list_file(
    file: &[u8],
    first: u32,
    kinds: &mut [u8],
    firsts: &mut [usize],
    counts: &mut [usize],
    bounds: &mut [i64],
    weights: &mut [i64],
    literals: &mut [u32],
    out: &mut [u8],
) -> Result<usize, Refusal>
    ensures { ListsFile first file.now (table kinds.old firsts.old counts.old bounds.old weights.old literals.old) out.old result
        (table kinds.new firsts.new counts.new bounds.new weights.new literals.new) out.new }
{
    let row_room = columns::row_room(kinds, firsts, counts, bounds);
    let term_room = columns::term_room(weights, literals);
    let length = listing_lengths::listing_length(file, Options { first }, row_room, term_room);
    if length > out.len() as u64 {
        return Err(Refusal {
            number: 14,
            place: length,
        });
    }
    listing_read::list_read(
        file, first, kinds, firsts, counts, bounds, weights, literals, out,
    );
    Ok(length as usize)
}
