// The second walk over a file that has read well, into columns that have room: what the first walk counted is filled.
// It asks for just that, so it is the crate's own. Assumes nothing.
ghost use Rattle.std.specs.Prelude.{◌≡◌};
ghost use Rattle.definitions.specs.Table.{table, after};
ghost use Rattle.definitions.specs.File.{reading};
ghost use Rattle.reader.specs.Reads.{Ready};

use definitions::Options;
use statements::Line;

// Every statement of the file, from the front of the columns.
pub(crate) fn fill_file(
    s: &[u8],
    options: Options,
    kinds: &mut [u8],
    firsts: &mut [usize],
    counts: &mut [usize],
    bounds: &mut [i64],
    weights: &mut [i64],
    literals: &mut [u32],
)
    requires { Ready options s.now (table kinds.old firsts.old counts.old bounds.old weights.old literals.old) }
    ensures { table kinds.new firsts.new counts.new bounds.new weights.new literals.new
        ≡ after (reading options s.now (table kinds.old firsts.old counts.old bounds.old weights.old literals.old))
        (table kinds.old firsts.old counts.old bounds.old weights.old literals.old) }
{
    let mut at: usize = 0;
    let mut row: usize = 0;
    let mut term: usize = 0;
    while let Ok(Some(Line { entry, taken })) = statements::walk_statement(
        &s[at..],
        options,
        &mut weights[term..],
        &mut literals[term..],
    ) {
        kinds[row] = entry.kind;
        firsts[row] = columns::first_of(entry.kind, at + entry.first, term);
        counts[row] = entry.count;
        let bound = entry.bound;
        bounds[row] = bound;
        row += 1;
        term += columns::terms_of(entry.kind, entry.count);
        at += taken;
    }
}
