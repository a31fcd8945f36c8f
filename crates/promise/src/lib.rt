// The promise of this project, carried to the functions: rows are written into a lent output, the written part is read
// into lent tables, and what comes back means what went out (demand 3). What comes back is foreseen (crates/foreseen)
// before anything is written, so that a refused call changes nothing. proofs/Promises.antt restates every theorem that
// a user relies on. Assumes nothing.
#![tactic(auto)]

ghost use Rattle.definitions.specs.Table.{table};
ghost use Rattle.tables.specs.Lent.{table_of};
ghost use Rattle.promise.specs.Returns.{Returns};

use definitions::{Mode, Options};
use foreseen::{Back, NotBack};
use tables::Table;

pub fn there_and_back(
    t: Table<'_>,
    text: &[u8],
    mode: Mode,
    out: &mut [u8],
    newkinds: &mut [u8],
    newfirsts: &mut [usize],
    newcounts: &mut [usize],
    newbounds: &mut [i64],
    newweights: &mut [i64],
    newliterals: &mut [u32],
) -> Result<Back, NotBack>
    ensures { Returns mode (table_of t.entry) text.now
        out.old (table newkinds.old newfirsts.old newcounts.old newbounds.old newweights.old newliterals.old)
        result out.new (table newkinds.new newfirsts.new newcounts.new newbounds.new newweights.new newliterals.new) }
{
    let back = foreseen::foresee(
        t,
        text,
        mode,
        out,
        Table {
            kinds: newkinds,
            firsts: newfirsts,
            counts: newcounts,
            bounds: newbounds,
            weights: newweights,
            literals: newliterals,
        },
    )?;
    // Both accept, as was foreseen.
    let _written = writer::write_opb_lines(t, text, mode, out);
    let first = mode.first;
    let _read = reader::parse_opb_data(
        &out[..back.length],
        Options { first },
        newkinds,
        newfirsts,
        newcounts,
        newbounds,
        newweights,
        newliterals,
    );
    Ok(back)
}
