// The normaliser (01, "Normalising and evaluating"): every row of a table, normal, into lent columns. Two walks over
// the rows: crates/normal_checks checks and counts, fill.rt fills. Every table gets an answer; a refused call changes
// nothing. specs/Normalises.antt says what the entry promises. Assumes nothing.
#![tactic(auto)]

mod fill;

ghost use Rattle.definitions.specs.Table.{table};
ghost use Rattle.normaliser.specs.Normalises.{Normalises};
ghost use Rattle.tables.specs.Lent.{table_of};

use definitions::{Refusal, Totals};
use tables::Table;

// "Row by row 11, 8; then 9, 10."
pub fn normalise(
    t: Table<'_>,
    outkinds: &mut [u8],
    outfirsts: &mut [usize],
    outcounts: &mut [usize],
    outbounds: &mut [i64],
    outweights: &mut [i64],
    outliterals: &mut [u32],
) -> Result<Totals, Refusal>
    ensures { Normalises (table_of t.entry)
        (table outkinds.old outfirsts.old outcounts.old outbounds.old outweights.old outliterals.old) result
        (table outkinds.new outfirsts.new outcounts.new outbounds.new outweights.new outliterals.new) }
{
    let out = Table {
        kinds: outkinds,
        firsts: outfirsts,
        counts: outcounts,
        bounds: outbounds,
        weights: outweights,
        literals: outliterals,
    };
    let totals = normal_checks::measure_normal(t, out)?;
    fill::fill_rows(
        t,
        outkinds,
        outfirsts,
        outcounts,
        outbounds,
        outweights,
        outliterals,
    );
    Ok(totals)
}
