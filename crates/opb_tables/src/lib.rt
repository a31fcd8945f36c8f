// The library for C, tables: a file, or a table made normal, into lent columns, by C's calling convention over slices
// (a pointer and a length) and numbers, with an answer by value. No call asks anything of what it is lent but that it
// is there. A refused call leaves the columns as they were, an accepted one changes only the entries it counts, from
// the front. specs/Calls.antt says what each promises. Assumes nothing.
#![tactic(auto)]

ghost use Rattle.std.specs.Prelude.{◌≡◌};
ghost use Rattle.definitions.specs.Table.{table};
ghost use Rattle.opb_tables.specs.Calls.{count_answer, ReadsFile, NormalisesTable};

use definitions::Options;
use table_answers::{OpbTable, table_answer};
use tables::Table;

// The rows and terms of a file, so that columns for them can be had. Refusals 1 to 8; 9 and 10 ask for columns.
#[unsafe(no_mangle)]
pub extern "C" fn opb_count(file: &[u8], first: u32) -> OpbTable
    ensures { result ≡ count_answer first file.now }
{
    table_answer(counts::count_file(file, Options { first }))
}

// "Reader's order: 1; then statement by statement .. 2 to 7 ..; 8 ..; 9, then 10, once the whole file has read well."
#[unsafe(no_mangle)]
pub extern "C" fn opb_read(
    file: &[u8],
    first: u32,
    kinds: &mut [u8],
    firsts: &mut [usize],
    counts: &mut [usize],
    bounds: &mut [i64],
    weights: &mut [i64],
    literals: &mut [u32],
) -> OpbTable
    ensures { ReadsFile first file.now (table kinds.old firsts.old counts.old bounds.old weights.old literals.old) result
        (table kinds.new firsts.new counts.new bounds.new weights.new literals.new) }
{
    let options = Options { first };
    table_answer(reader::parse_opb_data(
        file, options, kinds, firsts, counts, bounds, weights, literals,
    ))
}

// The rows of six columns, normal, into six others. "Row by row 11, 8; then 9, 10."
#[unsafe(no_mangle)]
pub extern "C" fn opb_normalise(
    kinds: &[u8],
    firsts: &[usize],
    counts: &[usize],
    bounds: &[i64],
    weights: &[i64],
    literals: &[u32],
    outkinds: &mut [u8],
    outfirsts: &mut [usize],
    outcounts: &mut [usize],
    outbounds: &mut [i64],
    outweights: &mut [i64],
    outliterals: &mut [u32],
) -> OpbTable
    ensures { NormalisesTable (table kinds.now firsts.now counts.now bounds.now weights.now literals.now)
        (table outkinds.old outfirsts.old outcounts.old outbounds.old outweights.old outliterals.old) result
        (table outkinds.new outfirsts.new outcounts.new outbounds.new outweights.new outliterals.new) }
{
    let t = Table {
        kinds,
        firsts,
        counts,
        bounds,
        weights,
        literals,
    };
    table_answer(normaliser::normalise(
        t,
        outkinds,
        outfirsts,
        outcounts,
        outbounds,
        outweights,
        outliterals,
    ))
}
