// The library for C, as a static library: libopb.a (tools/archive) of include/opb.h. Each export calls the function of its
// name in opb_tables, opb_rows, opb_assignments or opb_texts, and promises what that one does, in the same clause.
// Assumes nothing.
#![tactic(auto)]

ghost use Rattle.std.specs.Prelude.{◌≡◌};
ghost use Rattle.definitions.specs.Table.{table};
ghost use Rattle.opb_assignments.specs.Calls.{ReadsBlock};
ghost use Rattle.opb_rows.specs.Calls.{evaluate_answer, evaluate_known_answer, judge_answer};
ghost use Rattle.opb_tables.specs.Calls.{count_answer, ReadsFile, NormalisesTable};
ghost use Rattle.opb_texts.specs.Calls.{WritesLines, ListsTable};

use opb_assignments::OpbLength;
use opb_rows::OpbValue;
use opb_texts::OpbText;
use table_answers::OpbTable;

#[unsafe(no_mangle)]
pub extern "C" fn opb_count(file: &[u8], first: u32) -> OpbTable
    ensures { result ≡ count_answer first file.now }
{
    opb_tables::opb_count(file, first)
}

#[unsafe(no_mangle)]
pub extern "C" fn opb_read(
    file: &[u8],
    first: u32,
    kinds: &mut [u8],
    firsts: &mut [usize],
    counts: &mut [usize],
    bounds: &mut [i64],
    weights: &mut [i64],
    literals: &mut [u32],
) -> OpbTable
    ensures { ReadsFile first file.now (table kinds.old firsts.old counts.old bounds.old weights.old literals.old) result
        (table kinds.new firsts.new counts.new bounds.new weights.new literals.new) }
{
    opb_tables::opb_read(
        file, first, kinds, firsts, counts, bounds, weights, literals,
    )
}

#[unsafe(no_mangle)]
pub extern "C" fn opb_normalise(
    kinds: &[u8],
    firsts: &[usize],
    counts: &[usize],
    bounds: &[i64],
    weights: &[i64],
    literals: &[u32],
    outkinds: &mut [u8],
    outfirsts: &mut [usize],
    outcounts: &mut [usize],
    outbounds: &mut [i64],
    outweights: &mut [i64],
    outliterals: &mut [u32],
) -> OpbTable
    ensures { NormalisesTable (table kinds.now firsts.now counts.now bounds.now weights.now literals.now)
        (table outkinds.old outfirsts.old outcounts.old outbounds.old outweights.old outliterals.old) result
        (table outkinds.new outfirsts.new outcounts.new outbounds.new outweights.new outliterals.new) }
{
    opb_tables::opb_normalise(
        kinds,
        firsts,
        counts,
        bounds,
        weights,
        literals,
        outkinds,
        outfirsts,
        outcounts,
        outbounds,
        outweights,
        outliterals,
    )
}

#[unsafe(no_mangle)]
pub extern "C" fn opb_evaluate(
    kinds: &[u8],
    firsts: &[usize],
    counts: &[usize],
    bounds: &[i64],
    weights: &[i64],
    literals: &[u32],
    row: usize,
    words: &[u64],
) -> OpbValue
    ensures { result ≡ evaluate_answer (table kinds.now firsts.now counts.now bounds.now weights.now literals.now) row words.now }
{
    opb_rows::opb_evaluate(kinds, firsts, counts, bounds, weights, literals, row, words)
}

#[unsafe(no_mangle)]
pub extern "C" fn opb_evaluate_known(
    kinds: &[u8],
    firsts: &[usize],
    counts: &[usize],
    bounds: &[i64],
    weights: &[i64],
    literals: &[u32],
    row: usize,
    values: &[u64],
    known: &[u64],
) -> OpbValue
    ensures { result ≡ evaluate_known_answer (table kinds.now firsts.now counts.now bounds.now weights.now literals.now) row values.now known.now }
{
    opb_rows::opb_evaluate_known(
        kinds, firsts, counts, bounds, weights, literals, row, values, known,
    )
}

#[unsafe(no_mangle)]
pub extern "C" fn opb_judge(
    kinds: &[u8],
    firsts: &[usize],
    counts: &[usize],
    bounds: &[i64],
    weights: &[i64],
    literals: &[u32],
    row: usize,
    values: &[u64],
    known: &[u64],
) -> OpbValue
    ensures { result ≡ judge_answer (table kinds.now firsts.now counts.now bounds.now weights.now literals.now) row values.now known.now }
{
    opb_rows::opb_judge(
        kinds, firsts, counts, bounds, weights, literals, row, values, known,
    )
}

#[unsafe(no_mangle)]
pub extern "C" fn opb_values(
    block: &[u8],
    length: u64,
    values: &mut [u64],
    known: &mut [u64],
) -> OpbLength
    ensures { ReadsBlock block.now length values.old known.old result values.new known.new }
{
    opb_assignments::opb_values(block, length, values, known)
}

#[unsafe(no_mangle)]
pub extern "C" fn opb_write(
    kinds: &[u8],
    firsts: &[usize],
    counts: &[usize],
    bounds: &[i64],
    weights: &[i64],
    literals: &[u32],
    text: &[u8],
    first: u32,
    plain: u8,
    out: &mut [u8],
) -> OpbText
    ensures { WritesLines first plain (table kinds.now firsts.now counts.now bounds.now weights.now literals.now) text.now out.old result out.new }
{
    opb_texts::opb_write(
        kinds, firsts, counts, bounds, weights, literals, text, first, plain, out,
    )
}

#[unsafe(no_mangle)]
pub extern "C" fn opb_list(
    kinds: &[u8],
    firsts: &[usize],
    counts: &[usize],
    bounds: &[i64],
    weights: &[i64],
    literals: &[u32],
    rows: usize,
    first: u32,
    out: &mut [u8],
) -> OpbText
    ensures { ListsTable first rows (table kinds.now firsts.now counts.now bounds.now weights.now literals.now) out.old result out.new }
{
    opb_texts::opb_list(
        kinds, firsts, counts, bounds, weights, literals, rows, first, out,
    )
}
