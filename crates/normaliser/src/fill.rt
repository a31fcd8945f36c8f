// The second walk over rows that are all accepted, into columns that have room: what the first walk counted is filled,
// "packed row after row". Each function asks for just that, so all are the crate's own. Assumes nothing.
ghost use Rattle.std.specs.Prelude.{◌≡◌, List, map, ◌≤◌, nat_abs};
ghost use Rattle.definitions.specs.Limits.{weight_limit};
ghost use Rattle.definitions.specs.Row.{Line};
ghost use Rattle.definitions.specs.Table.{table, terms_on, accepted, filled};
ghost use Rattle.definitions.specs.Normal.{normal_by, normal_term};
ghost use Rattle.normal_checks.specs.FirstWalk.{normal_of, normal_rows};
ghost use Rattle.normaliser.specs.Fill.{said_term, TermsReady, TermsFilled, RowReady, RowFilled, Ready};
ghost use Rattle.tables.specs.Lent.{table_of};

use definitions::{COMMENT, Entry};
use literals::Lit;
use tables::Table;

// A term: its weight and its literal.
#[derive(Clone, Copy, Debug, PartialEq, Eq)]
pub struct NormalTerm {
    pub weight: i64,
    pub literal: Lit,
}

// A row that was filled: its first term or a comment's offset, its bound, and how many terms it has.
#[derive(Clone, Copy, Debug, PartialEq, Eq)]
pub struct Filled {
    pub first: usize,
    pub bound: i64,
    pub terms: usize,
}

// "Normalising turns each negative weight w on literal l into -w on the opposite literal."
fn normal_term(weight: i64, literal: Lit) -> NormalTerm
    requires { nat_abs weight ≤ weight_limit }
    ensures { said_term result ≡ normal_by weight literal.0 }
{
    let opposite = literal.negated();
    if weight < 0 {
        NormalTerm {
            weight: -weight,
            literal: opposite,
        }
    } else {
        NormalTerm { weight, literal }
    }
}

// "Order and count of terms stay."
fn fill_terms(weights: &[i64], literals: &[u32], outweights: &mut [i64], outliterals: &mut [u32])
    requires { TermsReady weights.now literals.now outweights.old outliterals.old }
    ensures { TermsFilled (map normal_term (terms_on weights.now literals.now)) outweights.old outliterals.old outweights.new outliterals.new }
{
    for i in 0..weights.len() {
        let term = normal_term(weights[i], Lit::of_code(literals[i]));
        outweights[i] = term.weight;
        outliterals[i] = term.literal.code();
    }
}

// One row with `term` terms before it: its terms from the front of the columns. "Comment rows are copied as they are."
fn fill_row(
    entry: Entry,
    t: Table<'_>,
    term: usize,
    outweights: &mut [i64],
    outliterals: &mut [u32],
) -> Filled
    requires { RowReady (normal_of entry t.weights.now t.literals.now) outweights.old outliterals.old }
    ensures { RowFilled (normal_of entry t.entry.weights.now t.entry.literals.now) term outweights.old outliterals.old result outweights.new outliterals.new }
{
    if entry.kind == COMMENT {
        return Filled {
            first: entry.first,
            bound: entry.bound,
            terms: 0,
        };
    }
    let end = entry.first + entry.count;
    let weights = &t.weights[entry.first..end];
    fill_terms(
        weights,
        &t.literals[entry.first..end],
        outweights,
        outliterals,
    );
    let shift = shifts::shift_of(kinds::read_kind(entry.kind), weights);
    Filled {
        first: term,
        bound: entry.bound + shift,
        terms: entry.count,
    }
}

// Every row, from the front of the columns. Kinds and counts stay.
pub(crate) fn fill_rows(
    t: Table<'_>,
    outkinds: &mut [u8],
    outfirsts: &mut [usize],
    outcounts: &mut [usize],
    outbounds: &mut [i64],
    outweights: &mut [i64],
    outliterals: &mut [u32],
)
    requires { Ready (table_of t) (table outkinds.old outfirsts.old outcounts.old outbounds.old outweights.old outliterals.old) }
    ensures { (ls : List Line) → normal_rows (table_of t.entry) ≡ accepted ls
        → table outkinds.new outfirsts.new outcounts.new outbounds.new outweights.new outliterals.new
        ≡ filled ls (table outkinds.old outfirsts.old outcounts.old outbounds.old outweights.old outliterals.old) }
{
    let mut term: usize = 0;
    for i in 0..t.row_room() {
        let Some(entry) = t.entry(i) else {
            break;
        };
        let row = fill_row(
            entry,
            t,
            term,
            &mut outweights[term..],
            &mut outliterals[term..],
        );
        outkinds[i] = entry.kind;
        outfirsts[i] = row.first;
        outcounts[i] = entry.count;
        outbounds[i] = row.bound;
        term += row.terms;
    }
}
