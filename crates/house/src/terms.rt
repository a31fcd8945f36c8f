// The fields of a row's terms, put into an output that has room for them. Assumes nothing.
ghost use Rattle.std.specs.Prelude.{◌+◌, ◌≤◌, length};
ghost use Rattle.definitions.specs.Lists.{joined};
ghost use Rattle.definitions.specs.Row.{term};
ghost use Rattle.definitions.specs.Table.{terms_on};
ghost use Rattle.definitions.specs.House.{field, term_fields};
ghost use Rattle.laws.proofs.Puts.{Puts};
ghost use Rattle.house_lengths.specs.Words.{literal_words, term_words};
ghost use Rattle.house.specs.Ready.{TermReady, TermsReady};

use literals::{FileNumber, Lit};
use puts::{put_count, put_number};

fn put_literal(tilde: bool, n: FileNumber, out: &mut [u8], at: usize) -> usize
    requires { at + length (field (literal_words tilde n.0)) ≤ length out.old }
    ensures { Puts (field (literal_words tilde n.0)) at out.old result out.new }
{
    out[at] = b'\t';
    if tilde {
        out[at + 1] = b'~';
        out[at + 2] = b'x';
        return put_count(n.number() as u64, out, at + 3);
    }
    out[at + 1] = b'x';
    put_count(n.number() as u64, out, at + 2)
}

fn put_fields(w: i64, tilde: bool, n: FileNumber, out: &mut [u8], at: usize) -> usize
    requires { at + length (term_words w tilde n.0) ≤ length out.old }
    ensures { Puts (term_words w tilde n.0) at out.old result out.new }
{
    out[at] = b'\t';
    let end = put_number(w, out, at + 1);
    put_literal(tilde, n, out, end)
}

// A term whose variable has a file number, since the first walk has accepted it.
fn put_term(w: i64, l: Lit, first: u32, out: &mut [u8], at: usize) -> usize
    requires { TermReady first w l.0 at out.old }
    ensures { Puts (term_fields first (term w l.0)) at out.old result out.new }
{
    match FileNumber::of(l.var(), first) {
        Some(n) => put_fields(w, l.is_neg(), n, out, at),
        None => at,
    }
}

pub(crate) fn put_terms(
    weights: &[i64],
    literals: &[u32],
    first: u32,
    out: &mut [u8],
    at: usize,
) -> usize
    requires { TermsReady first weights.now literals.now at out.old }
    ensures { Puts (joined (term_fields first) (terms_on weights.now literals.now)) at out.old result out.new }
{
    let mut end = at;
    for (weight, code) in weights.iter().zip(literals) {
        end = put_term(*weight, Lit::of_code(*code), first, out, end);
    }
    end
}
