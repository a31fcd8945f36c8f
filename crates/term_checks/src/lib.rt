// What is asked of the terms of a row, in lent columns (01, "Numbers and tables"), by reader, normaliser, evaluator and
// writer alike: whether its variables are within the limit, and how large its weights are together. Assumes nothing.
#![tactic(auto)]

ghost use Rattle.std.specs.Prelude.{◌≡◌, ◌+◌, nat_abs};
ghost use Rattle.term_checks.specs.Sizes.{capped};
ghost use Rattle.term_checks.specs.TermTests.{codes_indexed, weight_sizes};

use literals::Lit;

// The cap of specs/Sizes.antt: one more than M.
pub const SIZE_CAP: u64 = 9_223_372_036_854_775_808;

// Whether no literal has "an index above its limit".
pub fn indexed_of(literals: &[u32]) -> bool
    ensures { result ≡ codes_indexed literals.now }
{
    literals
        .iter()
        .all(|code| Lit::of_code(*code).var().in_limit())
}

// A size and one weight more, which stops at the cap.
pub fn add_size(size: u64, weight: i64) -> u64
    ensures { result ≡ capped (size + nat_abs weight) }
{
    size.saturating_add(weight.unsigned_abs()).min(SIZE_CAP)
}

// The absolute weights together, up to the cap.
pub fn sizes_of(weights: &[i64]) -> u64
    ensures { result ≡ capped (weight_sizes weights.now) }
{
    let mut size: u64 = 0;
    for weight in weights {
        size = add_size(size, *weight);
    }
    size
}
