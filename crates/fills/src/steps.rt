// The terms of the statement at an offset of a file, into lent columns. Assumes nothing.
ghost use Rattle.definitions.specs.Stepping.{terms_at_step};
ghost use Rattle.fills.specs.FillsTerms.{FillsTerms};

use definitions::{Options, Refusal};

// The terms of the statement at an offset; 10 where they do not fit.
pub fn fill_at(
    file: &[u8],
    options: Options,
    at: usize,
    weights: &mut [i64],
    literals: &mut [u32],
) -> Result<usize, Refusal>
    ensures { FillsTerms (terms_at_step options file.now at weights.old literals.old) weights.old literals.old result weights.new literals.new }
{
    match walker::step_at(file, options, at) {
        Ok(Some(_)) => crate::terms::fill_terms(&file[at..], options, weights, literals),
        Ok(None) => Ok(0),
        Err(refusal) => Err(refusal),
    }
}
