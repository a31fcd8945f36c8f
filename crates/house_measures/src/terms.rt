// The length of the fields of a row's terms. Assumes nothing.
ghost use Rattle.std.specs.Prelude.{◌≡◌, length};
ghost use Rattle.definitions.specs.Table.{terms_on};
ghost use Rattle.house_measures.specs.Sizes.{terms_length, said_terms_length};

use lengths::add_needed;
use literals::Lit;

// Of all terms of a row; none where one of them has no file number.
pub(crate) fn terms_length(weights: &[i64], literals: &[u32], first: u32) -> Option<u64>
    requires { length weights.now ≡ length literals.now }
    ensures { said_terms_length result ≡ terms_length first (terms_on weights.now literals.now) }
{
    let mut total: u64 = 0;
    for (weight, code) in weights.iter().zip(literals) {
        let length = house_lengths::term_length(*weight, Lit::of_code(*code), first)?;
        total = add_needed(total, length as u64);
    }
    Some(total)
}
