// The sums of a row's weights, up to the cap of term_checks. Assumes nothing.
ghost use Rattle.std.specs.Prelude.{◌≡◌};
ghost use Rattle.shown.specs.Sums.{sums_with};

// Of all weights, and of those that the bound falls by.
#[derive(Clone, Copy, Debug, PartialEq, Eq)]
pub struct Sums {
    pub total: u64,
    pub fall: u64,
}

// One weight more.
pub fn with_weight(s: Sums, w: i64, falls: bool) -> Sums
    ensures { result ≡ sums_with s w falls }
{
    let total = term_checks::add_size(s.total, w);
    let fall = if falls {
        term_checks::add_size(s.fall, w)
    } else {
        s.fall
    };
    Sums { total, fall }
}
