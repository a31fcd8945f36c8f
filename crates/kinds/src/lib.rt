// What the number of a row in the column of kinds says (01, "Numbers and tables"). Assumes nothing.
#![tactic(auto)]

ghost use Rattle.std.specs.Prelude.{◌≡◌};
ghost use Rattle.columns.specs.Kinds.{read_kind};

use definitions::{AT_LEAST, AT_MOST, EQUAL, Kind};

// Of a read row that is no comment: 1 at least, 2 at most, 3 equal, 4 objective. Who asks has ruled out any other.
pub fn read_kind(kind: u8) -> Kind
    ensures { result ≡ read_kind kind }
{
    match kind {
        AT_LEAST => Kind::AtLeast,
        AT_MOST => Kind::AtMost,
        EQUAL => Kind::Equal,
        _ => Kind::Objective,
    }
}
