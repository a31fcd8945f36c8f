// The class of a byte, and what it begins where a statement is to begin (01, "The text"). Assumes nothing.
#![tactic(auto)]

ghost use Rattle.std.specs.Prelude.{◌≡◌};
ghost use Rattle.definitions.specs.Bytes.{class_of, begins};

use definitions::{Beginning, Class};

// "Every byte belongs to one class."
pub fn class_of(b: u8) -> Class
    ensures { result ≡ class_of b }
{
    match b {
        b'0'..=b'9' => Class::Digit,
        b'+' | b'-' => Class::Sign,
        b' ' | b'\t' => Class::Blank,
        b'\r' => Class::Cr,
        b'\n' => Class::Lf,
        b';' => Class::Semicolon,
        b'*' => Class::Star,
        b'~' => Class::Tilde,
        b'x' => Class::LetterX,
        b'm' => Class::LetterM,
        b'<' | b'=' | b'>' => Class::Operator,
        _ => Class::Other,
    }
}

// What a byte of the class begins, where a statement is to begin.
pub fn begins(c: Class) -> Beginning
    ensures { result ≡ begins c }
{
    match c {
        Class::Digit | Class::Sign => Beginning::Constraint,
        Class::Star => Beginning::Comment,
        Class::LetterM => Beginning::Objective,
        Class::Blank
        | Class::Cr
        | Class::Lf
        | Class::Semicolon
        | Class::Tilde
        | Class::LetterX
        | Class::Operator
        | Class::Other => Beginning::Nothing,
    }
}

pub fn beginning_of(b: u8) -> Beginning
    ensures { result ≡ begins (class_of b) }
{
    begins(class_of(b))
}
