// File numbers, variables and literals, as in the Rust's types.rs. "File number, index and code may not be passed one
// for another" (01): each is a type of its own, and the functions here are the only ways between them. `None` is
// where one has no counterpart, refusal 5. Assumes nothing.
#![tactic(auto)]

ghost use Rattle.std.specs.Prelude.{◌≡◌, true, false, not};
ghost use Rattle.definitions.specs.Literal.{index, is_index, index_of, code_for, negated, opposite, file_number};
ghost use Rattle.literals.specs.Said.{said_file_number, said_var, said_lit};
ghost use Rattle.literals.specs.FileDigits.{file_number_of, then_code};

use definitions::{FILE_NUMBER_LIMIT, INDEX_LIMIT};

// The number behind an `x` in a file.
#[derive(Clone, Copy, Debug, PartialEq, Eq)]
pub struct FileNumber(u32);

// A variable: its index.
#[derive(Clone, Copy, Debug, PartialEq, Eq)]
pub struct Var(u32);

// A literal: its code, twice the index, plus 1 if negated.
#[derive(Clone, Copy, Debug, PartialEq, Eq)]
pub struct Lit(u32);

impl FileNumber {
    // The file number that digits stand for.
    pub fn of_digits(size: u64) -> Option<FileNumber>
        ensures { said_file_number result ≡ file_number_of size }
    {
        if size <= FILE_NUMBER_LIMIT {
            Some(FileNumber(size as u32))
        } else {
            None
        }
    }

    // The number itself, to be printed.
    pub fn number(self) -> u32
        ensures { result ≡ self.0 }
    {
        self.0
    }

    // The number that a variable is written with.
    pub fn of(v: Var, first: u32) -> Option<FileNumber>
        ensures { said_file_number result ≡ file_number first v.0 }
    {
        FileNumber::of_digits(v.0 as u64 + first as u64)
    }
}

impl Var {
    // The variable of an index, which may be above its limit.
    pub fn of_index(index: u32) -> Var
        ensures { result.0 ≡ index }
    {
        Var(index)
    }

    // The index itself, to find the variable's bit by.
    pub fn index(self) -> u32
        ensures { result ≡ self.0 }
    {
        self.0
    }

    // Not "an index above its limit".
    pub fn in_limit(self) -> bool
        ensures { result ≡ is_index self.0 }
    {
        self.0 <= INDEX_LIMIT
    }

    // "A variable index is the file number less the first index."
    pub fn of_file(n: FileNumber, first: u32) -> Option<Var>
        ensures { said_var result ≡ index first n.0 }
    {
        let v = n.0.checked_sub(first)?;
        if v <= INDEX_LIMIT { Some(Var(v)) } else { None }
    }

    // A literal of the variable, if its index is within the limit.
    pub fn lit(self, negated: bool) -> Option<Lit>
        ensures { said_lit result ≡ code_for negated self.0 }
    {
        if INDEX_LIMIT < self.0 {
            return None;
        }
        let plain = 2 * self.0;
        if negated {
            Some(Lit(plain + 1))
        } else {
            Some(Lit(plain))
        }
    }

    pub fn pos_lit(self) -> Option<Lit>
        ensures { said_lit result ≡ code_for false self.0 }
    {
        self.lit(false)
    }

    pub fn neg_lit(self) -> Option<Lit>
        ensures { said_lit result ≡ code_for true self.0 }
    {
        self.lit(true)
    }
}

impl Lit {
    // The literal of the variable whose file number the digits stand for.
    pub fn of_digits(size: u64, first: u32, negated: bool) -> Option<Lit>
        ensures { said_lit result ≡ then_code negated (index first size) }
    {
        let number = FileNumber::of_digits(size)?;
        let variable = Var::of_file(number, first)?;
        variable.lit(negated)
    }

    // The literal of a code, as a column of literals holds it.
    pub fn of_code(code: u32) -> Lit
        ensures { result.0 ≡ code }
    {
        Lit(code)
    }

    // The code itself, to be put into a column of literals.
    pub fn code(self) -> u32
        ensures { result ≡ self.0 }
    {
        self.0
    }

    // The variable that the literal is of.
    pub fn var(self) -> Var
        ensures { result.0 ≡ index_of self.0 }
    {
        Var(self.0 / 2)
    }

    // "The opposite literal", the Rust's `!`.
    pub fn negated(self) -> Lit
        ensures { result.0 ≡ opposite self.0 }
    {
        let odd = self.0 % 2;
        if odd == 0 {
            Lit(self.0 + 1)
        } else {
            Lit(self.0 - 1)
        }
    }

    pub fn is_neg(self) -> bool
        ensures { result ≡ negated self.0 }
    {
        self.0 % 2 == 1
    }

    pub fn is_pos(self) -> bool
        ensures { result ≡ not (negated self.0) }
    {
        self.0 % 2 == 0
    }
}
