// What a reader of this project must believe stands in specs/, as definitions on lists of bytes and whole numbers;
// proofs/ has the theorems and laws that follow from them. Here are only the types that definitions and code share, so
// that an option, a class or an operator is one thing in both. Assumes nothing.
#![tactic(auto)]

// The limits (01, "Numbers and tables"), as specs/Limits.antt has them, by proofs/DeclaredLimits.antt.
pub const FILE_LIMIT: usize = 1_073_741_823;

pub const INDEX_LIMIT: u32 = 1_073_741_823;

pub const FILE_NUMBER_LIMIT: u64 = 4_294_967_295;

// "sum of absolute weights in a row ... (M)"
pub const WEIGHT_LIMIT: u64 = 9_223_372_036_854_775_807;

// "bound, weight: signed 64 bits"
pub const LEAST: i64 = -9_223_372_036_854_775_808;

pub const GREATEST: i64 = 9_223_372_036_854_775_807;

// "Words after the first 16,777,216 are not looked at."
pub const WORD_LIMIT: usize = 16_777_216;

// "A needed number above 18,446,744,073,709,551,615 is given as that one."
pub const NEEDED_LIMIT: u64 = 18_446_744_073_709_551_615;

// What a row that is no comment says: "at least, at most, equal, or objective" (01, "Numbers and tables").
#[derive(Clone, Copy, Debug, PartialEq, Eq)]
pub enum Kind {
    AtLeast,
    AtMost,
    Equal,
    Objective,
}

// The numbers in the column of kinds, of the read kinds (docs/DECISIONS.md, 8).
pub const COMMENT: u8 = 0;

pub const AT_LEAST: u8 = 1;

pub const AT_MOST: u8 = 2;

pub const EQUAL: u8 = 3;

pub const OBJECTIVE: u8 = 4;

// How a file is to be read: "the first index (an option, any u32)" (01, "Numbers and tables").
#[derive(Clone, Copy, Debug, PartialEq, Eq)]
pub struct Options {
    pub first: u32,
}

// How rows are to be written: the first index, and whether in no-negated mode, where every literal is a plain variable
// (01, "The lines written").
#[derive(Clone, Copy, Debug, PartialEq, Eq)]
pub struct Mode {
    pub first: u32,
    pub plain: bool,
}

// What is given back where a call can not be accepted: the number, and the place that belongs to it (01, "What each
// number says").
#[derive(Clone, Copy, Debug, PartialEq, Eq)]
pub struct Refusal {
    pub number: u8,
    pub place: u64,
}

// What a refused piece of a statement carries. Its place is the statement's (01, "What each number says"), so a piece
// has the number alone.
#[derive(Clone, Copy, Debug, PartialEq, Eq)]
pub struct Fault {
    pub number: u8,
}

// How many rows and terms there are.
#[derive(Clone, Copy, Debug, PartialEq, Eq)]
pub struct Totals {
    pub rows: usize,
    pub terms: usize,
}

// One row in the columns of a table: "its first term (the count of terms before it), count of terms and bound" (01,
// "Numbers and tables").
#[derive(Clone, Copy, Debug, PartialEq, Eq)]
pub struct Entry {
    pub kind: u8,
    pub first: usize,
    pub count: usize,
    pub bound: i64,
}

// Every byte belongs to one class (01, "The text").
#[derive(Clone, Copy, Debug, PartialEq, Eq)]
pub enum Class {
    Digit,
    Sign,
    Blank,
    Cr,
    Lf,
    Semicolon,
    Star,
    Tilde,
    LetterX,
    LetterM,
    Operator,
    Other,
}

// The relational operators, as in the Rust.
#[derive(Clone, Copy, Debug, PartialEq, Eq)]
pub enum OpbOperator {
    LE,
    GE,
    LT,
    GT,
    EQ,
}

// What a byte begins, where a statement is to begin (01, "The text").
#[derive(Clone, Copy, Debug, PartialEq, Eq)]
pub enum Beginning {
    Comment,
    Objective,
    Constraint,
    Nothing,
}

// The three forms of a solver's value lines (02, A1).
#[derive(Clone, Copy, Debug, PartialEq, Eq)]
pub enum Form {
    SignedNumbers,
    ZerosAndOnes,
    XTokens,
}
