// "struct with the file slice and offset; thin stepping functions over the covered statement reader" (01): the struct,
// made, moved and asked where it stands. Its steps are in held_steps and held_fills. Assumes nothing.
#![tactic(auto)]

ghost use Rattle.std.specs.Prelude.{◌≡◌};
ghost use Rattle.held.specs.HeldWalker.{walker_at};

use definitions::Options;

// "a reader that holds the file's bytes": the file, how it is read, and the offset of the next statement.
#[derive(Clone, Copy)]
pub struct Walker<'a> {
    pub file: &'a [u8],
    pub options: Options,
    pub at: usize,
}

// At the beginning of the file.
pub fn new<'a>(file: &'a [u8], options: Options) -> Walker<'a>
    ensures { result ≡ walker_at file.entry options 0 }
{
    Walker {
        file,
        options,
        at: 0,
    }
}

pub fn at<'a>(w: Walker<'a>) -> usize
    ensures { result ≡ w.entry.at }
{
    w.at
}

// The same file, from another offset on.
pub fn moved<'a>(w: Walker<'a>, at: usize) -> Walker<'a>
    ensures { result ≡ walker_at w.entry.file w.entry.options at }
{
    Walker {
        file: w.file,
        options: w.options,
        at,
    }
}
