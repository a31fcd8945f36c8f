// What is met next in a block of value lines (02, A1): a line without `v`, a token, or the end. Assumes nothing.
#![tactic(auto)]

ghost use Rattle.std.specs.Prelude.{◌≡◌, length};
ghost use Rattle.definitions.specs.Values.{is_white, is_solid, front_of};
ghost use Rattle.items.specs.Items.{found_from, said_sought, item_by};

// A line without `v`: the offset of its first byte.
#[derive(Clone, Copy, Debug, PartialEq, Eq)]
pub struct Untagged(pub usize);

// Where a token stands: the offset of its first byte, and the one behind it.
#[derive(Clone, Copy, Debug, PartialEq, Eq)]
pub struct Token {
    pub place: usize,
    pub end: usize,
}

// "the six ASCII white space bytes only (9 to 13 and 32)"
pub fn is_white(b: u8) -> bool
    ensures { result ≡ is_white b }
{
    matches!(b, 9..=13 | 32)
}

// How many bytes the token at the front has.
fn solid_run(s: &[u8]) -> usize
    ensures { result ≡ length (front_of is_solid s.now) }
{
    s.iter().take_while(|b| !is_white(**b)).count()
}

// From the offset `from` on, which is at a line's front or not: "Lines are parted by LF"; the `v` needs no blank behind
// it. The offset of a token's first byte, or none at the end.
fn seek(block: &[u8], from: usize, front: bool) -> Result<Option<usize>, Untagged>
    ensures { said_sought result ≡ found_from front from block.now }
{
    let mut opens = front;
    for at in from..block.len() {
        let b = block[at];
        if b == b' ' && !opens {
            // Most of what stands between tokens, passed by this look alone.
            continue;
        }
        if opens {
            if b != b'v' {
                return Err(Untagged(at));
            }
            opens = false;
        } else if b == b'\n' {
            opens = true;
        } else if !is_white(b) {
            return Ok(Some(at));
        }
    }
    Ok(None)
}

// From the offset `from` on, which is at a line's front or not: none at the end, and where it lies behind the block.
pub fn next_item(block: &[u8], from: usize, front: bool) -> Result<Option<Token>, Untagged>
    ensures { result ≡ item_by block.now (found_from front from block.now) }
{
    let Some(place) = seek(block, from, front)? else {
        return Ok(None);
    };
    let end = place + solid_run(&block[place..]);
    Ok(Some(Token { place, end }))
}
