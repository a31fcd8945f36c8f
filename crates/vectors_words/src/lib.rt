// A part of the program `vectors`: the numbers of a case's line. Each is read at the front of what is left of the line,
// with the byte that ends it, a space or the line's LF. So a line is read whole where nothing is left of it. Where a
// number is not there, or not as it should be, the line is no case. Assumes nothing.
#![tactic(auto)]

ghost use Rattle.std.specs.Prelude.{◌≤◌, IfSome};

// What is left of a case's line.
#[derive(Clone, Copy)]
pub struct Words<'a> {
    rest: &'a [u8],
}

// A number of digits, and what is left behind the byte that ends it.
fn natural_of(s: &[u8]) -> Option<(u64, &[u8])> {
    let mut value: u64 = 0;
    for (n, &b) in s.iter().enumerate() {
        match b {
            b'0'..=b'9' => value = value.checked_mul(10)?.checked_add(u64::from(b - b'0'))?,
            b' ' | b'\n' if n > 0 => return Some((value, &s[n + 1..])),
            _ => return None,
        }
    }
    None
}

impl<'a> Words<'a> {
    pub fn new(line: &'a [u8]) -> Words<'a> {
        Words { rest: line }
    }

    // Whether the line is read whole.
    pub fn is_end(&self) -> bool {
        self.rest.is_empty()
    }

    // A number from 0 up to `most`.
    pub fn natural(&mut self, most: u64) -> Option<u64>
        ensures { IfSome result (λ n. n ≤ most) }
    {
        let (value, rest) = natural_of(self.rest)?;
        if value > most {
            return None;
        }
        self.rest = rest;
        Some(value)
    }

    pub fn integer(&mut self) -> Option<i64> {
        let (value, n) = numbers::read_number(self.rest)?;
        match self.rest.get(n) {
            Some(b' ' | b'\n') => {
                self.rest = &self.rest[n + 1..];
                Some(value)
            }
            _ => None,
        }
    }
}
