// Text into a lent output that is known to have room for it, since its length was measured before: the place behind the
// text is all that is answered. Where it does not fit nothing is changed, and the place stays. Assumes nothing.
#![tactic(auto)]

ghost use Rattle.definitions.specs.Number.{decimal, integer_text};
ghost use Rattle.definitions.specs.House.{field};
ghost use Rattle.puts.specs.Lands.{Lands};

pub fn put_number(z: i64, out: &mut [u8], at: usize) -> usize
    ensures { Lands (integer_text z) at out.old result out.new }
{
    outputs::print_number(z, out, at).unwrap_or(at)
}

pub fn put_count(m: u64, out: &mut [u8], at: usize) -> usize
    ensures { Lands (decimal m) at out.old result out.new }
{
    outputs::print_count(m, out, at).unwrap_or(at)
}

pub fn put_text(text: &[u8], out: &mut [u8], at: usize) -> usize
    ensures { Lands text.now at out.old result out.new }
{
    outputs::print_text(text, out, at).unwrap_or(at)
}

// A count behind a tab. The count is printed first: where it does not fit, the tab is not put either.
pub fn put_field(m: u64, out: &mut [u8], at: usize) -> usize
    ensures { Lands (field (decimal m)) at out.old result out.new }
{
    if at >= out.len() {
        return at;
    }
    let Some(end) = outputs::print_count(m, out, at + 1) else {
        return at;
    };
    out[at] = b'\t';
    end
}
