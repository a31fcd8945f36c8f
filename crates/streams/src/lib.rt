// Standard input into a lent buffer, text to standard output and standard error: what programs share. Reader and writer
// are the caller's; where their bytes are known, as in memory, the contracts say which of them are read or written. What
// the outside world gives or takes no contract can say. Each function ends, given that each read and write returns.
#![tactic(auto)]

ghost use Rattle.std.specs.Prelude.{◌≡◌, length, IfOk, OnErr, OnOk};
ghost use Rattle.std.specs.Io.KnownBytes.{Appends, Keeps};
ghost use Rattle.streams.specs.Streamed.{IsFilled, IsBehind, IsInput, AppendsFront, ConsumesFront, lies_within, put_text};
ghost use Rattle.streams.specs.Within.{InputWithin, PrintedWithin};

use std::io;
use std::io::{ErrorKind, Read, Write};

// Reads until the buffer is full or the input ends: how many bytes then stand at its front.
fn fill<R: Read>(reader: &mut R, buffer: &mut [u8]) -> io::Result<usize>
    ensures bytes { IfOk result (IsFilled (R.remaining reader.old) (R.remaining reader.new) buffer.new) }
    ensures err { OnErr result (ConsumesFront (R.remaining reader.old) (R.remaining reader.new) buffer.new) }
{
    let mut done: usize = 0;
    while done < buffer.len() {
        let n = reader.read(&mut buffer[done..])?;
        if n == 0 {
            return Ok(done);
        }
        done += n;
    }
    Ok(done)
}

// The input behind a buffer that is full: none where a byte follows.
fn behind<R: Read>(reader: &mut R, full: usize) -> io::Result<Option<usize>>
    ensures within { IfOk result (λ input. InputWithin input full) }
    ensures bytes { IfOk result (IsBehind (R.remaining reader.old) full) }
    ensures err { OnErr result (Keeps (R.remaining reader.old) (R.remaining reader.new)) }
{
    let mut one = [0u8; 1];
    let more = reader.read(&mut one)?;
    if more > 0 {
        return Ok(None);
    }
    Ok(Some(full))
}

// The whole input: how many bytes it has, at the front of the buffer; none where it has more than the buffer holds.
// After an error, what was read before it stands there.
pub fn read_input<R: Read>(reader: &mut R, buffer: &mut [u8]) -> io::Result<Option<usize>>
    ensures within { IfOk result (λ input. InputWithin input (length buffer.new)) }
    ensures bytes { IfOk result (IsInput (R.remaining reader.old) buffer.new) }
    ensures err { OnErr result (ConsumesFront (R.remaining reader.old) (R.remaining reader.new) buffer.new) }
{
    let n = fill(reader, buffer)?;
    if n < buffer.len() {
        return Ok(Some(n));
    }
    behind(reader, n)
}

// All of the text, to standard output. An error leaves some of it written, and not all.
pub fn print<W: Write>(writer: &mut W, text: &[u8]) -> io::Result<()>
    ensures ok { OnOk result (Appends (W.contents writer.old) (W.contents writer.new) text.now) }
    ensures err { OnErr result (AppendsFront (W.contents writer.old) (W.contents writer.new) text.now) }
{
    let mut written: usize = 0;
    while written < text.len() {
        let taken = writer.write(&text[written..])?;
        if taken == 0 {
            return Err(io::Error::from(ErrorKind::WriteZero));
        }
        written += taken;
    }
    Ok(())
}

// To standard error.
pub fn say<W: Write>(writer: &mut W, text: &[u8]) -> io::Result<()>
    ensures ok { OnOk result (Appends (W.contents writer.old) (W.contents writer.new) text.now) }
    ensures err { OnErr result (AppendsFront (W.contents writer.old) (W.contents writer.new) text.now) }
{
    print(writer, text)
}

// What was put into `out`, to standard output: whether it was written. Where nothing was put, or more than `out` holds,
// nothing is, and no error comes.
pub fn print_put<W: Write>(writer: &mut W, put: Option<usize>, out: &[u8]) -> io::Result<bool>
    ensures within { IfOk result (PrintedWithin put (length out.now)) }
    ensures answer { IfOk result (λ printed. printed ≡ lies_within put (length out.now)) }
    ensures ok { OnOk result (Appends (W.contents writer.old) (W.contents writer.new) (put_text put out.now)) }
    ensures err { OnErr result (AppendsFront (W.contents writer.old) (W.contents writer.new) (put_text put out.now)) }
{
    match put {
        Some(n) if n <= out.len() => {
            print(writer, &out[..n])?;
            Ok(true)
        }
        _ => Ok(false),
    }
}
