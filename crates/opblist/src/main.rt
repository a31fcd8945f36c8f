// The listing program (01, "Examples on each side"): an OPB file on standard input, its house lines on standard output.
// All it does itself is to read and to print; `listing::list_file` does the work, and its contract says which bytes are
// printed. What cannot be read or printed is said on standard error.
#![tactic(auto)]

use std::io;
use std::io::Write;

// "first index 1, up to 4,096 rows and 8,192 terms"
fn list(file: &[u8], out: &mut [u8]) -> Option<usize> {
    let mut kinds = [0u8; 4096];
    let mut firsts = [0usize; 4096];
    let mut counts = [0usize; 4096];
    let mut bounds = [0i64; 4096];
    let mut weights = [0i64; 8192];
    let mut literals = [0u32; 8192];
    listing::list_file(
        file,
        1,
        &mut kinds,
        &mut firsts,
        &mut counts,
        &mut bounds,
        &mut weights,
        &mut literals,
        out,
    )
    .ok()
}

// What was put into `out`, or why it is not printed.
fn show_put<O: Write, E: Write>(
    output: &mut O,
    errors: &mut E,
    put: Option<usize>,
    out: &[u8],
) -> io::Result<()> {
    match put {
        Some(_) => match streams::print_put(output, put, out) {
            Ok(true) => Ok(()),
            _ => streams::say(errors, b"opblist: standard output takes no more\n"),
        },
        None => streams::say(errors, b"opblist: the lines do not fit the output buffer\n"),
    }
}

// The output suffices for every file: a head of at most 48 bytes, 4,096 rows of at most 25, 8,192 terms of at most 34.
fn show<O: Write, E: Write>(output: &mut O, errors: &mut E, file: &[u8]) -> io::Result<()> {
    let mut out = [0u8; 380976];
    let put = list(file, &mut out);
    show_put(output, errors, put, &out)
}

// "more input: refusal 1"
fn refuse<O: Write, E: Write>(output: &mut O, errors: &mut E) -> io::Result<()> {
    let mut out = [0u8; 12];
    let put = refusals::list_refusal(1, 0, &mut out);
    show_put(output, errors, put, &out)
}

// Ends with an error where standard error takes no more.
fn main(rt: HostRuntime) -> io::Result<()> {
    let mut output = rt.stdout();
    let mut errors = rt.stderr();
    let mut input = [0; 65536];
    match streams::read_input(&mut rt.stdin(), &mut input) {
        Ok(Some(n)) => show(&mut output, &mut errors, &input[..n]),
        Ok(None) => refuse(&mut output, &mut errors),
        Err(_) => streams::say(&mut errors, b"opblist: standard input cannot be read\n"),
    }
}
