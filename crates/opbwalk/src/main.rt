// The listing program of 01, "Examples on each side", with a file that is walked: an OPB file on standard input, its
// house lines on standard output, the same as opblist's. It keeps no table: one walk of steps checks and counts
// (`tallies::count_steps`), a second prints each statement's line as it is met. What cannot be read or printed is said
// on standard error.
#![tactic(auto)]

use definitions::{Entry, Options, Refusal, Totals};
use std::io;
use std::io::Write;
use tables::Table;
use walker::Step;

// "up to 4,096 rows and 8,192 terms"
const ROWS: usize = 4096;

const TERMS: usize = 8192;

// Whether all of it was printed; where not, standard error says so.
fn told<E: Write>(errors: &mut E, printed: bool) -> io::Result<bool> {
    if !printed {
        streams::say(errors, b"opbwalk: standard output takes no more\n")?;
    }
    Ok(printed)
}

// What was put into `out`, or why it is not printed.
fn show_put<O: Write, E: Write>(
    output: &mut O,
    errors: &mut E,
    put: Option<usize>,
    out: &[u8],
) -> io::Result<bool> {
    match put {
        Some(_) => {
            let printed = matches!(streams::print_put(output, put, out), Ok(true));
            told(errors, printed)
        }
        None => {
            streams::say(
                errors,
                b"opbwalk: the line does not fit the output buffer\n",
            )?;
            Ok(false)
        }
    }
}

fn refuse<O: Write, E: Write>(output: &mut O, errors: &mut E, refusal: Refusal) -> io::Result<()> {
    let mut out = [0u8; 33];
    let put = refusals::list_refusal(refusal.number, refusal.place, &mut out);
    show_put(output, errors, put, &out)?;
    Ok(())
}

// "The first line is rows, terms, first index."
fn put_head(rows: u64, terms: u64, out: &mut [u8]) -> Option<usize> {
    let a = outputs::print_text(b"opb\t", out, 0)?;
    let b = outputs::print_count(rows, out, a)?;
    let c = outputs::print_text(b"\t", out, b)?;
    let d = outputs::print_count(terms, out, c)?;
    outputs::print_text(b"\t1\n", out, d)
}

fn print_head<O: Write, E: Write>(
    output: &mut O,
    errors: &mut E,
    found: Totals,
) -> io::Result<bool> {
    let mut out = [0u8; 48];
    let put = put_head(found.rows as u64, found.terms as u64, &mut out);
    show_put(output, errors, put, &out)
}

// The head of a table of one row: `opb`, 1, so many terms, 1, parted by tabs, and an LF.
fn head_length(terms: usize) -> usize {
    9 + lengths::count_length(terms as u64)
}

// The line of one row, whose terms stand at the front of the columns: that of a table of one row, without the head.
fn print_row<O: Write, E: Write>(
    output: &mut O,
    errors: &mut E,
    entry: Entry,
    weights: &[i64],
    literals: &[u32],
    out: &mut [u8],
) -> io::Result<bool> {
    let t = Table {
        kinds: &[entry.kind],
        firsts: &[0],
        counts: &[entry.count],
        bounds: &[entry.bound],
        weights,
        literals,
    };
    match house::list_table(t, 1, 1, out) {
        Err(_) => {
            streams::say(
                errors,
                b"opbwalk: the line does not fit the output buffer\n",
            )?;
            Ok(false)
        }
        Ok(n) => {
            let start = head_length(columns::terms_of(entry.kind, entry.count));
            print_part(output, errors, out, start, n)
        }
    }
}

// The bytes from `start` to `end`, where they are that.
fn print_part<O: Write, E: Write>(
    output: &mut O,
    errors: &mut E,
    out: &[u8],
    start: usize,
    end: usize,
) -> io::Result<bool> {
    if start <= end && end <= out.len() {
        let printed = streams::print(output, &out[start..end]).is_ok();
        return told(errors, printed);
    }
    streams::say(errors, b"opbwalk: a line without its head\n")?;
    Ok(false)
}

// One statement, as the walk met it at the offset.
fn print_statement<O: Write, E: Write>(
    output: &mut O,
    errors: &mut E,
    file: &[u8],
    at: usize,
    entry: Entry,
    weights: &mut [i64],
    literals: &mut [u32],
    out: &mut [u8],
) -> io::Result<bool> {
    let options = Options { first: 1 };
    match fills::fill_at(file, options, at, weights, literals) {
        Err(_) => {
            streams::say(errors, b"opbwalk: the terms do not fit their columns\n")?;
            Ok(false)
        }
        Ok(_) => print_row(output, errors, entry, weights, literals, out),
    }
}

// The second walk, over a file that the first has accepted.
fn print_statements<O: Write, E: Write>(
    output: &mut O,
    errors: &mut E,
    file: &[u8],
    weights: &mut [i64],
    literals: &mut [u32],
    out: &mut [u8],
) -> io::Result<()> {
    let options = Options { first: 1 };
    let mut at: usize = 0;
    while let Ok(Some(Step { entry, next })) = walker::step_at(file, options, at) {
        if !print_statement(output, errors, file, at, entry, weights, literals, out)? {
            break;
        }
        at = next;
    }
    Ok(())
}

// Columns and output for one statement; it may be as long as the file.
fn list<O: Write, E: Write>(output: &mut O, errors: &mut E, file: &[u8]) -> io::Result<()> {
    let mut weights = [0i64; 8192];
    let mut literals = [0u32; 8192];
    let mut out = [0u8; 380976];
    print_statements(output, errors, file, &mut weights, &mut literals, &mut out)
}

// "9, then 10, once the whole file has read well"
fn show<O: Write, E: Write>(output: &mut O, errors: &mut E, file: &[u8]) -> io::Result<()> {
    let options = Options { first: 1 };
    match counts::fitted(tallies::count_steps(file, options), ROWS, TERMS) {
        Ok(found) => {
            if print_head(output, errors, found)? {
                list(output, errors, file)?;
            }
            Ok(())
        }
        Err(refusal) => refuse(output, errors, refusal),
    }
}

// Ends with an error where standard error takes no more.
fn main(rt: HostRuntime) -> io::Result<()> {
    let mut output = rt.stdout();
    let mut errors = rt.stderr();
    let mut input = [0; 65536];
    match streams::read_input(&mut rt.stdin(), &mut input) {
        Ok(Some(n)) => show(&mut output, &mut errors, &input[..n]),
        Ok(None) => {
            let refusal = Refusal {
                number: 1,
                place: 0,
            };
            refuse(&mut output, &mut errors, refusal)
        }
        Err(_) => streams::say(&mut errors, b"opbwalk: standard input cannot be read\n"),
    }
}
