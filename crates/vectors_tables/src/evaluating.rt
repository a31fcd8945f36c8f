// A row of a table, evaluated. Assumes nothing.
ghost use Rattle.std.specs.Prelude.{◌≤◌, length, IfSome};

use definitions::Refusal;
use std::io;
use std::io::Write;
use tables::Table;
use vectors_columns::{WORDS, column};
use vectors_shown::{say, say_refusal};
use vectors_words::Words;
use verdicts::Evaluated;

fn show_evaluated<W: Write>(output: &mut W, answer: Result<Evaluated, Refusal>) -> io::Result<()> {
    match answer {
        Ok(Evaluated::Constraint { sum, holds, ones }) => {
            let holds = u8::from(holds);
            write!(output, " sum {sum} {holds} {ones}")
        }
        Ok(Evaluated::Objective { value, ones }) => write!(output, " value {value} {ones}"),
        Err(why) => say_refusal(output, why),
    }
}

fn evaluate<W: Write>(
    output: &mut W,
    row: usize,
    values: &[u64],
    known: &[u64],
    table: Table<'_>,
) -> io::Result<()> {
    show_evaluated(output, evaluator::evaluate(table, row, values))?;
    say(output, b" |")?;
    show_evaluated(output, evaluator::evaluate_known(table, row, values, known))?;
    say(output, b" |")?;
    show_evaluated(output, evaluator::judge(table, row, values, known))
}

// The row of such a case, and how many words it has at the front of each buffer; or none.
#[derive(Clone, Copy)]
struct Asked {
    row: usize,
    values: usize,
    known: usize,
}

fn asked_of(mut words: Words<'_>, values: &mut [u64], known: &mut [u64]) -> Option<Asked>
    ensures values { IfSome result (λ a. a.values ≤ length values.new) }
    ensures known { IfSome result (λ a. a.known ≤ length known.new) }
{
    let asked = Asked {
        row: words.natural(u64::MAX)? as usize,
        values: column(&mut words, values)?,
        known: column(&mut words, known)?,
    };
    words.is_end().then_some(asked)
}

pub(crate) fn evaluate_case<W: Write>(
    output: &mut W,
    words: Words<'_>,
    table: Table<'_>,
) -> io::Result<bool> {
    let mut values = [0u64; WORDS];
    let mut known = [0u64; WORDS];
    let Some(asked) = asked_of(words, &mut values, &mut known) else {
        return Ok(false);
    };
    let held = asked.values;
    let told = asked.known;
    evaluate(output, asked.row, &values[0..held], &known[0..told], table)?;
    Ok(true)
}
