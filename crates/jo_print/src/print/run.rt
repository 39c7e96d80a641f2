// What a script printed, and how it ended.
ghost use Rattle.std.specs.Prelude.{◌≡◌, ◌++◌, ◌≤◌, ◌<◌, true, codes, decimal, length, take};
ghost use Rattle.jo_io.specs.Printers.{Prints};
ghost use Rattle.jo_model.specs.Rendered.{headed, outcome_bytes, run_bytes};
ghost use Rattle.jo_print.specs.inner.Lines.{line_len};

use jo_io::{Printer, Sink};
use jo_model::Outcome;

/// Prints the lines of a script, which are closed by line feeds, each after the script's pass,
/// and the line of its outcome.
pub fn print_run<K: Sink>(printer: &mut Printer<'_, K>, pass: u8, lines: &[u8], outcome: Outcome)
    ensures { Prints K.held K.faults printer.old printer.new
        (run_bytes pass lines.now (outcome_bytes outcome)) }
{
    print_lines(printer, pass, lines);
    printer.put_integer(pass);
    printer.put(b"= ");
    printer.put(outcome_word(outcome));
    printer.put(b"\n");
}

// Prints each line after the pass.
fn print_lines<K: Sink>(printer: &mut Printer<'_, K>, pass: u8, lines: &[u8])
    ensures { Prints K.held K.faults printer.old printer.new
        (headed (decimal pass ++ codes "| ") true lines.now) }
{
    let mut done = 0;
    while done < lines.len() {
        let line = first_line(&lines[done..]);
        print_line(printer, pass, line);
        done += line.len();
    }
}

// Prints a line after the pass.
fn print_line<K: Sink>(printer: &mut Printer<'_, K>, pass: u8, line: &[u8])
    ensures { Prints K.held K.faults printer.old printer.new
        (decimal pass ++ codes "| " ++ line.now) }
{
    printer.put_integer(pass);
    printer.put(b"| ");
    printer.put(line);
}

// The first line, with its line feed.
fn first_line(lines: &[u8]) -> &[u8]
    ensures { result.now ≡ take (line_len lines.now) lines.now }
{
    &lines[..line_len(lines)]
}

// How many bytes the first line has, with its line feed.
fn line_len(lines: &[u8]) -> usize
    ensures len { result ≡ line_len lines.now }
    ensures within { result ≤ length lines.now }
    ensures some { 0 < length lines.now → 0 < result }
{
    let found = lines.iter().position(|byte| *byte == b'\n');
    let feed = found.unwrap_or(lines.len());
    lines.len().min(feed + 1)
}

// The word for an outcome.
fn outcome_word(outcome: Outcome) -> &'static [u8]
    ensures { result.now ≡ outcome_bytes outcome }
{
    match outcome {
        Outcome::Done => b"done",
        Outcome::TypeFault => b"TypeFault",
        Outcome::NotSafe => b"NotSafe",
        Outcome::KeyOutside => b"KeyOutside",
        Outcome::TurnsSpent => b"TurnsSpent",
        Outcome::OutputFull => b"OutputFull",
        Outcome::TooManyNames => b"TooManyNames",
        Outcome::ObjectsSpent => b"ObjectsSpent",
        Outcome::Spent => b"Spent",
    }
}
