// What is due for an input: a line, or the output of its scripts.
ghost use Rattle.std.specs.Prelude.{◌≡◌, ◌≤◌, length, OnOk, OnErr};
ghost use Rattle.std.specs.Io.KnownBytes.{Appends};
ghost use Rattle.std.specs.List.{enumerate_from, flat_map};
ghost use Rattle.jo_value.specs.declared.limits.TheConstants.{MOST_SCRIPTS};
ghost use Rattle.jo_io.specs.Causes.{HasCause};
ghost use Rattle.jo_io.specs.Bytes.{AppendsPart};
ghost use Rattle.jo_io.specs.Printers.{Prints};
ghost use Rattle.jo_answer.specs.Texts.{IsPrintable, ended_bytes, ended_of, part_bytes, text_of, whole_bytes};
ghost use Rattle.jo_answer.specs.Forms.{counts_line};

use crate::Form;
use crate::summary::print_summary;
use jo_io::{Failed, Printer, Sink, write_all};
use jo_parse::ScriptSet;
use jo_print::{print_heap, print_run};
use jo_rule::Counts;
use jo_run::{Ended, EndedScript};
use jo_value::Texts;

/// What is due for an input. Its text is made as it is printed.
#[derive(Drop)]
pub enum Due {
    /// A line.
    Line(Vec<u8>),
    /// What is written of the scripts of a set that were run, by what they left.
    Output {
        set: ScriptSet,
        ended: Ended,
        form: Form,
    },
}

/// What became of what was due: whether it was written, and what is left of a run.
#[derive(Drop)]
pub struct Written {
    pub result: Result<(), Failed>,
    pub ended: Option<Ended>,
}

impl Due {
    /// Writes its text, and hands back what is left of a run. It takes no memory.
    ///
    /// Where the writing fails the sink has gained the first of these bytes, and not all.
    // It is taken whole, so that no caller drops the trees of a set.
    pub fn print<K: Sink>(self, sink: &mut K) -> Written
        requires { IsPrintable self }
        ensures ok { OnOk result.result (Appends (K.held sink.old) (K.held sink.new) (text_of self)) }
        ensures err { OnErr result.result (AppendsPart (K.held sink.old) (K.held sink.new) (text_of self)) }
        ensures cause { HasCause (K.faults sink.old) (K.faults sink.new) result.result }
        ensures ended { result.ended ≡ ended_of self }
    {
        match self {
            Due::Line(line) => Written {
                result: write_all(sink, &line),
                ended: None,
            },
            Due::Output { set, ended, form } => {
                let result = print_ended(sink, set.texts(), &ended, form);
                Written {
                    result,
                    ended: Some(ended),
                }
            }
        }
    }
}

// Writes what is due for scripts that were run, by what they left.
fn print_ended<K: Sink>(
    sink: &mut K,
    texts: &Texts,
    ended: &Ended,
    form: Form,
) -> Result<(), Failed>
    requires { length ended.now.scripts.items ≤ MOST_SCRIPTS }
    ensures ok { OnOk result (Appends (K.held sink.old) (K.held sink.new) (ended_bytes form texts.now ended.now)) }
    ensures err { OnErr result (AppendsPart (K.held sink.old) (K.held sink.new) (ended_bytes form texts.now ended.now)) }
    ensures cause { HasCause (K.faults sink.old) (K.faults sink.new) result }
{
    let mut printer = Printer::new(sink);
    print_form(&mut printer, texts, ended, form);
    printer.finish()
}

// Prints what is due for scripts that were run.
fn print_form<K: Sink>(printer: &mut Printer<'_, K>, texts: &Texts, ended: &Ended, form: Form)
    requires { length ended.now.scripts.items ≤ MOST_SCRIPTS }
    ensures { Prints K.held K.faults printer.old printer.new (ended_bytes form texts.now ended.now) }
{
    match form {
        Form::Output => print_whole(printer, texts, ended, false),
        Form::Counted => print_whole(printer, texts, ended, true),
        Form::Summary(number) => print_summary(printer, number, ended),
    }
}

// Prints the output of scripts, with their counts or without.
fn print_whole<K: Sink>(printer: &mut Printer<'_, K>, texts: &Texts, ended: &Ended, counted: bool)
    requires { length ended.now.scripts.items ≤ MOST_SCRIPTS }
    ensures { Prints K.held K.faults printer.old printer.new (whole_bytes counted texts.now ended.now) }
{
    print_scripts(printer, &ended.scripts, counted);
    print_heap(printer, texts, &ended.closed);
}

// Prints the parts of scripts, which are numbered from 1.
fn print_scripts<K: Sink>(printer: &mut Printer<'_, K>, scripts: &[EndedScript], counted: bool)
    requires { length scripts.now ≤ MOST_SCRIPTS }
    ensures { Prints K.held K.faults printer.old printer.new
        (flat_map (part_bytes counted) (enumerate_from 1 scripts.now)) }
{
    for (before, script) in scripts.iter().enumerate() {
        print_part(printer, before as u8 + 1, script, counted);
    }
}

// Prints the part of the script with this number.
fn print_part<K: Sink>(
    printer: &mut Printer<'_, K>,
    number: u8,
    script: &EndedScript,
    counted: bool,
)
    ensures { Prints K.held K.faults printer.old printer.new (part_bytes counted (number, script.now)) }
{
    print_run(printer, number, &script.lines, script.outcome);
    if counted {
        print_counts(printer, number, script.counts);
    }
}

// Prints the counts of the script with this number.
fn print_counts<K: Sink>(printer: &mut Printer<'_, K>, number: u8, counts: Counts)
    ensures { Prints K.held K.faults printer.old printer.new (counts_line number counts) }
{
    printer.put_integer(number);
    printer.put(b"# loads ");
    printer.put_integer(counts.loads);
    printer.put(b" stores ");
    printer.put_integer(counts.stores);
    printer.put(b" exchanges ");
    printer.put_integer(counts.exchanges);
    printer.put(b" locks ");
    printer.put_integer(counts.locks);
    printer.put(b"\n");
}
