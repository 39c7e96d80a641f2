// The line that sums up a made set.
ghost use Rattle.std.specs.Prelude.{◌≡◌, count_by};
ghost use Rattle.jo_heap.specs.Closing.{heap_left};
ghost use Rattle.jo_io.specs.Printers.{Prints};
ghost use Rattle.jo_run.specs.Sets.{outcomes_of};
ghost use Rattle.jo_answer.specs.Forms.{is_done, summary_line};

use jo_io::{Printer, Sink};
use jo_model::Outcome;
use jo_run::{Ended, EndedScript};
use jo_totals::totals;

/// Prints the line that sums up the made set with this number: how many scripts there were and how many of them are done, and
/// what the heap has in all.
pub(crate) fn print_summary<K: Sink>(printer: &mut Printer<'_, K>, number: u32, ended: &Ended)
    ensures { Prints K.held K.faults printer.old printer.new
        (summary_line number (outcomes_of ended.now.scripts.items) (heap_left ended.now.closed)) }
{
    let all = totals(&ended.closed);
    printer.put(b"made ");
    printer.put_integer(number);
    printer.put(b": scripts ");
    printer.put_integer(ended.scripts.len());
    printer.put(b", done ");
    printer.put_integer(done_among(&ended.scripts));
    printer.put(b", objects ");
    printer.put_integer(all.objects);
    printer.put(b", names ");
    printer.put_integer(all.names);
    printer.put(b", elements ");
    printer.put_integer(all.elements);
    printer.put(b", sum ");
    printer.put_integer(all.sum);
    printer.put(b"\n");
}

// How many of these scripts are done.
fn done_among(scripts: &[EndedScript]) -> usize
    ensures { result ≡ count_by is_done (outcomes_of scripts.now) }
{
    scripts
        .iter()
        .filter(|script| script.outcome == Outcome::Done)
        .count()
}
