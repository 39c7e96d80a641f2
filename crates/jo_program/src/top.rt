// The top call.
ghost use Rattle.std.specs.Prelude.{◌≡◌, ◌≢◌, ◌⊎◌, ◌+◌, ℕ, None, Some, IfSome, IfOk, OnOk, OnErr, IsErrOf};
ghost use Rattle.jo_value.specs.declared.limits.TheConstants.{MOST_INPUT};
ghost use Rattle.jo_io.specs.Causes.{Counts};
ghost use Rattle.jo_io.specs.Bytes.{ConsumesAtMost};
ghost use Rattle.jo_answer.specs.declared.due.Verdict.TheVariants as verdict;
ghost use Rattle.jo_answer.specs.Answers.{IsDue};
ghost use Rattle.jo_answer.specs.Texts.{IsPrintable, ended_of, text_of};
ghost use Rattle.jo_made.specs.Made.{made};
ghost use Rattle.jo_program.specs.Words.{command_of};
ghost use Rattle.jo_program.specs.Run.{made_options, status_of, IsAnswer, IsAnswerBy, IsAnswerTo, IsDueOutput, IsJudged, IsMadeUnlessFault, IsUsage, Reads, Writes, WritesPart};
ghost use Rattle.jo_program.specs.inner.Keeping.{IsKept, IsPrinted};

use crate::Status;
use crate::command::{Command, command_of};
use jo_answer::{Answer, Form, RunOptions, Verdict, answer_to};
use jo_io::{Failed, ReadError, Sink, Source, read_all, write_all};
use jo_made::made_set;
use jo_run::{Ended, Gate};
use jo_value::{DEFAULT_TURNS, MOST_INPUT};
use std::alloc::{AllocError, Global};
use std::sync::Wait;
use std::thread::Threads;

const USAGE_LINE: &[u8] = b"usage: jsobj run [--stats] [--turns T] | make N | run-made N\n";

/// What became of a run of the program: the status, and what is left of the scripts where they were run.
#[derive(Drop)]
pub struct Kept {
    pub status: Status,
    pub ended: Option<Ended>,
}

/// All that the program does: reads a set of scripts from the source, runs it, each script in a thread of its own, and writes
/// its output to the sink. Other words ask for counts beside it, or for a set that is made by its number.
///
/// `words` are the arguments without the program's own name. The gate stands before each call of a script on the heap. The source
/// and the sink may be any; what the clauses say of bytes they say of those that tell their bytes. What is left of the scripts is
/// handed back also where the writing failed. Once a script runs no memory is taken.
pub fn run<R: Threads + Wait + Sync, S: Source, K: Sink, G: Gate>(
    rt: &R,
    alloc: Global,
    words: &[String],
    source: &mut S,
    sink: &mut K,
    gate: &G,
) -> Kept
    // What was printed and what is left fits one legal history of the set that was read or made, and reads locked dictionaries
    // alone.
    ensures done { result.status ≡ Status.Done
        → Writes (IsAnswerTo words.now verdict.Done (S.left source.old) (S.left source.new) result.ended)
        (K.held sink.old) (K.held sink.new) }
    ensures faulty { result.status ≡ Status.EndedWithFaults
        → Writes (IsAnswerTo words.now verdict.EndedWithFaults (S.left source.old) (S.left source.new) result.ended)
        (K.held sink.old) (K.held sink.new) }
    ensures refused { result.status ≡ Status.Refused
        → Writes (IsAnswerTo words.now verdict.Refused (S.left source.old) (S.left source.new) result.ended)
        (K.held sink.old) (K.held sink.new) }
    ensures too_large { result.status ≡ Status.TooLarge
        → Writes (IsAnswerTo words.now verdict.TooLarge (S.left source.old) (S.left source.new) result.ended)
        (K.held sink.old) (K.held sink.new) }
    ensures usage { result.status ≡ Status.Usage
        → Writes (IsUsage words.now result.ended) (K.held sink.old) (K.held sink.new) }

    // The words and the whole input decide whether scripts are run.
    ensures judged { Reads (command_of words.now) → IfSome (S.left source.old) (IsJudged result.status) }
    ensures judged_made { (number : ℕ) → command_of words.now ≡ Some (Command.RunMade number)
        → IsJudged result.status (made number) × (result.status ≢ Status.TooLarge) }
    ensures made { (number : ℕ) → command_of words.now ≡ Some (Command.Make number)
        → IsMadeUnlessFault result.status }
    ensures other_words { command_of words.now ≡ None
        → (result.status ≡ Status.Usage) ⊎ (result.status ≡ Status.WriteFault) }

    // A fault is answered where it comes, and nothing else counts one.
    ensures read_fault { Counts (result.status ≡ Status.ReadFault)
        (S.faults source.old) (S.faults source.new) }
    ensures write_fault { Counts (result.status ≡ Status.WriteFault)
        (K.faults sink.old) (K.faults sink.new) }
    ensures part { result.status ≡ Status.WriteFault
        → WritesPart (IsDueOutput words.now (S.left source.old) (S.left source.new) result.ended)
        (K.held sink.old) (K.held sink.new) }
    ensures unwritten { (result.status ≡ Status.ReadFault) ⊎ (result.status ≡ Status.Memory)
        → (command_of words.now ≢ None) × (sink.new ≡ sink.old) × (result.ended ≡ None) }

    ensures unread { (Reads (command_of words.now) → ⊥) → (source.new ≡ source.old) × (result.status ≢ Status.ReadFault) }
    ensures bound { ConsumesAtMost (S.left source.old) (S.left source.new) (MOST_INPUT + 1) }
    ensures early { result.status ≡ Status.ReadFault
        → ConsumesAtMost (S.left source.old) (S.left source.new) MOST_INPUT }
{
    match command_of(words) {
        Some(command) => run_command(rt, alloc, command, source, sink, gate),
        None => write_text(sink, USAGE_LINE, Status::Usage),
    }
}

// Does what a command line asks for.
fn run_command<R: Threads + Wait + Sync, S: Source, K: Sink, G: Gate>(
    rt: &R,
    alloc: Global,
    command: Command,
    source: &mut S,
    sink: &mut K,
    gate: &G,
) -> Kept
    ensures kept { IsKept (λ said. IsAnswerBy command said (S.left source.old) (S.left source.new) result.ended)
        (K.held sink.old) (K.held sink.new) result.status }
    ensures judged { Reads (Some command) → IfSome (S.left source.old) (IsJudged result.status) }
    ensures judged_made { (number : ℕ) → command ≡ Command.RunMade number
        → IsJudged result.status (made number) × (result.status ≢ Status.TooLarge) }
    ensures made { (number : ℕ) → command ≡ Command.Make number → IsMadeUnlessFault result.status }
    ensures read_fault { Counts (result.status ≡ Status.ReadFault) (S.faults source.old) (S.faults source.new) }
    ensures write_fault { Counts (result.status ≡ Status.WriteFault) (K.faults sink.old) (K.faults sink.new) }
    ensures unwritten { (result.status ≡ Status.ReadFault) ⊎ (result.status ≡ Status.Memory)
        → (sink.new ≡ sink.old) × (result.ended ≡ None) }
    ensures unread { (Reads (Some command) → ⊥) → (source.new ≡ source.old) × (result.status ≢ Status.ReadFault) }
    ensures bound { ConsumesAtMost (S.left source.old) (S.left source.new) (MOST_INPUT + 1) }
    ensures early { result.status ≡ Status.ReadFault
        → ConsumesAtMost (S.left source.old) (S.left source.new) MOST_INPUT }
{
    match command {
        Command::Run(options) => run_read(rt, alloc, options, source, sink, gate),
        Command::Make(number) => make(alloc, number, sink),
        Command::RunMade(number) => run_made(rt, alloc, number, sink, gate),
    }
}

// Reads a set, runs it, and writes what is due.
fn run_read<R: Threads + Wait + Sync, S: Source, K: Sink, G: Gate>(
    rt: &R,
    alloc: Global,
    options: RunOptions,
    source: &mut S,
    sink: &mut K,
    gate: &G,
) -> Kept
    ensures kept { IsKept (λ said. IsAnswer options said (S.left source.old) (S.left source.new) result.ended)
        (K.held sink.old) (K.held sink.new) result.status }
    ensures judged { IfSome (S.left source.old) (IsJudged result.status) }
    ensures read_fault { Counts (result.status ≡ Status.ReadFault) (S.faults source.old) (S.faults source.new) }
    ensures write_fault { Counts (result.status ≡ Status.WriteFault) (K.faults sink.old) (K.faults sink.new) }
    ensures unwritten { (result.status ≡ Status.ReadFault) ⊎ (result.status ≡ Status.Memory)
        → (sink.new ≡ sink.old) × (result.ended ≡ None) }
    ensures bound { ConsumesAtMost (S.left source.old) (S.left source.new) (MOST_INPUT + 1) }
    ensures early { result.status ≡ Status.ReadFault
        → ConsumesAtMost (S.left source.old) (S.left source.new) MOST_INPUT }
{
    match answer_of(rt, alloc, options, source, gate) {
        Ok(answer) => print_answer(answer, sink),
        Err(ReadError::Failed) => without_run(Status::ReadFault),
        Err(ReadError::Memory) => without_run(Status::Memory),
    }
}

// Writes the made set with a number.
fn make<K: Sink>(alloc: Global, number: u32, sink: &mut K) -> Kept
    ensures kept { IsKept (λ said written. (said ≡ Verdict.Done) × (result.ended ≡ None) × (written ≡ made number))
        (K.held sink.old) (K.held sink.new) result.status }
    ensures made { IsMadeUnlessFault result.status }
    ensures write_fault { Counts (result.status ≡ Status.WriteFault) (K.faults sink.old) (K.faults sink.new) }
    ensures unwritten { result.status ≡ Status.Memory → (sink.new ≡ sink.old) × (result.ended ≡ None) }
{
    match made_set(alloc, number) {
        Ok(set) => write_text(sink, &set, Status::Done),
        Err(AllocError) => without_run(Status::Memory),
    }
}

// Runs the made set with a number, and writes what is due.
fn run_made<R: Threads + Wait + Sync, K: Sink, G: Gate>(
    rt: &R,
    alloc: Global,
    number: u32,
    sink: &mut K,
    gate: &G,
) -> Kept
    ensures kept { IsKept (λ said. IsDue said (made_options number) (made number) result.ended)
        (K.held sink.old) (K.held sink.new) result.status }
    ensures judged { IsJudged result.status (made number) }
    ensures unread { result.status ≢ Status.ReadFault }
    ensures write_fault { Counts (result.status ≡ Status.WriteFault) (K.faults sink.old) (K.faults sink.new) }
    ensures unwritten { result.status ≡ Status.Memory → (sink.new ≡ sink.old) × (result.ended ≡ None) }
{
    match answer_to_made(rt, alloc, number, gate) {
        Ok(answer) => print_answer(answer, sink),
        Err(AllocError) => without_run(Status::Memory),
    }
}

// Runs the made set with a number: what is said of it, and what is due for it.
fn answer_to_made<R: Threads + Wait + Sync, G: Gate>(
    rt: &R,
    alloc: Global,
    number: u32,
    gate: &G,
) -> Result<Answer, AllocError>
    ensures due { IfOk result (λ answer. IsDue answer.verdict (made_options number) (made number)
        (ended_of answer.due) (text_of answer.due)) }
    ensures printable { IfOk result (λ answer. IsPrintable answer.due) }
{
    let options = RunOptions {
        turns: DEFAULT_TURNS,
        form: Form::Summary(number),
    };
    let set = made_set(alloc, number)?;
    let answer = answer_to(rt, alloc, &set, options, gate)?;
    Ok(answer)
}

// Writes what is due, and hands back what is left of a run.
fn print_answer<K: Sink>(answer: Answer, sink: &mut K) -> Kept
    requires { IsPrintable answer.due }
    ensures printed { IsPrinted (status_of answer.verdict) (text_of answer.due)
        (K.held sink.old) (K.held sink.new) result.status }
    ensures fault { Counts (result.status ≡ Status.WriteFault) (K.faults sink.old) (K.faults sink.new) }
    ensures ended { result.ended ≡ ended_of answer.due }
{
    let written = answer.due.print(sink);
    Kept {
        status: finish(written.result, status_of(answer.verdict)),
        ended: written.ended,
    }
}

// Writes a text where no script was run.
fn write_text<K: Sink>(sink: &mut K, text: &[u8], status: Status) -> Kept
    requires { status ≢ Status.WriteFault }
    ensures printed { IsPrinted status text.now (K.held sink.old) (K.held sink.new) result.status }
    ensures fault { Counts (result.status ≡ Status.WriteFault) (K.faults sink.old) (K.faults sink.new) }
    ensures ended { result.ended ≡ None }
{
    without_run(finish(write_all(sink, text), status))
}

// No script was run.
fn without_run(status: Status) -> Kept
    ensures { (result.status ≡ status) × (result.ended ≡ None) }
{
    Kept {
        status,
        ended: None,
    }
}

// Reads the input and runs it: what is said of it, and what is due for it.
fn answer_of<R: Threads + Wait + Sync, S: Source, G: Gate>(
    rt: &R,
    alloc: Global,
    options: RunOptions,
    source: &mut S,
    gate: &G,
) -> Result<Answer, ReadError>
    ensures due { IfOk result (λ answer. IsAnswer options answer.verdict
        (S.left source.old) (S.left source.new) (ended_of answer.due) (text_of answer.due)) }
    ensures printable { IfOk result (λ answer. IsPrintable answer.due) }
    ensures judged { IfOk result (λ answer.
        IfSome (S.left source.old) (IsJudged (status_of answer.verdict))) }
    ensures bound { ConsumesAtMost (S.left source.old) (S.left source.new) (MOST_INPUT + 1) }
    ensures failed { IsErrOf result ReadError.Failed
        → ConsumesAtMost (S.left source.old) (S.left source.new) MOST_INPUT }
    ensures cause { Counts (IsErrOf result ReadError.Failed)
        (S.faults source.old) (S.faults source.new) }
{
    let bytes = read_all(alloc, MOST_INPUT + 1, source)?;
    let answer = answer_to(rt, alloc, &bytes, options, gate)?;
    Ok(answer)
}

fn status_of(verdict: Verdict) -> Status
    ensures { result ≡ status_of verdict }
{
    match verdict {
        Verdict::Done => Status::Done,
        Verdict::EndedWithFaults => Status::EndedWithFaults,
        Verdict::Refused => Status::Refused,
        Verdict::TooLarge => Status::TooLarge,
    }
}

// The status where all was written, or the fault of writing.
fn finish(written: Result<(), Failed>, status: Status) -> Status
    ensures ok { OnOk written (result ≡ status) }
    ensures err { OnErr written (result ≡ Status.WriteFault) }
{
    match written {
        Ok(()) => status,
        Err(Failed) => Status::WriteFault,
    }
}
