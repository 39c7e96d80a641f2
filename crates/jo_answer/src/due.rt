// The answer to an input.
ghost use Rattle.std.specs.Prelude.{◌≡◌, ◌≤◌, length, List, ℕ, IfOk};
ghost use Rattle.jo_value.specs.declared.limits.TheConstants.{MOST_INPUT};
ghost use Rattle.jo_parse.specs.Parsed.{trees_of};
ghost use Rattle.jo_parse_grammar.specs.Sets.{IsAcceptedSet};
ghost use Rattle.jo_answer.specs.Answers.{IsDue, IsVerdictOf};
ghost use Rattle.jo_answer.specs.Texts.{IsPrintable, ended_of, text_of};

use crate::RunOptions;
use crate::lines::{SIZE_LINE, refusal_line};
use crate::text::Due;
use jo_model::Outcome;
use jo_parse::{ParseFault, ScriptSet, parse_set};
use jo_run::{EndedScript, Gate, run_set};
use jo_value::MOST_INPUT;
use std::alloc::{AllocError, Global};
use std::sync::Wait;
use std::thread::Threads;

/// What is said of an input.
#[derive(Clone, Copy, Debug, PartialEq, Eq)]
pub enum Verdict {
    /// Its scripts were run, and all are done.
    Done,
    /// Its scripts were run, and some ended by a fault.
    EndedWithFaults,
    /// It is no accepted set.
    Refused,
    /// It has too many bytes.
    TooLarge,
}

/// What is said of an input, and what is due for it.
#[derive(Drop)]
pub struct Answer {
    pub verdict: Verdict,
    pub due: Due,
}

/// The answer to an input, which may be a byte longer than an input may be. An accepted set is run as the order says, each script in
/// a thread of its own, and with this gate before its calls. Once a script runs no memory is asked for.
pub fn answer_to<R: Threads + Wait + Sync, G: Gate>(
    rt: &R,
    alloc: Global,
    bytes: &[u8],
    options: RunOptions,
    gate: &G,
) -> Result<Answer, AllocError>
    ensures whole { IfOk result (λ answer. (answer.verdict ≡ Verdict.TooLarge → ⊥) → length bytes.now ≤ MOST_INPUT) }
    ensures due { IfOk result (λ answer. IsDue answer.verdict options bytes.now (ended_of answer.due) (text_of answer.due)) }
    ensures printable { IfOk result (λ answer. IsPrintable answer.due) }
{
    if bytes.len() > MOST_INPUT {
        return Ok(Answer {
            verdict: Verdict::TooLarge,
            due: Due::Line(SIZE_LINE.to_vec(alloc)?),
        });
    }
    match parse_set(alloc, bytes) {
        Ok(set) => {
            let answer = answer_to_set(rt, alloc, set, options, gate)?;
            Ok(answer)
        }
        Err(ParseFault::Refused(refusal)) => Ok(Answer {
            verdict: Verdict::Refused,
            due: Due::Line(refusal_line(alloc, refusal)?),
        }),
        Err(ParseFault::Memory) => Err(AllocError),
    }
}

// The answer to an accepted set.
fn answer_to_set<R: Threads + Wait + Sync, G: Gate>(
    rt: &R,
    alloc: Global,
    set: ScriptSet,
    options: RunOptions,
    gate: &G,
) -> Result<Answer, AllocError>
    ensures due { IfOk result (λ answer. (bytes : List ℕ) → IsAcceptedSet bytes (trees_of set) set.1
        → IsDue answer.verdict options bytes (ended_of answer.due) (text_of answer.due)) }
    ensures printable { IfOk result (λ answer. IsPrintable answer.due) }
{
    let ended = run_set(rt, alloc, &set, options.turns, gate)?;
    Ok(Answer {
        verdict: verdict_of(&ended.scripts),
        due: Due::Output {
            set,
            ended,
            form: options.form,
        },
    })
}

// What is said of scripts that were run.
fn verdict_of(scripts: &[EndedScript]) -> Verdict
    ensures { IsVerdictOf result scripts.now }
{
    if scripts.iter().all(|script| script.outcome == Outcome::Done) {
        Verdict::Done
    } else {
        Verdict::EndedWithFaults
    }
}
