// From the arguments and the streams of a process to its exit code.
ghost use Rattle.std.specs.Prelude.{◌≡◌, drop};

use crate::{Status, run};
use jo_io::{StdSink, StdSource};
use jo_run::OpenGate;
use std::alloc::AllocError;
use std::io::ErrorKind;
use std::process::ExitCode;
use std::rt::Env;
use std::sync::Wait;
use std::thread::Threads;
use std::{env, io};

/// All that `main` does: what the arguments ask for, from standard input to standard output. The
/// answer is the exit code.
pub fn start<R: AllocGlobal + Env + Input + Print + Threads + Wait + Sync>(rt: &R) -> ExitCode {
    let status = match arguments(rt) {
        Ok(arguments) => {
            let kept = run(
                rt,
                rt.alloc(),
                words_of(&arguments),
                &mut StdSource::new(rt.reader()),
                &mut StdSink::new(io::writer(rt)),
                &OpenGate,
            );
            kept.status
        }
        Err(AllocError) => Status::Memory,
    };
    status.exit_code()
}

// The arguments of the process, its own name first. std reads them at once, so where one is not
// UTF-8 there are none.
fn arguments<R: AllocGlobal + Env>(rt: &R) -> Result<Vec<String>, AllocError> {
    match env::args(rt) {
        Ok(arguments) => arguments.collect(rt.alloc()),
        Err(error) if error.kind() == ErrorKind::OutOfMemory => Err(AllocError),
        Err(_) => Ok(Vec::new(rt.alloc())),
    }
}

// The words are the arguments after the program's own name.
fn words_of(arguments: &[String]) -> &[String]
    ensures { result.now ≡ drop 1 arguments.now }
{
    match arguments {
        [] => &[],
        [_name, words @ ..] => words,
    }
}
