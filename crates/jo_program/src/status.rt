// How a run ended.
ghost use Rattle.std.specs.Prelude.{◌≡◌};
ghost use Rattle.std.specs.Process.{exit_status};

use std::process::ExitCode;

/// How a run ended.
#[derive(Clone, Copy, Debug, PartialEq)]
pub enum Status {
    /// All scripts are done, and what is due was written; or a made set was written.
    Done,
    /// The words are no command line of the program: the usage line was written.
    Usage,
    /// The input is no accepted set: the refusal line was written.
    Refused,
    /// The input has too many bytes: the size line was written.
    TooLarge,
    /// A read failed: nothing was written.
    ReadFault,
    /// A write failed: the beginning of what is due was written, and not all of it.
    WriteFault,
    /// A script ended by a fault: what is due was written.
    EndedWithFaults,
    /// No memory was left: nothing was written.
    Memory,
}

impl Status {
    ghost use Rattle.jo_program.specs.Run.{exit_code_of};

    /// The exit code of the program.
    pub fn exit_code(self) -> ExitCode
        ensures { exit_status result ≡ exit_code_of self }
    {
        ExitCode::from(match self {
            Status::Done => 0,
            Status::Usage => 1,
            Status::Refused => 2,
            Status::TooLarge => 3,
            Status::ReadFault => 4,
            Status::WriteFault => 5,
            Status::EndedWithFaults => 6,
            Status::Memory => 7,
        })
    }
}
