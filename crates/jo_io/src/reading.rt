// Reading an input to its end.
ghost use Rattle.std.specs.Prelude.{◌≡◌, ◌-◌, ◌≤◌, ◌<◌, IfOk, IsErrOf, length};
ghost use Rattle.std.specs.Io.KnownBytes.{Consumes, IsAtEnd, Keeps};
ghost use Rattle.jo_io.specs.Causes.{Counts};
ghost use Rattle.jo_io.specs.Bytes.{ConsumesAtMost, ReadsMore};
ghost use Rattle.jo_io.specs.declared.reading.ReadError.TheVariants as read_error;

use crate::traits::{Failed, Source};
use std::alloc::{AllocError, Global};

/// Why an input was not read.
#[derive(Clone, Copy, Debug, PartialEq)]
pub enum ReadError {
    /// No memory was left for its bytes.
    Memory,
    /// A read failed.
    Failed,
}

impl From<AllocError> for ReadError {
    ghost from_gives = { λ _ error. error ≡ read_error.Memory };

    fn from(_error: AllocError) -> ReadError {
        ReadError::Memory
    }
}

impl From<Failed> for ReadError {
    ghost from_gives = { λ _ error. error ≡ read_error.Failed };

    fn from(_error: Failed) -> ReadError {
        ReadError::Failed
    }
}

// The most bytes of one read.
const MOST_READ: usize = 512;

/// All bytes that are left, or the first `limit` of them where there are more.
///
/// After an `Err` the source has lost what was read: at most `limit` bytes, and fewer after a failed read.
pub fn read_all<S: Source>(
    alloc: Global,
    limit: usize,
    source: &mut S,
) -> Result<Vec<u8>, ReadError>
    ensures read { IfOk result (λ v. Consumes (S.left source.old) (S.left source.new) v.items) }
    ensures whole { IfOk result (λ v. length v.items < limit → IsAtEnd (S.left source.new)) }
    ensures most { IfOk result (λ v. length v.items ≤ limit) }
    ensures bound { ConsumesAtMost (S.left source.old) (S.left source.new) limit }
    ensures failed { IsErrOf result ReadError.Failed
        → ConsumesAtMost (S.left source.old) (S.left source.new) (limit - 1) }
    ensures cause { Counts (IsErrOf result ReadError.Failed)
        (S.faults source.old) (S.faults source.new) }
{
    let mut bytes = Vec::new(alloc);
    let mut buffer = [0u8; MOST_READ];
    while bytes.len() < limit {
        let most = MOST_READ.min(limit - bytes.len());
        if read_some(source, &mut buffer[..most], &mut bytes)? == 0 {
            break;
        }
    }
    Ok(bytes)
}

// One read, whose bytes go after the others: how many they are.
fn read_some<S: Source>(
    source: &mut S,
    buffer: &mut [u8],
    bytes: &mut Vec<u8>,
) -> Result<usize, ReadError>
    ensures read { IfOk result (λ n. ReadsMore (S.left source.old) (S.left source.new)
        (length buffer.old) n bytes.old.items bytes.new.items) }
    ensures bound { ConsumesAtMost (S.left source.old) (S.left source.new) (length buffer.old) }
    ensures failed { IsErrOf result ReadError.Failed
        → Keeps (S.left source.old) (S.left source.new) }
    ensures cause { Counts (IsErrOf result ReadError.Failed)
        (S.faults source.old) (S.faults source.new) }
{
    let count = source.read(buffer)?;
    bytes.extend_from_slice(&buffer[..count])?;
    Ok(count)
}
