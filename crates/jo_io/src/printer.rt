// Bytes on their way to a sink.
ghost use Rattle.std.specs.Prelude.{◌≡◌, ◌+◌, ◌<◌, ◌≤◌, [], length};
ghost use Rattle.arrayvec.specs.ArrayVec.{array_vec_len};
ghost use Rattle.jo_io.specs.declared.printer.TheConstants.{MOST_WAITING};
ghost use Rattle.jo_io.specs.Printing.{Advances, start, end};
ghost use Rattle.jo_io.specs.Printers.{printing, Prints};

use crate::{Failed, Sink, write_all};
use arrayvec::ArrayVec;

/// The most bytes that wait in a printer.
pub const MOST_WAITING: usize = 512;

/// Prints to a sink, through a buffer of fixed size. Once a write failed nothing more is written,
/// and `finish` tells it.
pub struct Printer<'a, K: Sink> {
    sink: &'a mut K,
    waiting: ArrayVec<u8, MOST_WAITING>,
    failed: bool,
}

impl<'a, K: Sink> Printer<'a, K> {
    /// A printer that printed nothing yet.
    pub fn new(sink: &'a mut K) -> Printer<'a, K>
        ensures same_reference { result.sink.ghost_name ≡ sink.entry.ghost_name }
        ensures at_start { printing K.held K.faults result ≡ start (K.held sink.old) (K.faults sink.old) }
    {
        Printer {
            sink,
            waiting: ArrayVec::new(),
            failed: false,
        }
    }

    /// Prints bytes.
    pub fn put(&mut self, bytes: &[u8])
        ensures { Prints K.held K.faults self.old self.new bytes.now }
    {
        self.make_room(bytes.len());
        if bytes.len() > MOST_WAITING {
            self.send(bytes);
        } else {
            self.keep(bytes);
        }
    }

    /// Writes what waits, and says whether all was written.
    pub fn finish(self) -> Result<(), Failed>
        ensures { Advances (printing K.held K.faults self.entry)
            (end (K.held self.exit.0.now) (K.faults self.exit.0.now) result) [] }
    {
        let Printer {
            sink,
            waiting,
            failed,
        } = self;
        if failed {
            return Err(Failed);
        }
        write_all(sink, &waiting)
    }

    // Makes room for `count` bytes, or for all that can wait.
    fn make_room(&mut self, count: usize)
        ensures printed { Prints K.held K.faults self.old self.new [] }
        ensures room { count ≤ MOST_WAITING → array_vec_len self.new.waiting + count ≤ MOST_WAITING }
        ensures none { MOST_WAITING < count → self.new.waiting.items ≡ [] }
    {
        if self.waiting.remaining_capacity() < count {
            self.flush();
        }
    }

    // Writes what waits, so that nothing waits any more.
    fn flush(&mut self)
        ensures printed { Prints K.held K.faults self.old self.new [] }
        ensures none { self.new.waiting.items ≡ [] }
    {
        if !self.failed {
            self.failed = write_all(self.sink, &self.waiting).is_err();
        }
        self.waiting.clear();
    }

    // Writes bytes at once, where none wait.
    fn send(&mut self, bytes: &[u8])
        requires { self.old.waiting.items ≡ [] }
        ensures { Prints K.held K.faults self.old self.new bytes.now }
    {
        if !self.failed {
            self.failed = write_all(self.sink, bytes).is_err();
        }
    }

    // Lets bytes wait, where there is room.
    fn keep(&mut self, bytes: &[u8])
        requires { array_vec_len self.old.waiting + length bytes.now ≤ MOST_WAITING }
        ensures { Prints K.held K.faults self.old self.new bytes.now }
    {
        let Ok(()) = self.waiting.try_extend_from_slice(bytes) else {
            unreachable!()
        };
    }
}
