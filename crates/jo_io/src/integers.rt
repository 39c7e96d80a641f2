// Integers in decimal.
ghost use Rattle.jo_io.specs.Printers.{Prints};

use crate::{Printer, Sink};
use itoa::{Buffer, Integer};

impl<'a, K: Sink> Printer<'a, K> {
    /// Prints an integer in decimal, with `-` before it where it is negative.
    pub fn put_integer<I: Integer>(&mut self, number: I)
        ensures { Prints K.held K.faults self.old self.new (I.text number) }
    {
        self.put(Buffer::new().format(number).as_bytes());
    }
}
