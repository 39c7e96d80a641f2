// Texts between double quotes.
ghost use Rattle.std.specs.List.{flat_map};
ghost use Rattle.jo_io.specs.Printers.{Prints};
ghost use Rattle.jo_model.specs.Rendered.{quoted};
ghost use Rattle.jo_print.specs.inner.Fragments.{escaped};

use jo_io::{Printer, Sink};

// Prints a text between double quotes, with a backslash before each backslash and each double quote.
pub fn print_quoted<K: Sink>(printer: &mut Printer<'_, K>, text: &[u8])
    ensures { Prints K.held K.faults printer.old printer.new (quoted text.now) }
{
    printer.put(b"\"");
    print_all_escaped(printer, text);
    printer.put(b"\"");
}

// Prints each byte as it stands between quotes.
fn print_all_escaped<K: Sink>(printer: &mut Printer<'_, K>, text: &[u8])
    ensures { Prints K.held K.faults printer.old printer.new (flat_map escaped text.now) }
{
    for byte in text {
        print_escaped(printer, *byte);
    }
}

// Prints a byte, after a backslash where it is a double quote or a backslash itself.
fn print_escaped<K: Sink>(printer: &mut Printer<'_, K>, byte: u8)
    ensures { Prints K.held K.faults printer.old printer.new (escaped byte) }
{
    match byte {
        b'\\' | b'"' => printer.put(&[b'\\', byte]),
        _ => printer.put(&[byte]),
    }
}
