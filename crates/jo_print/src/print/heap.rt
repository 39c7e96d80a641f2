// All objects: a line for each, in order of pass and serial.
ghost use Rattle.std.specs.Prelude.{◌≡◌, ◌<◌, length};
ghost use Rattle.std.specs.List.{enumerate_from, flat_map};
ghost use Rattle.jo_io.specs.Printers.{Prints};
ghost use Rattle.jo_model.specs.Rendered.{object_line, heap_bytes};
ghost use Rattle.jo_model.specs.Heaps.{objects_of, object_of, IsBorn};

use crate::print::properties::print_properties;
use crate::print::value::print_object;
use jo_io::{Printer, Sink};
use jo_model::Objects;
use jo_value::{ObjId, Texts};

/// Prints the lines of all objects, in order of pass and serial.
pub fn print_heap<K: Sink, H: Objects>(printer: &mut Printer<'_, K>, texts: &Texts, heap: &H)
    ensures { Prints K.held K.faults printer.old printer.new
        (heap_bytes texts.now (H.heap heap.now)) }
{
    for pass in 0..heap.passes() {
        print_objects(printer, texts, heap, pass);
    }
}

// Prints the lines of a pass's objects.
fn print_objects<K: Sink, H: Objects>(
    printer: &mut Printer<'_, K>,
    texts: &Texts,
    heap: &H,
    pass: u8,
)
    requires { pass < length (H.heap heap.now) }
    ensures { Prints K.held K.faults printer.old printer.new
        (flat_map (object_line texts.now pass) (enumerate_from 0 (objects_of (H.heap heap.now) pass))) }
{
    for serial in 0..heap.objects(pass) {
        print_object_line(printer, texts, heap, ObjId { pass, serial });
    }
}

// Prints the line of an object.
fn print_object_line<K: Sink, H: Objects>(
    printer: &mut Printer<'_, K>,
    texts: &Texts,
    heap: &H,
    object: ObjId,
)
    requires { IsBorn (H.heap heap.now) object }
    ensures { Prints K.held K.faults printer.old printer.new
        (object_line texts.now object.pass (object.serial, object_of (H.heap heap.now) object)) }
{
    print_object(printer, object);
    printer.put(b" {");
    print_properties(printer, texts, heap, object);
    printer.put(b"}\n");
}
