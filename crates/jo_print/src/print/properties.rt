// The properties of an object: its indexes in rising order, and then its names in order of creation.
ghost use Rattle.std.specs.Prelude.{◌≡◌, ◌<◌, length, map, codes};
ghost use Rattle.std.specs.Option.{is_none};
ghost use Rattle.jo_io.specs.Printers.{Prints};
ghost use Rattle.jo_model.specs.Printed.{joined};
ghost use Rattle.jo_model.specs.Rendered.{element_bytes, name_bytes};
ghost use Rattle.jo_model.specs.Heaps.{object_of, IsBorn};
ghost use Rattle.jo_print.specs.inner.Fragments.{properties_bytes};
ghost use Rattle.jo_print.specs.inner.Series.{lead, series};

use crate::print::quoted::print_quoted;
use crate::print::value::print_property_value;
use jo_io::{Printer, Sink};
use jo_model::Objects;
use jo_value::{NameId, ObjId, TextId, Texts, Value};

// Prints an object's properties, with a comma between each two.
pub fn print_properties<K: Sink, H: Objects>(
    printer: &mut Printer<'_, K>,
    texts: &Texts,
    heap: &H,
    object: ObjId,
)
    requires { IsBorn (H.heap heap.now) object }
    ensures { Prints K.held K.faults printer.old printer.new
        (properties_bytes texts.now (object_of (H.heap heap.now) object)) }
{
    print_elements(printer, texts, heap, object);
    let is_bare = heap.element_from(object, 0).is_none();
    print_names(printer, texts, heap, object, is_bare);
}

// Prints the properties with an index.
fn print_elements<K: Sink, H: Objects>(
    printer: &mut Printer<'_, K>,
    texts: &Texts,
    heap: &H,
    object: ObjId,
)
    requires { IsBorn (H.heap heap.now) object }
    ensures { Prints K.held K.faults printer.old printer.new
        (joined (codes ", ") (map (element_bytes texts.now) (object_of (H.heap heap.now) object).elements)) }
{
    let mut is_first = true;
    let mut low = 0;
    while let Some((index, value)) = heap.element_from(object, low) {
        print_lead(printer, is_first);
        print_element(printer, texts, index, value);
        is_first = false;
        low = u32::from(index) + 1;
    }
}

// Prints the properties with a name, where `is_first` says whether nothing stands before them.
fn print_names<K: Sink, H: Objects>(
    printer: &mut Printer<'_, K>,
    texts: &Texts,
    heap: &H,
    object: ObjId,
    is_first: bool,
)
    requires { IsBorn (H.heap heap.now) object }
    ensures { Prints K.held K.faults printer.old printer.new
        (series is_first (map (name_bytes texts.now) (object_of (H.heap heap.now) object).names)) }
{
    let mut is_first = is_first;
    let mut at = 0;
    while let Some((name, value)) = heap.name(object, at) {
        print_lead(printer, is_first);
        print_name(printer, texts, name, value);
        is_first = false;
        at += 1;
    }
}

// Prints what stands before a property.
fn print_lead<K: Sink>(printer: &mut Printer<'_, K>, is_first: bool)
    ensures { Prints K.held K.faults printer.old printer.new (lead is_first) }
{
    if !is_first {
        printer.put(b", ");
    }
}

// Prints a property with an index.
fn print_element<K: Sink>(printer: &mut Printer<'_, K>, texts: &Texts, index: u16, value: Value)
    ensures { Prints K.held K.faults printer.old printer.new (element_bytes texts.now (index, value)) }
{
    printer.put_integer(index);
    printer.put(b": ");
    print_property_value(printer, texts, value);
}

// Prints a property with a name.
fn print_name<K: Sink>(printer: &mut Printer<'_, K>, texts: &Texts, name: NameId, value: Value)
    ensures { Prints K.held K.faults printer.old printer.new (name_bytes texts.now (name, value)) }
{
    print_quoted(printer, texts.bytes(TextId(name.0)));
    printer.put(b": ");
    print_property_value(printer, texts, value);
}
