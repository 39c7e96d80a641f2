// Objects and values of properties.
ghost use Rattle.jo_io.specs.Printers.{Prints};
ghost use Rattle.jo_model.specs.Printed.{object_bytes};
ghost use Rattle.jo_model.specs.Rendered.{property_value_bytes};

use crate::print::quoted::print_quoted;
use jo_io::{Printer, Sink};
use jo_value::{ObjId, Texts, Value};

// Prints an object, by its pass and serial.
pub fn print_object<K: Sink>(printer: &mut Printer<'_, K>, object: ObjId)
    ensures { Prints K.held K.faults printer.old printer.new (object_bytes object) }
{
    printer.put(b"#");
    printer.put_integer(object.pass);
    printer.put(b".");
    printer.put_integer(object.serial);
}

// Prints the value of a property, which is quoted where it is a text.
pub fn print_property_value<K: Sink>(printer: &mut Printer<'_, K>, texts: &Texts, value: Value)
    ensures { Prints K.held K.faults printer.old printer.new (property_value_bytes texts.now value) }
{
    match value {
        Value::Undefined => printer.put(b"undefined"),
        Value::Null => printer.put(b"null"),
        Value::Bool(true) => printer.put(b"true"),
        Value::Bool(false) => printer.put(b"false"),
        Value::Int(number) => printer.put_integer(number),
        Value::Text(id) => print_quoted(printer, texts.bytes(id)),
        Value::Object(object) => print_object(printer, object),
    }
}
