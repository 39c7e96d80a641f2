// What is left is printed.
ghost use Rattle.std.specs.Prelude.{◌<◌, IsTrue};
ghost use Rattle.jo_model.specs.Heaps.{IsBorn};
ghost use Rattle.jo_heap.specs.Closing.{heap_left};

use crate::worker::Seen;
use jo_heap::Closed;
use jo_value::{ObjId, Value};
use std::io;

/// What a thread has read of its own object.
pub(crate) fn print_seen(rt: &impl Print, seen: Seen) -> io::Result<()> {
    print_value(rt, seen.size)?;
    println!(rt; " {} {}", seen.placed, seen.names)
}

/// Each object, pass by pass.
pub(crate) fn print_heap(rt: &impl Print, closed: &Closed) -> io::Result<()> {
    for pass in 0..closed.passes() {
        for serial in 0..closed.objects(pass) {
            print_object(rt, closed, ObjId { pass, serial })?;
        }
    }
    Ok(())
}

// An object with its names in order of creation, and then its indexes.
fn print_object(rt: &impl Print, closed: &Closed, o: ObjId) -> io::Result<()>
    requires { o.pass < closed.now.passes }
{
    if !is_born(closed, o) {
        return Ok(());
    }
    print_value(rt, Value::Object(o))?;
    for at in 0..64 {
        let Some((name, value)) = closed.name(o, at) else {
            break;
        };
        print!(rt; " name {}: ", name.0)?;
        print_value(rt, value)?;
    }
    for at in 0..closed.index_end(o) {
        if let Some(value) = closed.element(o, at) {
            print!(rt; " {}: ", at)?;
            print_value(rt, value)?;
        }
    }
    print!(rt; "\n")
}

// Whether a closed heap has an object.
fn is_born(closed: &Closed, o: ObjId) -> bool
    requires { o.pass < closed.now.passes }
    ensures { IsTrue result → IsBorn (heap_left closed.now) o }
{
    o.serial < closed.objects(o.pass)
}

fn print_value(rt: &impl Print, value: Value) -> io::Result<()> {
    match value {
        Value::Int(number) => print!(rt; "{}", number),
        Value::Bool(flag) => print!(rt; "{}", flag),
        Value::Object(o) => print!(rt; "#{}.{}", o.pass, o.serial),
        _ => print!(rt; "-"),
    }
}
