// Calls on the reference heap, one after another, with ample memory.
use jo_model::{Call, PlainHeap, Reply};
use jo_value::{Key, NameId, ObjId, TextId, Value};
use std::alloc::AllocError;
use std::process::Abort;
use std::test::Fail;

// A call of pass 1, on the first object that it makes.
#[derive(Clone, Copy)]
enum Ask {
    New,
    Get(Key),
    Has(Key),
    Names,
    Put(Key, Value),
    Delete(Key),
    Cas(Key, Value, Value),
}

// What is wanted of it.
#[derive(Clone, Copy)]
enum Want {
    Made(u16),
    Found(Value),
    Flag(bool),
    // Two names, in this order.
    Names(NameId, NameId),
    Done,
    TooManyNames,
    ObjectsSpent,
}

const O: ObjId = ObjId { pass: 1, serial: 0 };

impl Ask {
    fn call(self) -> Call {
        match self {
            Ask::New => Call::New,
            Ask::Get(key) => Call::Get { object: O, key },
            Ask::Has(key) => Call::Has { object: O, key },
            Ask::Names => Call::Names { object: O },
            Ask::Put(key, value) => Call::Put {
                object: O,
                key,
                value,
            },
            Ask::Delete(key) => Call::Delete { object: O, key },
            Ask::Cas(key, expected, desired) => Call::Cas {
                object: O,
                key,
                expected,
                desired,
            },
        }
    }
}

impl Want {
    fn is(self, reply: &Reply) -> bool {
        match reply {
            Reply::Made(o) => matches!(self, Want::Made(serial) if *o == ObjId { pass: 1, serial }),
            Reply::Found(value) => matches!(self, Want::Found(wanted) if *value == wanted),
            Reply::Flag(flag) => matches!(self, Want::Flag(wanted) if *flag == wanted),
            Reply::Names(names) => {
                matches!(self, Want::Names(a, b) if names.as_slice() == [a, b].as_slice())
            }
            Reply::Done => matches!(self, Want::Done),
            Reply::TooManyNames => matches!(self, Want::TooManyNames),
            Reply::ObjectsSpent => matches!(self, Want::ObjectsSpent),
            Reply::Spent(_) => false,
        }
    }
}

fn answer(rt: &impl Abort, heap: &mut PlainHeap, ask: Ask) -> Result<Reply, AllocError> {
    let call = ask.call();
    assert!(rt; heap.passes() > 1);
    assert!(rt; heap.accepts(call));
    heap.call(1, call)
}

// Whether the call gets the reply that is wanted, and that fits it.
fn is_answered(
    rt: &impl Abort,
    heap: &mut PlainHeap,
    ask: Ask,
    want: Want,
) -> Result<bool, AllocError> {
    let reply = answer(rt, heap, ask)?;
    Ok(want.is(&reply) && reply.fits(ask.call()))
}

fn check(rt: &impl Abort, heap: &mut PlainHeap, rows: &[(Ask, Want)]) -> Result<(), AllocError> {
    for (row, (ask, want)) in rows.iter().enumerate() {
        assert!(rt; heap.accepts(ask.call()), "row {row} is no valid call");
        assert!(rt; is_answered(rt, heap, *ask, *want)?, "row {row}");
    }
    Ok(())
}

fn name(rt: &impl Abort, heap: &PlainHeap, at: u8) -> Option<(NameId, Value)> {
    assert!(rt; heap.is_born(O));
    heap.name(O, at)
}

fn element(rt: &impl Abort, heap: &PlainHeap, at: u16) -> Option<Value> {
    assert!(rt; heap.is_born(O));
    heap.element(O, at)
}

const A: Key = Key::Name(NameId(0));

const B: Key = Key::Name(NameId(1));

const C: Key = Key::Name(NameId(2));

const ONE: Value = Value::Int(1);

const TWO: Value = Value::Int(2);

const THREE: Value = Value::Int(3);

const TEXT: Value = Value::Text(TextId(7));

const OTHER_TEXT: Value = Value::Text(TextId(8));

const UNDEFINED: Want = Want::Found(Value::Undefined);

const ROWS: [(Ask, Want); 33] = [
    (Ask::New, Want::Made(0)),
    // A property is what was put there, and undefined where nothing was.
    (Ask::Get(A), UNDEFINED),
    (Ask::Has(A), Want::Flag(false)),
    (Ask::Put(A, ONE), Want::Done),
    (Ask::Put(B, TWO), Want::Done),
    (Ask::Get(A), Want::Found(ONE)),
    (Ask::Has(A), Want::Flag(true)),
    (Ask::Names, Want::Names(NameId(0), NameId(1))),
    // A delete answers true both ways, and a name put again stands last.
    (Ask::Delete(A), Want::Flag(true)),
    (Ask::Delete(C), Want::Flag(true)),
    (Ask::Get(A), UNDEFINED),
    (Ask::Put(A, THREE), Want::Done),
    (Ask::Names, Want::Names(NameId(1), NameId(0))),
    // A put of a name that is there keeps its place.
    (Ask::Put(B, ONE), Want::Done),
    (Ask::Names, Want::Names(NameId(1), NameId(0))),
    // Indexes are other keys, and no names.
    (Ask::Put(Key::Index(3), TWO), Want::Done),
    (Ask::Put(Key::Index(1), THREE), Want::Done),
    (Ask::Put(Key::Index(1_023), TEXT), Want::Done),
    (Ask::Get(Key::Index(1)), Want::Found(THREE)),
    (Ask::Get(Key::Index(0)), UNDEFINED),
    (Ask::Names, Want::Names(NameId(1), NameId(0))),
    (Ask::Delete(Key::Index(3)), Want::Flag(true)),
    (Ask::Has(Key::Index(3)), Want::Flag(false)),
    // A swap replaces the expected value alone, gives what it found, and adds nothing.
    (Ask::Cas(A, TWO, ONE), Want::Found(THREE)),
    (Ask::Get(A), Want::Found(THREE)),
    (Ask::Cas(A, THREE, TEXT), Want::Found(THREE)),
    (Ask::Cas(A, OTHER_TEXT, ONE), Want::Found(TEXT)),
    (Ask::Get(A), Want::Found(TEXT)),
    (Ask::Cas(A, TEXT, Value::Undefined), Want::Found(TEXT)),
    (Ask::Has(A), Want::Flag(true)),
    (Ask::Cas(C, Value::Undefined, ONE), UNDEFINED),
    (Ask::Has(C), Want::Flag(false)),
    (Ask::New, Want::Made(1)),
];

#[test]
fn calls_are_answered_in_turn(rt: HostRuntime) -> Result<(), Fail> {
    let mut heap = PlainHeap::new(rt.alloc(), 2)?;
    check(&rt, &mut heap, &ROWS)?;
    assert_eq!(rt; element(&rt, &heap, 1), Some(THREE));
    assert_eq!(rt; element(&rt, &heap, 3), None);
    assert_eq!(rt; name(&rt, &heap, 0), Some((NameId(1), ONE)));
    assert_eq!(rt; name(&rt, &heap, 2), None);
    Ok(())
}

const LAST: Key = Key::Name(NameId(64));

const FULL: [(Ask, Want); 5] = [
    (Ask::Put(LAST, ONE), Want::TooManyNames),
    (Ask::Put(Key::Name(NameId(63)), TWO), Want::Done),
    (Ask::Put(Key::Index(0), TWO), Want::Done),
    (Ask::Delete(A), Want::Flag(true)),
    (Ask::Put(LAST, THREE), Want::Done),
];

// An object with 64 names.
fn fill(rt: &impl Abort, heap: &mut PlainHeap) -> Result<(), AllocError> {
    answer(rt, heap, Ask::New)?;
    for id in 0..64 {
        answer(rt, heap, Ask::Put(Key::Name(NameId(id)), ONE))?;
    }
    Ok(())
}

#[test]
fn the_sixty_fifth_name_is_refused(rt: HostRuntime) -> Result<(), Fail> {
    let mut heap = PlainHeap::new(rt.alloc(), 2)?;
    fill(&rt, &mut heap)?;
    check(&rt, &mut heap, &FULL)?;
    assert_eq!(rt; name(&rt, &heap, 0), Some((NameId(1), ONE)));
    assert_eq!(rt; name(&rt, &heap, 63), Some((NameId(64), THREE)));
    Ok(())
}

#[test]
fn a_pass_makes_4096_objects_and_no_more(rt: HostRuntime) -> Result<(), Fail> {
    let mut heap = PlainHeap::new(rt.alloc(), 2)?;
    for serial in 0..4_096 {
        assert!(rt;
            is_answered(&rt, &mut heap, Ask::New, Want::Made(serial))?,
            "{serial}"
        );
    }
    check(&rt, &mut heap, &[(Ask::New, Want::ObjectsSpent)])?;
    Ok(())
}
