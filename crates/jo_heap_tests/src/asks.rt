// Calls on one object, one after another, with the replies that are wanted.
ghost use Rattle.jo_model.specs.Valid.{IsValidKey};
ghost use Rattle.jo_guard.specs.Ready.{IsReady};
ghost use Rattle.jo_heap_tests.specs.Working.{IsCallFor, IsPlain, MayCall, Stays};

use jo_model::{Call, Reply};
use jo_run::make_call;
use jo_steps::{Heap, Pass};
use jo_value::{Key, MOST_INDEX, NameId, ObjId, Value};
use jo_write::new_object;
use std::process::Abort;
use std::sync::Wait;

/// A call on an object, or a new object.
#[derive(Clone, Copy)]
pub(crate) enum Ask {
    New,
    Get(Key),
    Has(Key),
    Names,
    Put(Key, Value),
    Delete(Key),
    Cas(Key, Value, Value),
}

/// What is wanted of it.
#[derive(Clone, Copy)]
pub(crate) enum Want {
    Made(ObjId),
    Found(Value),
    Flag(bool),
    NoNames,
    // Two names, in this order.
    Names(NameId, NameId),
    Done,
    TooManyNames,
}

fn within(rt: &impl Abort, key: Key) -> Key
    ensures { IsValidKey result }
{
    if let Key::Index(index) = key {
        assert!(rt; u32::from(index) <= MOST_INDEX);
    }
    key
}

// Objects are no values here, since nothing says that they are there.
fn plain(rt: &impl Abort, value: Value) -> Value
    ensures { IsPlain result }
{
    assert!(rt; value.is_in_range());
    if let Value::Object(_) = value {
        return Value::Null;
    }
    value
}

impl Ask {
    // The call on an object.
    fn on(self, rt: &impl Abort, o: ObjId) -> Call
        ensures { IsCallFor o result }
    {
        match self {
            Ask::New => Call::New,
            Ask::Get(key) => Call::Get {
                object: o,
                key: within(rt, key),
            },
            Ask::Has(key) => Call::Has {
                object: o,
                key: within(rt, key),
            },
            Ask::Names => Call::Names { object: o },
            Ask::Put(key, value) => Call::Put {
                object: o,
                key: within(rt, key),
                value: plain(rt, value),
            },
            Ask::Delete(key) => Call::Delete {
                object: o,
                key: within(rt, key),
            },
            Ask::Cas(key, expected, desired) => Call::Cas {
                object: o,
                key: within(rt, key),
                expected: plain(rt, expected),
                desired: plain(rt, desired),
            },
        }
    }
}

impl Want {
    fn is(self, reply: &Reply) -> bool {
        match reply {
            Reply::Made(o) => matches!(self, Want::Made(wanted) if *o == wanted),
            Reply::Found(value) => matches!(self, Want::Found(wanted) if *value == wanted),
            Reply::Flag(flag) => matches!(self, Want::Flag(wanted) if *flag == wanted),
            Reply::Names(names) => match self {
                Want::NoNames => names.as_slice().is_empty(),
                Want::Names(a, b) => names.as_slice() == [a, b].as_slice(),
                _ => false,
            },
            Reply::Done => matches!(self, Want::Done),
            Reply::TooManyNames => matches!(self, Want::TooManyNames),
            _ => false,
        }
    }
}

/// A new object of the pass.
pub(crate) fn make(rt: &impl Abort, heap: &Heap, pass: &mut Pass) -> ObjId
    requires ready { IsReady heap.now pass.old }
    ensures may { MayCall heap.now result pass.new }
    ensures stays { Stays pass.old.view pass.new.view }
{
    match new_object(heap, pass) {
        Ok(o) => o,
        Err(_) => panic!(rt; "no object was made"),
    }
}

/// Makes a call on an object.
pub(crate) fn call<R: Abort + Wait>(
    rt: &R,
    heap: &Heap,
    pass: &mut Pass,
    o: ObjId,
    ask: Ask,
) -> Reply
    requires may { MayCall heap.now o pass.old }
    ensures may { MayCall heap.now o pass.new }
    ensures stays { Stays pass.old.view pass.new.view }
{
    let call = ask.on(rt, o);
    make_call(rt, heap, pass, call)
}

/// Makes these calls, and compares their replies.
pub(crate) fn expect<R: Abort + Wait>(
    rt: &R,
    heap: &Heap,
    pass: &mut Pass,
    o: ObjId,
    rows: &[(Ask, Want)],
)
    requires may { MayCall heap.now o pass.old }
    ensures may { MayCall heap.now o pass.new }
    ensures stays { Stays pass.old.view pass.new.view }
{
    for (row, (ask, want)) in rows.iter().enumerate() {
        let reply = call(rt, heap, pass, o, *ask);
        assert!(rt; want.is(&reply), "row {row}");
    }
}

/// Puts a value under `names` names that are not there.
pub(crate) fn fill<R: Abort + Wait>(
    rt: &R,
    heap: &Heap,
    pass: &mut Pass,
    o: ObjId,
    names: u16,
    value: Value,
)
    requires may { MayCall heap.now o pass.old }
    ensures may { MayCall heap.now o pass.new }
    ensures stays { Stays pass.old.view pass.new.view }
{
    for id in 0..names {
        let put = Ask::Put(Key::Name(NameId(id)), value);
        expect(rt, heap, pass, o, &[(put, Want::Done)]);
    }
}
