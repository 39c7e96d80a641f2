// A call on the shared heap, as scripts make it.
ghost use Rattle.std.specs.Prelude.{◌≡◌};
ghost use Rattle.jo_model.specs.Logs.{after};
ghost use Rattle.jo_model.specs.Valid.{IsValidCall};
ghost use Rattle.jo_guard.specs.Ready.{IsReady};
ghost use Rattle.jo_guard.specs.Placing.{HasPlaced};
ghost use Rattle.jo_write.specs.Answers.{delete_reply, new_reply, put_reply};

use jo_model::{Call, Reply, Spent};
use jo_read::{get, has, names};
use jo_steps::{Heap, Pass};
use jo_value::ObjId;
use jo_write::{NewFault, PutFault, cas, delete, new_object, put};
use std::sync::Wait;

/// Makes a call on the heap, with a pass that is ready for calls. The answer is the reply to it.
pub fn make_call<R: Wait>(rt: &R, heap: &Heap, pass: &mut Pass, call: Call) -> Reply
    requires ready { IsReady heap.now pass.old }
    requires valid { IsValidCall (after heap.now.passes pass.old.view.past.seen) call }
    ensures ready { IsReady heap.now pass.new }
    ensures placed { HasPlaced heap.now.passes call result pass.old.view pass.new.view }
{
    match call {
        Call::New => made(new_object(heap, pass)),
        Call::Get { object, key } => Reply::Found(get(rt, heap, pass, object, key)),
        Call::Has { object, key } => Reply::Flag(has(rt, heap, pass, object, key)),
        Call::Names { object } => Reply::Names(names(rt, heap, pass, object)),
        Call::Put { object, key, value } => set(put(rt, heap, pass, object, key, value)),
        Call::Delete { object, key } => deleted(delete(rt, heap, pass, object, key)),
        Call::Cas {
            object,
            key,
            expected,
            desired,
        } => Reply::Found(cas(rt, heap, pass, object, key, expected, desired)),
    }
}

fn made(answer: Result<ObjId, NewFault>) -> Reply
    ensures { result ≡ new_reply answer }
{
    match answer {
        Ok(object) => Reply::Made(object),
        Err(NewFault::ObjectsSpent) => Reply::ObjectsSpent,
        Err(NewFault::Spent(spent)) => Reply::Spent(spent),
    }
}

fn set(answer: Result<(), PutFault>) -> Reply
    ensures { result ≡ put_reply answer }
{
    match answer {
        Ok(()) => Reply::Done,
        Err(PutFault::TooManyNames) => Reply::TooManyNames,
        Err(PutFault::Spent(spent)) => Reply::Spent(spent),
    }
}

fn deleted(answer: Result<(), Spent>) -> Reply
    ensures { result ≡ delete_reply answer }
{
    match answer {
        Ok(()) => Reply::Flag(true),
        Err(spent) => Reply::Spent(spent),
    }
}
