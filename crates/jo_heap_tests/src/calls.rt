// Calls, and the objects that they leave.
use crate::asks::Ask::{Cas, Delete, Get, Has, Names, New, Put};
use crate::asks::Want::{Done, Flag, Found, Made, NoNames, TooManyNames};
use crate::asks::{Ask, Want, expect, fill, make};
use crate::held::{delete_held, put_held, try_held};
use crate::side_by_side::{COUNTER, expect_marks, raise_both};
use crate::two_scripts::{Opened, close_two, element, name, open_two};
use jo_value::{Key, NameId, ObjId, Value};
use std::test::Fail;

const ONE: Value = Value::Int(1);

const TWO: Value = Value::Int(2);

const UNDEFINED: Want = Found(Value::Undefined);

#[test]
fn a_new_heap_has_the_shared_object_alone(rt: HostRuntime) -> Result<(), Fail> {
    let Opened {
        heap,
        first,
        one,
        two,
    } = open_two(rt.alloc())?;
    let closed = close_two(heap, first, one, two);
    let objects = (closed.objects(0), closed.objects(1), closed.objects(2));
    assert_eq!(rt; objects, (1, 0, 0));
    assert_eq!(rt; name(&rt, &closed, ObjId::SHARED, 0), None);
    assert_eq!(rt; element(&rt, &closed, ObjId::SHARED, 0), None);
    Ok(())
}

#[test]
fn a_held_block_is_changed(rt: HostRuntime) -> Result<(), Fail> {
    let Opened {
        heap,
        first,
        mut one,
        mut two,
    } = open_two(rt.alloc())?;
    put_held(&rt, &heap, &mut one, ObjId::SHARED, NameId(7), true);
    put_held(&rt, &heap, &mut two, ObjId::SHARED, NameId(8), false);
    delete_held(&rt, &heap, &mut one, ObjId::SHARED, NameId(7));
    try_held(&rt, &heap, &mut one, ObjId::SHARED);
    let closed = close_two(heap, first, one, two);
    let left = Some((NameId(8), Value::Bool(false)));
    assert_eq!(rt; name(&rt, &closed, ObjId::SHARED, 0), left);
    assert_eq!(rt; name(&rt, &closed, ObjId::SHARED, 1), None);
    Ok(())
}

const O: ObjId = ObjId { pass: 1, serial: 0 };

const FIRST: Key = Key::Index(0);

const ROWS: [(Ask, Want); 22] = [
    (Get(FIRST), UNDEFINED),
    (Has(FIRST), Flag(false)),
    (Put(FIRST, ONE), Done),
    (Get(FIRST), Found(ONE)),
    (Has(FIRST), Flag(true)),
    (Names, NoNames),
    // A swap replaces the expected value alone, and gives what it found.
    (Cas(FIRST, TWO, Value::Null), Found(ONE)),
    (Cas(FIRST, ONE, TWO), Found(ONE)),
    (Get(FIRST), Found(TWO)),
    // The elements grow, and what was there stays.
    (Put(Key::Index(5), ONE), Done),
    (Put(Key::Index(1_023), Value::Null), Done),
    (Get(FIRST), Found(TWO)),
    (Get(Key::Index(5)), Found(ONE)),
    (Get(Key::Index(1_023)), Found(Value::Null)),
    (Has(Key::Index(6)), Flag(false)),
    // A delete answers true both ways.
    (Delete(FIRST), Flag(true)),
    (Delete(FIRST), Flag(true)),
    (Delete(Key::Index(5)), Flag(true)),
    (Delete(Key::Index(1_023)), Flag(true)),
    (Get(FIRST), UNDEFINED),
    (Names, NoNames),
    (New, Made(ObjId { pass: 1, serial: 1 })),
];

#[test]
fn calls_are_answered_in_turn(rt: HostRuntime) -> Result<(), Fail> {
    let Opened {
        heap,
        first,
        mut one,
        two,
    } = open_two(rt.alloc())?;
    let o = make(&rt, &heap, &mut one);
    assert_eq!(rt; o, O);
    expect(&rt, &heap, &mut one, o, &ROWS);
    try_held(&rt, &heap, &mut one, o);
    let closed = close_two(heap, first, one, two);
    let objects = (closed.objects(0), closed.objects(1), closed.objects(2));
    assert_eq!(rt; objects, (1, 2, 0));
    assert_eq!(rt; name(&rt, &closed, O, 0), None);
    assert_eq!(rt; element(&rt, &closed, O, 0), None);
    Ok(())
}

// The names of an object that has as many as it may.
const FULL: [(Ask, Want); 5] = [
    (Put(Key::Name(NameId(64)), ONE), TooManyNames),
    (Put(Key::Name(NameId(63)), TWO), Done),
    (Put(FIRST, TWO), Done),
    (Delete(Key::Name(NameId(0))), Flag(true)),
    (Put(Key::Name(NameId(64)), Value::Null), Done),
];

#[test]
fn the_sixty_fifth_name_is_refused(rt: HostRuntime) -> Result<(), Fail> {
    let Opened {
        heap,
        first,
        mut one,
        two,
    } = open_two(rt.alloc())?;
    fill(&rt, &heap, &mut one, ObjId::SHARED, 64, ONE);
    expect(&rt, &heap, &mut one, ObjId::SHARED, &FULL);
    let closed = close_two(heap, first, one, two);
    let names = (
        name(&rt, &closed, ObjId::SHARED, 0),
        name(&rt, &closed, ObjId::SHARED, 62),
        name(&rt, &closed, ObjId::SHARED, 63),
    );
    assert_eq!(rt; names.0, Some((NameId(1), ONE)));
    assert_eq!(rt; names.1, Some((NameId(63), TWO)));
    assert_eq!(rt; names.2, Some((NameId(64), Value::Null)));
    Ok(())
}

#[test]
fn threads_raise_a_counter(rt: HostRuntime) -> Result<(), Fail> {
    let Opened {
        heap,
        first,
        mut one,
        mut two,
    } = open_two(rt.alloc())?;
    let start = [(Put(COUNTER, Value::Int(0)), Done)];
    expect(&rt, &heap, &mut one, ObjId::SHARED, &start);
    raise_both(&rt, &heap, &mut one, &mut two, 20_000);
    let end = [(Get(COUNTER), Found(Value::Int(40_000)))];
    expect(&rt, &heap, &mut two, ObjId::SHARED, &end);
    let closed = close_two(heap, first, one, two);
    expect_marks(&rt, &closed);
    assert_eq!(rt; name(&rt, &closed, ObjId::SHARED, 1), None);
    Ok(())
}
