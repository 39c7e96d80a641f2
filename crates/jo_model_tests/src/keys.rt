// Which keys numbers and texts are.
use jo_model::{Call, PlainHeap};
use jo_value::{InternFault, Key, KeyOutside, NameId, ObjId, TextId, Texts, Value};
use std::alloc::AllocError;
use std::process::Abort;
use std::test::Fail;

const INTS: [(i64, Result<Key, KeyOutside>); 4] = [
    (0, Ok(Key::Index(0))),
    (1_023, Ok(Key::Index(1_023))),
    (1_024, Err(KeyOutside)),
    (-1, Err(KeyOutside)),
];

#[test]
fn numbers_are_keys_up_to_the_limit(rt: HostRuntime) -> Result<(), Fail> {
    for (number, want) in INTS {
        assert_eq!(rt; Key::of_int(number), want, "{number}");
    }
    Ok(())
}

// A text, and the index that it is; `None` is no key, and a number above the limit stands for a name.
const TEXTS: [(&str, Result<Option<u16>, KeyOutside>); 9] = [
    ("5", Ok(Some(5))),
    ("05", Ok(None)),
    ("0", Ok(Some(0))),
    ("1023", Ok(Some(1_023))),
    ("1024", Err(KeyOutside)),
    ("4294967294", Err(KeyOutside)),
    ("4294967295", Ok(None)),
    ("+5", Ok(None)),
    ("", Ok(None)),
];

// Whether a text is such a key, once it has an id.
fn is_key(
    texts: &mut Texts,
    text: &str,
    index: Result<Option<u16>, KeyOutside>,
) -> Result<bool, InternFault> {
    let id = texts.intern(text)?;
    let want = match index {
        Ok(Some(index)) => Ok(Key::Index(index)),
        Ok(None) => Ok(Key::Name(NameId(id.0))),
        Err(outside) => Err(outside),
    };
    Ok(texts.key(id) == want)
}

#[test]
fn texts_are_indexes_or_names(rt: HostRuntime) -> Result<(), Fail> {
    let mut texts = Texts::new(rt.alloc());
    for (text, index) in TEXTS {
        assert!(rt; is_key(&mut texts, text, index)?, "{text}");
    }
    assert_eq!(rt; texts.key(TextId(9)), Err(KeyOutside));
    Ok(())
}

// The property with this key, once it was put on the shared object.
fn put_shared(rt: &impl Abort, heap: &mut PlainHeap, key: Key) -> Result<(), AllocError> {
    let put = Call::Put {
        object: ObjId::SHARED,
        key,
        value: Value::Int(1),
    };
    assert!(rt; heap.passes() > 1);
    assert!(rt; heap.accepts(put));
    heap.call(1, put)?;
    Ok(())
}

fn first_name(rt: &impl Abort, heap: &PlainHeap) -> Option<(NameId, Value)> {
    assert!(rt; heap.is_born(ObjId::SHARED));
    heap.name(ObjId::SHARED, 0)
}

#[test]
fn a_number_past_the_array_indexes_is_a_name(rt: HostRuntime) -> Result<(), Fail> {
    let mut texts = Texts::new(rt.alloc());
    let mut heap = PlainHeap::new(rt.alloc(), 2)?;
    let id = texts.intern("4294967295")?;
    let name = NameId(id.0);
    assert_eq!(rt; texts.key(id), Ok(Key::Name(name)));
    put_shared(&rt, &mut heap, Key::Name(name))?;
    assert_eq!(rt; first_name(&rt, &heap), Some((name, Value::Int(1))));
    Ok(())
}
