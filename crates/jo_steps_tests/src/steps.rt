// Steps, and the words that they leave.
ghost use Rattle.std.specs.Prelude.{◌≡◌, length};

use crate::births::{bear, fill_block};
use crate::locks::{expect_empty, lock_shared, put_five};
use crate::turns::take_turns_both;
use crate::two_passes::{Two, close_two, open_two};
use jo_steps::{ClosedWords, Pass};
use std::process::Abort;
use std::test::Fail;

// How many words a heap of two passes has.
const WORDS: u32 = 2_179_075;

// The number of the first word of storage, where there are two passes.
const STORAGE: u32 = 81_923;

// The number of the cell of the shared object, and its word: a dictionary of pass 0 at address 1, without its lock.
const SHARED_CELL: (u32, u64) = (40_963, 3_096_224_743_882_752);

// Each of these words, by number, is as it is wanted.
fn expect_words(rt: &impl Abort, closed: &ClosedWords, rows: &[(u32, u64)])
    requires { length closed.now.words ≡ WORDS }
{
    for &(at, word) in rows {
        assert!(rt; at < WORDS);
        assert_eq!(rt; closed.word(at), word, "word {at}");
    }
}

// Loads, stores and tries of a lock.
fn counts(pass: &Pass) -> (u64, u64, u64) {
    let counts = pass.counts();
    (counts.loads, counts.stores, counts.locks)
}

#[test]
fn a_put_is_in_the_words(rt: HostRuntime) -> Result<(), Fail> {
    let Two {
        heap,
        first,
        mut second,
    } = open_two(rt.alloc())?;
    let held = lock_shared(&rt, &heap, &mut second);
    expect_empty(&rt, &heap, &mut second, &held);
    put_five(&heap, &mut second, held);
    assert_eq!(rt; counts(&second), (3, 4, 1));
    let closed = close_two(heap, first, second);
    // The header, one name, the name 7, and 5, which is tag 4 and a content of 2^53 + 5.
    let block = [
        (STORAGE + 1, 64),
        (STORAGE + 2, 1),
        (STORAGE + 3, 7),
        (STORAGE + 4, 72_057_594_037_927_980),
    ];
    expect_words(&rt, &closed, &block);
    expect_words(&rt, &closed, &[SHARED_CELL]);
    Ok(())
}

#[test]
fn a_birth_is_counted(rt: HostRuntime) -> Result<(), Fail> {
    let Two {
        heap,
        first,
        mut second,
    } = open_two(rt.alloc())?;
    assert_eq!(rt; (second.used(), second.objects()), (0, 0));
    fill_block(&heap, &mut second);
    assert_eq!(rt; (second.used(), second.objects()), (130, 0));
    bear(&heap, &mut second);
    assert_eq!(rt; (second.used(), second.objects()), (130, 1));
    assert_eq!(rt; counts(&second), (0, 3, 0));
    let closed = close_two(heap, first, second);
    // The header of its block, and its cell: structure 4,096, address 2^20, owner 1, a dictionary.
    expect_words(
        &rt,
        &closed,
        &[(STORAGE + 1_048_576, 64), (61_443, 3_100_691_509_809_152)],
    );
    Ok(())
}

#[test]
fn turns_under_a_lock_are_not_lost(rt: HostRuntime) -> Result<(), Fail> {
    let Two {
        heap,
        mut first,
        mut second,
    } = open_two(rt.alloc())?;
    take_turns_both(&rt, &heap, &mut first, &mut second, 50_000);
    let (one, other) = (counts(&first), counts(&second));
    // Each turn has two stores, one of them the release, and at least one try of the lock.
    assert_eq!(rt; (one.1, other.1), (100_000, 100_000));
    assert!(rt; one.2 >= 50_000 && other.2 >= 50_000);
    let closed = close_two(heap, first, second);
    expect_words(
        &rt,
        &closed,
        &[SHARED_CELL, (STORAGE + 1, 64), (STORAGE + 130, 100_000)],
    );
    Ok(())
}
