// What a gate is asked.
use crate::runs::{RUN, run_behind};
use jo_program::Status;
use jo_run::Gate;
use std::sync::atomic::Ordering::SeqCst;
use std::sync::atomic::{AtomicBool, AtomicU64};
use std::test::Fail;

// Notes the number of the last call of each of two scripts. Where a call has another number than the next one of its script, or
// is one of another script, the flag `stray` is raised.
#[derive(Drop)]
struct Notes {
    one: AtomicU64,
    two: AtomicU64,
    stray: AtomicBool,
}

impl Notes {
    fn note(&self, last: &AtomicU64, call: u64) {
        let before = last.swap(call, SeqCst);
        if before.checked_add(1) != Some(call) {
            self.stray.store(true, SeqCst);
        }
    }
}

impl Gate for Notes {
    fn pass(&self, thread: u32, call: u64) {
        match thread {
            1 => self.note(&self.one, call),
            2 => self.note(&self.two, call),
            _ => self.stray.store(true, SeqCst),
        }
    }
}

// A put, a has and a list of names; a new object, a get, a cas, a put and a delete; and no call.
const SCRIPTS: &str = "shared.a = 1; print('a' in shared); printNames(shared);
%%
let o = {}; print(o.b, cas(o, 'b', undefined, 1)); o.b = 2; print(delete o.b);
%%
print(7);";

const OUTPUT: &str =
    "1| true\n1| a\n1= done\n2| undefined undefined\n2| true\n2= done\n3| 7\n3= done\n#0.0 {\"a\": 1}\n#2.0 {}\n";

#[test]
fn a_gate_is_asked_once_for_each_call_in_its_turn(rt: HostRuntime) -> Result<(), Fail> {
    let notes = Notes {
        one: AtomicU64::new(0),
        two: AtomicU64::new(0),
        stray: AtomicBool::new(false),
    };
    let ran = run_behind(&rt, rt.alloc(), RUN, SCRIPTS, &notes)?;
    assert_eq!(rt; (ran.status, ran.text.as_str()), (Status::Done, OUTPUT));
    assert!(rt; !notes.stray.load(SeqCst), "a call came out of its turn");
    assert_eq!(rt; (notes.one.load(SeqCst), notes.two.load(SeqCst)), (3, 5));
    Ok(())
}
