// How scripts of one set end, beside each other.
use crate::runs::{RUN, Row, check};
use jo_program::Status;
use std::alloc::{AllocError, Global};
use std::test::Fail;

const ENDS: [Row<'static>; 2] = [
    Row {
        words: RUN,
        scripts: "let a = 9007199254740991; print(a); print(a + 1);\n%%\nprint(7);",
        status: Status::EndedWithFaults,
        text: "1| 9007199254740991\n1= NotSafe\n2| 7\n2= done\n#0.0 {}\n",
    },
    Row {
        words: &["run", "--turns", "5"],
        scripts: "let n = 0; while (true) { n += 1; shared.n = n; }\n%%\nshared.a = 1; delete shared.a; print(1);",
        status: Status::EndedWithFaults,
        text: "1= TurnsSpent\n2| 1\n2= done\n#0.0 {\"n\": 5}\n",
    },
];

#[test]
fn the_fault_of_a_script_leaves_the_other_one_alone(rt: HostRuntime) -> Result<(), Fail> {
    for row in ENDS {
        check(&rt, rt.alloc(), row)?;
    }
    Ok(())
}

const SEPARATORS: [Row<'static>; 3] = [
    Row {
        words: RUN,
        scripts: "%%\n",
        status: Status::Done,
        text: "1= done\n2= done\n#0.0 {}\n",
    },
    Row {
        words: RUN,
        scripts: "%%\n%%\n%%\n%%\n%%\n%%\n%%\n",
        status: Status::Done,
        text: "1= done\n2= done\n3= done\n4= done\n5= done\n6= done\n7= done\n8= done\n#0.0 {}\n",
    },
    Row {
        words: RUN,
        scripts: "%%\n%%\n%%\n%%\n%%\n%%\n%%\n%%\n",
        status: Status::Refused,
        text: "refused 6 TooManyScripts at 21\n",
    },
];

#[test]
fn eight_scripts_are_run_and_nine_are_not(rt: HostRuntime) -> Result<(), Fail> {
    for row in SEPARATORS {
        check(&rt, rt.alloc(), row)?;
    }
    Ok(())
}

// An object has 130 words, and a block with room for an index of 1,000 has 1,154 more. So 816 objects with
// such an element take 1,047,744 of the 1,048,576 words of a pass, and after one object more the next element
// finds too few.
const GROWING: &str =
    "let i = 0; while (i < 2000) { let o = {}; o[1000] = i; i += 1; }\n%%\nprint(7);";

// What is left: 816 objects that have such an element, and empty ones up to the end.
fn grown(alloc: Global, before: &str, end: u16) -> Result<String, AllocError> {
    let mut text = format!(in alloc; "{before}#0.0 {{}}\n")?;
    for serial in 0..816 {
        text.push_str(format!(in alloc; "#1.{serial} {{1000: {serial}}}\n")?.as_str())?;
    }
    for serial in 816..end {
        text.push_str(format!(in alloc; "#1.{serial} {{}}\n")?.as_str())?;
    }
    Ok(text)
}

#[test]
fn a_script_without_storage_ends_beside_one_that_is_done(rt: HostRuntime) -> Result<(), Fail> {
    let text = grown(rt.alloc(), "1= Spent\n2| 7\n2= done\n", 817)?;
    let row = Row {
        words: RUN,
        scripts: GROWING,
        status: Status::EndedWithFaults,
        text: text.as_str(),
    };
    check(&rt, rt.alloc(), row)?;
    Ok(())
}

// As many objects with such an element leave 832 words. Six empty objects take 780 of them, and 52 are too few for one more.
const MAKING: &str =
    "let i = 0; while (i < 816) { let o = {}; o[1000] = i; i += 1; } while (true) { let o = {}; }";

#[test]
fn a_script_without_storage_for_an_object_ends(rt: HostRuntime) -> Result<(), Fail> {
    let text = grown(rt.alloc(), "1= Spent\n", 822)?;
    let row = Row {
        words: RUN,
        scripts: MAKING,
        status: Status::EndedWithFaults,
        text: text.as_str(),
    };
    check(&rt, rt.alloc(), row)?;
    Ok(())
}

// An object whose indexes go up to 500 one after another gets a block with room for 4 elements, for 8, 16 and so on up to 512. With
// the one that it has when it is made, these take 2,190 words, so 478 objects take 1,046,820 of the 1,048,576 words of a pass. The
// next one finds too few for its last block. Only the indexes that need a new block are put here.
const UP_TO_500: &str = "let i = 0;
while (i < 1000) {
    let o = {3: 0, 7: 0, 15: 0, 31: 0, 63: 0, 127: 0, 255: 0};
    o[500] = i;
    i += 1;
}";

// What is left: 478 such objects, and one that has no room for its last index.
fn up_to_500(alloc: Global) -> Result<String, AllocError> {
    let first = "3: 0, 7: 0, 15: 0, 31: 0, 63: 0, 127: 0, 255: 0";
    let mut text = "1= Spent\n#0.0 {}\n".to_string(alloc)?;
    for serial in 0..478 {
        text.push_str(format!(in alloc; "#1.{serial} {{{first}, 500: {serial}}}\n")?.as_str())?;
    }
    text.push_str(format!(in alloc; "#1.478 {{{first}}}\n")?.as_str())?;
    Ok(text)
}

#[test]
fn a_thousand_objects_with_indexes_up_to_500_do_not_fit(rt: HostRuntime) -> Result<(), Fail> {
    let text = up_to_500(rt.alloc())?;
    let row = Row {
        words: RUN,
        scripts: UP_TO_500,
        status: Status::EndedWithFaults,
        text: text.as_str(),
    };
    check(&rt, rt.alloc(), row)?;
    Ok(())
}
