// Limits, from both sides.
use crate::runs::{Row, check, fine, times};
use jo_program::Status;
use std::alloc::{AllocError, Global};
use std::test::Fail;

const SIZE: &[u8] = b"refused: input over 1048576 bytes\n";

// ---- bytes of an input

#[test]
fn an_input_of_all_bytes_is_judged(rt: HostRuntime) -> Result<(), Fail> {
    let input = times(rt.alloc(), " ", 1_048_576)?;
    let line = b"refused 10 NoScript at 0\n";
    check(&rt, rt.alloc(), fine(&input, Status::Refused, line))?;
    Ok(())
}

#[test]
fn an_input_of_one_byte_more_is_too_large(rt: HostRuntime) -> Result<(), Fail> {
    let input = times(rt.alloc(), " ", 1_048_577)?;
    let row = Row {
        read: Some(1_048_578),
        ..fine(&input, Status::TooLarge, SIZE)
    };
    check(&rt, rt.alloc(), row)?;
    Ok(())
}

#[test]
fn a_long_script_is_run(rt: HostRuntime) -> Result<(), Fail> {
    let input = times(rt.alloc(), "shared.x = 123;\n", 65_536)?;
    let output = b"1= done\n#0.0 {\"x\": 123}\n";
    check(&rt, rt.alloc(), fine(&input, Status::Done, output))?;
    Ok(())
}

// ---- names of an object

// Puts of new names on the shared object, and then more.
fn puts(alloc: Global, count: u32, last: &str) -> Result<String, AllocError> {
    let mut script = String::new(alloc);
    for k in 0..count {
        script.push_str(format!(in alloc; "shared.k{k} = {k}; ")?.as_str())?;
    }
    script.push_str(last)?;
    Ok(script)
}

// What is written: the lines up to the outcome, and the shared object with the names from the first one to the end.
fn output_of(alloc: Global, before: &str, first: u32, end: u32) -> Result<String, AllocError> {
    let mut output = format!(in alloc; "{before}#0.0 {{\"k{first}\": {first}")?;
    for k in first.saturating_add(1)..end {
        output.push_str(format!(in alloc; ", \"k{k}\": {k}")?.as_str())?;
    }
    output.push_str("}\n")?;
    Ok(output)
}

#[test]
fn a_name_too_many_ends_the_script(rt: HostRuntime) -> Result<(), Fail> {
    let alloc = rt.alloc();
    let input = puts(alloc, 64, "shared.k64 = 64; print(1);")?;
    let output = output_of(alloc, "1= TooManyNames\n", 0, 64)?;
    let row = fine(input.as_bytes(), Status::EndedWithFaults, output.as_bytes());
    check(&rt, alloc, row)?;
    Ok(())
}

#[test]
fn a_name_is_added_where_one_was_deleted(rt: HostRuntime) -> Result<(), Fail> {
    let alloc = rt.alloc();
    let input = puts(alloc, 64, "delete shared.k0; shared.k64 = 64; print(1);")?;
    let output = output_of(alloc, "1| 1\n1= done\n", 1, 65)?;
    check(
        &rt,
        alloc,
        fine(input.as_bytes(), Status::Done, output.as_bytes()),
    )?;
    Ok(())
}

// ---- objects of a pass

// Empty objects of pass 1, behind the lines up to the outcome.
fn objects(alloc: Global, before: &str, count: u32) -> Result<String, AllocError> {
    let mut output = format!(in alloc; "{before}#0.0 {{}}\n")?;
    for k in 0..count {
        output.push_str(format!(in alloc; "#1.{k} {{}}\n")?.as_str())?;
    }
    Ok(output)
}

#[test]
fn an_object_too_many_ends_the_script(rt: HostRuntime) -> Result<(), Fail> {
    let alloc = rt.alloc();
    let output = objects(alloc, "1= ObjectsSpent\n", 4_096)?;
    let row = fine(
        b"let i = 0; while (i < 4097) { let o = {}; i += 1; }",
        Status::EndedWithFaults,
        output.as_bytes(),
    );
    check(&rt, alloc, row)?;
    Ok(())
}

#[test]
fn all_objects_may_be_made(rt: HostRuntime) -> Result<(), Fail> {
    let alloc = rt.alloc();
    let output = objects(alloc, "1= done\n", 4_096)?;
    let row = fine(
        b"let i = 0; while (i < 4096) { let o = {}; i += 1; }",
        Status::Done,
        output.as_bytes(),
    );
    check(&rt, alloc, row)?;
    Ok(())
}

// ---- lines

#[test]
fn a_line_too_many_ends_the_script(rt: HostRuntime) -> Result<(), Fail> {
    let alloc = rt.alloc();
    let mut output = times(alloc, "1| 9007199254740991\n", 15_420)?;
    output.extend_from_slice(b"1= OutputFull\n#0.0 {}\n")?;
    let row = fine(
        b"while (true) print(9007199254740991);",
        Status::EndedWithFaults,
        &output,
    );
    check(&rt, alloc, row)?;
    Ok(())
}

// ---- turns, where the words give none

// A loop that takes a million turns, one that would take one more, and what is written for it.
const LOOPS: [(&[u8], Status, &[u8]); 2] = [
    (
        b"let i = 0; while (i < 999999) i += 1; print(i);",
        Status::Done,
        b"1| 999999\n1= done\n#0.0 {}\n",
    ),
    (
        b"let i = 0; while (i < 1000000) i += 1; print(i);",
        Status::EndedWithFaults,
        b"1= TurnsSpent\n#0.0 {}\n",
    ),
];

#[test]
fn a_script_has_a_million_turns(rt: HostRuntime) -> Result<(), Fail> {
    for (input, status, output) in LOOPS {
        check(&rt, rt.alloc(), fine(input, status, output))?;
    }
    Ok(())
}
