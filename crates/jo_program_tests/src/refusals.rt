// Each line that says why an input is not run.
use crate::runs::{check, fine};
use jo_program::Status;
use std::alloc::{AllocError, Global};
use std::test::Fail;

const DEEP: &[u8] = b"(((((((((((((((((((((((((((((((((((((((((((((((((((((((((((((((((";

// Inputs that are refused, and the line that says for what and where.
const REFUSED: [(&[u8], &[u8]); 16] = [
    (b"shared.a = \xff", b"refused 1 NotUtf8 at 11\n"),
    (b"let a = \"\xff", b"refused 1 NotUtf8 at 9\n"),
    (b"shared.x = 1.5;", b"refused 2 BadToken at 11\n"),
    (b"1.5;", b"refused 2 BadToken at 0\n"),
    (b"print(1;", b"refused 3 Unexpected at 7\n"),
    (b"shared.x = ", b"refused 3 Unexpected at 11\n"),
    (b"print(total);", b"refused 4 Undeclared at 6\n"),
    (b"print(b);", b"refused 4 Undeclared at 6\n"),
    (b"let a = a;", b"refused 4 Undeclared at 8\n"),
    (b"let a = 1; let a = 2;", b"refused 5 Twice at 15\n"),
    (
        b"%%\n%%\n%%\n%%\n%%\n%%\n%%\n%%\n",
        b"refused 6 TooManyScripts at 21\n",
    ),
    (DEEP, b"refused 7 NestedTooDeep at 64\n"),
    (
        b"shared.x = 9007199254740992;",
        b"refused 8 NumberTooLarge at 11\n",
    ),
    (
        b"let a = 9007199254740992;",
        b"refused 8 NumberTooLarge at 8\n",
    ),
    (b"", b"refused 10 NoScript at 0\n"),
    (b"// nothing", b"refused 10 NoScript at 0\n"),
];

#[test]
fn each_refusal_has_its_line(rt: HostRuntime) -> Result<(), Fail> {
    for (input, line) in REFUSED {
        check(&rt, rt.alloc(), fine(input, Status::Refused, line))?;
    }
    Ok(())
}

// One text more than the table of texts has room for.
fn too_many_texts(alloc: Global) -> Result<Vec<u8>, AllocError> {
    let mut script = Vec::new(alloc);
    for serial in 0..65_536 {
        let line = format!(in alloc; "\"t{serial}\";\n")?;
        script.extend_from_slice(line.as_bytes())?;
    }
    Ok(script)
}

#[test]
fn a_text_too_many_is_refused(rt: HostRuntime) -> Result<(), Fail> {
    let input = too_many_texts(rt.alloc())?;
    let line = b"refused 9 TooManyTexts at 644240\n";
    check(&rt, rt.alloc(), fine(&input, Status::Refused, line))?;
    Ok(())
}
