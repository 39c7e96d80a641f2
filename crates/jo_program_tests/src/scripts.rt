// Scripts of the whole language: what each prints, how it ends, and the objects that it leaves.
use crate::runs::{check, fine};
use jo_program::Status;
use std::test::Fail;

// A script and what is written for it.
type Script = (&'static [u8], &'static [u8]);

const DONE: [Script; 23] = [
    (
        b"shared.x = 1; shared.y = 2; print(shared.x, shared.z);",
        b"1| 1 undefined\n1= done\n#0.0 {\"x\": 1, \"y\": 2}\n",
    ),
    (
        b"/* names */ shared . \xc3\xa4=7 ;\n print (shared.\xc3\xa4, shared.in); // two",
        b"1| 7 undefined\n1= done\n#0.0 {\"\xc3\xa4\": 7}\n",
    ),
    (
        b"let o = {}; o.b = 1; o.a = 2; o[3] = 4; o[1] = 5;",
        b"1= done\n#0.0 {}\n#1.0 {1: 5, 3: 4, \"b\": 1, \"a\": 2}\n",
    ),
    (
        b"let o = {}; o[\"5\"] = 1; print(o[5]); o[\"05\"] = 2; print(\"05\" in o, 5 in o);",
        b"1| 1\n1| true true\n1= done\n#0.0 {}\n#1.0 {5: 1, \"05\": 2}\n",
    ),
    (
        b"let o = {a: 1, b: 2}; print(delete o.a, delete o.zz); o.a = 3; printNames(o);",
        b"1| true true\n1| b,a\n1= done\n#0.0 {}\n#1.0 {\"b\": 2, \"a\": 3}\n",
    ),
    (
        b"let o = {a: 0, b: 1, c: 2, d: 3, e: 4, f: 5, g: 6, h: 7, i: 8, j: 9}; o.a = 10;",
        b"1= done\n#0.0 {}\n#1.0 {\"a\": 10, \"b\": 1, \"c\": 2, \"d\": 3, \"e\": 4, \"f\": 5, \"g\": 6, \"h\": 7, \"i\": 8, \"j\": 9}\n",
    ),
    (
        b"let \xc3\xa4 = {}; \xc3\xa4.x = 1; print(\xc3\xa4.x);",
        b"1| 1\n1= done\n#0.0 {}\n#1.0 {\"x\": 1}\n",
    ),
    (
        b"let s = 0; for (let i = 1; i <= 10; i += 1) { if (i % 2 === 0) continue; s += i; } print(s);",
        b"1| 25\n1= done\n#0.0 {}\n",
    ),
    (
        b"let n = 0; while (true) { if (n === 3) break; n += 1; } print(n > 2 ? n : -n, n && 0, 0 || n);",
        b"1| 3 0 3\n1= done\n#0.0 {}\n",
    ),
    (
        b"shared.q = {next: {}}; shared.q.next.back = shared.q; print(shared.q.next.back === shared.q);",
        b"1| true\n1= done\n#0.0 {\"q\": #1.0}\n#1.0 {\"next\": #1.1}\n#1.1 {\"back\": #1.0}\n",
    ),
    (
        b"shared[\"a\\\"b\\\\\"] = \"c\\\"d\\\\\"; print(shared[\"a\\\"b\\\\\"]); shared.s = '';",
        b"1| c\"d\\\n1= done\n#0.0 {\"a\\\"b\\\\\": \"c\\\"d\\\\\", \"s\": \"\"}\n",
    ),
    (
        b"let o = {n: null, t: true, f: false, u: undefined, m: -1}; print(cas(o, \"n\", null, 7), cas(o, \"n\", null, 8), cas(o, \"z\", undefined, 1));",
        b"1| null 7 undefined\n1= done\n#0.0 {}\n#1.0 {\"n\": 7, \"t\": true, \"f\": false, \"u\": undefined, \"m\": -1}\n",
    ),
    (
        b"print(undefined, null, true, false, 0, -9007199254740991, \"a \\\"word\\\"\", \"\", {});",
        b"1| undefined null true false 0 -9007199254740991 a \"word\"  #1.0\n1= done\n#0.0 {}\n#1.0 {}\n",
    ),
    (
        b"let o = {a: 1, 2: 3}; printNames(o); delete o.a; printNames(o); print();",
        b"1| a\n1| \n1| \n1= done\n#0.0 {}\n#1.0 {2: 3}\n",
    ),
    (
        b"let a = 1; { let a = 2; print(a); } print(a);",
        b"1| 2\n1| 1\n1= done\n#0.0 {}\n",
    ),
    (b"let a = 1;", b"1= done\n#0.0 {}\n"),
    (b"print();", b"1| \n1= done\n#0.0 {}\n"),
    (b";", b"1= done\n#0.0 {}\n"),
    (
        b"print(shared.if, shared.class); shared.x = 1; shared.x = (2);",
        b"1| undefined undefined\n1= done\n#0.0 {\"x\": 2}\n",
    ),
    // Control characters and other line ends are written as they are, since only a line feed ends a line.
    (
        b"print(\"\x00\x01\t\x0b\x7f\xc2\x85\xe2\x80\xa8\"); shared[\"\x01\t\"] = \"\x1f\x0c\";",
        b"1| \x00\x01\t\x0b\x7f\xc2\x85\xe2\x80\xa8\n1= done\n#0.0 {\"\x01\t\": \"\x1f\x0c\"}\n",
    ),
    (b"%%\n", b"1= done\n2= done\n#0.0 {}\n"),
    (b"print(1);\r\n%%\r\n", b"1| 1\n1= done\n2= done\n#0.0 {}\n"),
    (
        b"let o = {p: 1};\n%%\nprint(shared.p);\n%%\nshared.q = 2;",
        b"1= done\n2| undefined\n2= done\n3= done\n#0.0 {\"q\": 2}\n#1.0 {\"p\": 1}\n",
    ),
];

#[test]
fn scripts_that_are_done(rt: HostRuntime) -> Result<(), Fail> {
    for (input, output) in DONE {
        check(&rt, rt.alloc(), fine(input, Status::Done, output))?;
    }
    Ok(())
}

const FAULTY: [Script; 9] = [
    (
        b"let o = {}; o[1023] = 1; print(o[1023]); o[1024] = 2;",
        b"1| 1\n1= KeyOutside\n#0.0 {}\n#1.0 {1023: 1}\n",
    ),
    (
        b"let a = 9007199254740991; print(a); print(a + 1);",
        b"1| 9007199254740991\n1= NotSafe\n#0.0 {}\n",
    ),
    (
        b"let u; print(1); u.x = 2; print(3);",
        b"1| 1\n1= TypeFault\n#0.0 {}\n",
    ),
    (
        b"print(-7 % 3, 7 % -3, 0 % 5); print(5 % 0);",
        b"1| -1 1 0\n1= NotSafe\n#0.0 {}\n",
    ),
    (
        b"let u = shared.q; print(1); u.x = 2; print(3);",
        b"1| 1\n1= TypeFault\n#0.0 {}\n",
    ),
    (
        b"shared[\"4294967295\"] = 1; print(\"4294967295\" in shared); shared[\"4294967294\"] = 2;",
        b"1| true\n1= KeyOutside\n#0.0 {\"4294967295\": 1}\n",
    ),
    (b"shared.x += 1;", b"1= TypeFault\n#0.0 {}\n"),
    (b"shared.x.y = 1;", b"1= TypeFault\n#0.0 {}\n"),
    (
        b"shared.a = {}; shared.b = shared.a - 1;",
        b"1= TypeFault\n#0.0 {\"a\": #1.0}\n#1.0 {}\n",
    ),
];

#[test]
fn scripts_that_end_by_a_fault(rt: HostRuntime) -> Result<(), Fail> {
    for (input, output) in FAULTY {
        check(
            &rt,
            rt.alloc(),
            fine(input, Status::EndedWithFaults, output),
        )?;
    }
    Ok(())
}
