// The code of scripts, as it is made with ample memory.
ghost use Rattle.std.specs.Prelude.{◌≤◌, length};
ghost use Rattle.jo_value.specs.declared.limits.TheConstants.{MOST_INPUT};

use crate::listing::listing;
use jo_code::compile;
use jo_parse::{ParseFault, ScriptSet, parse_set};
use std::alloc::{AllocError, Global};
use std::process::Abort;
use std::test::Fail;

fn set_of(alloc: Global, script: &str) -> Result<ScriptSet, AllocError>
    requires { length script.now ≤ MOST_INPUT }
{
    match parse_set(alloc, script.as_bytes()) {
        Ok(set) => Ok(set),
        Err(ParseFault::Refused(_)) => Err(AllocError),
        Err(ParseFault::Memory) => Err(AllocError),
    }
}

fn text_of(rt: &impl Abort, alloc: Global, script: &str) -> Result<String, AllocError> {
    assert!(rt; script.len() < 1000, "too long: {script}");
    let set = set_of(alloc, script)?;
    let code = compile(alloc, set.script(0))?;
    assert_eq!(rt;
        code.stack_need(),
        code.entries().saturating_add(code.variables()),
        "{script}"
    );
    let text = listing(alloc, code.instructions())?;
    format!(in alloc; "{text}{} {}\n", code.entries(), code.variables())
}

// Scripts with their code, and how many entries and variables it needs. Worked out by hand from what the
// instructions mean, and from the order in which values are read.
const ROWS: [(&str, &str); 18] = [
    (
        "let i = 0; while (i < 1000000) { i += 1; }",
        "\
$0 = 0\n\
again 0\n\
top = 1000000\n\
skip 2 when $0 < top is false\n\
$0 = $0 + 1\n\
again 4\n\
1 1\n\
",
    ),
    (
        "let o = shared; let s = 0; s += o.x;",
        "\
$1 = shared\n\
$0 = 0\n\
top = $1[text 4]\n\
$0 = $0 + top\n\
1 2\n\
",
    ),
    (
        "let s = 1; s += (s = 5); print(s);",
        "\
$0 = 1\n\
top = $0\n\
$0 = 5\n\
top = $0\n\
$0 = top + top\n\
top = $0\n\
print 1\n\
2 1\n\
",
    ),
    (
        "let a = 1; let b = a + (a = 1);",
        "\
$1 = 1\n\
top = $1\n\
$1 = 1\n\
top = $1\n\
$0 = top + top\n\
2 2\n\
",
    ),
    (
        "let o = {}; o.x += (o = 5);",
        "\
top = new\n\
$0 = top\n\
top = $0\n\
top = peek top[text 2]\n\
$0 = 5\n\
top = $0\n\
top = top + top\n\
put top[text 2] top\n\
3 1\n\
",
    ),
    (
        "let o = {a: 1, 2: 3, \"b\": 4, 1024: 5, if: 6}; o[\"a\"] -= o.a;",
        "\
top = new\n\
fill [text 2] 1\n\
fill [2] 3\n\
fill [text 3] 4\n\
fill [-1] 5\n\
fill [word if] 6\n\
$0 = top\n\
top = peek $0[text 2]\n\
top = $0[text 2]\n\
top = top - top\n\
put $0[text 2] top\n\
2 1\n\
",
    ),
    (
        "for (let i = 0; i < 3; i += 1) { if (i === 1) continue; if (i === 2) break; print(i); }",
        "\
$0 = 0\n\
again 0\n\
skip 8 when $0 < 3 is false\n\
skip 1 when $0 === 1 is false\n\
skip 4\n\
skip 1 when $0 === 2 is false\n\
skip 4\n\
top = $0\n\
print 1\n\
$0 = $0 + 1\n\
again 9\n\
1 1\n\
",
    ),
    (
        "let a = 0; let b = a || !a && a < 1;",
        "\
$1 = 0\n\
top = $1\n\
skip 3 when top is true, or drop top\n\
top = ! $1\n\
skip 1 when top is false, or drop top\n\
top = $1 < 1\n\
$0 = top\n\
1 2\n\
",
    ),
    (
        "let a = 0; if (a || !a && a < 1) print(1); else print(2);",
        "\
$0 = 0\n\
skip 2 when $0 is true\n\
skip 4 when $0 is true\n\
skip 3 when $0 < 1 is false\n\
top = 1\n\
print 1\n\
skip 2\n\
top = 2\n\
print 1\n\
1 1\n\
",
    ),
    (
        "print(cas(shared, \"k\", undefined, shared.k = 1));",
        "\
top = put shared[text 3] 1\n\
top = cas shared[text 3] undefined top\n\
print 1\n\
1 0\n\
",
    ),
    (
        "{ let x = 1; { let x = 2; print(x); } print(x); }",
        "\
$0 = 1\n\
$1 = 2\n\
top = $1\n\
print 1\n\
top = $0\n\
print 1\n\
1 2\n\
",
    ),
    (
        "let x = undefined.foo + (1).bar;",
        "\
top = undefined[text 3]\n\
top = 1[text 4]\n\
$0 = top + top\n\
2 1\n\
",
    ),
    (
        "delete shared.x; shared[1] = shared[2] = 3; print(\"x\" in shared);",
        "\
delete shared[text 2]\n\
top = put shared[2] 3\n\
put shared[1] top\n\
top = text 2 in shared\n\
print 1\n\
1 0\n\
",
    ),
    (
        "let t = {}; t.a.b = (t.c = 1);",
        "\
top = new\n\
$0 = top\n\
top = $0[text 2]\n\
top = put $0[text 4] 1\n\
put top[text 3] top\n\
2 1\n\
",
    ),
    (
        "let a = 1; let b = 2; let c = a + b * 3 % 7; print(-a, a < b, c ? a : b);",
        "\
$2 = 1\n\
$1 = 2\n\
top = $1 * 3\n\
top = top % 7\n\
$0 = $2 + top\n\
top = - $2\n\
top = $2 < $1\n\
skip 2 when $0 is false\n\
top = $2\n\
skip 1\n\
top = $1\n\
print 3\n\
3 3\n\
",
    ),
    (
        "let n = 5; let i = 0; while (i < n - 1) i += 2; printNames(shared);",
        "\
$1 = 5\n\
$0 = 0\n\
again 0\n\
top = $1 - 1\n\
skip 2 when $0 < top is false\n\
$0 = $0 + 2\n\
again 4\n\
print names shared\n\
1 2\n\
",
    ),
    (
        "let s = 0; for (;;) { s -= 1; if (s < -40000) break; }",
        "\
$0 = 0\n\
again 0\n\
$0 = $0 - 1\n\
top = 40000\n\
top = - top\n\
skip 1 when $0 < top is false\n\
skip 1\n\
again 6\n\
1 1\n\
",
    ),
    (
        "let o = shared; o.p.q += 1; o[o.n] = o[0] + 7;",
        "\
$0 = shared\n\
top = $0[text 3]\n\
top = peek top[text 4]\n\
top = top + 1\n\
put top[text 4] top\n\
top = $0\n\
top = $0[text 5]\n\
top = $0[0]\n\
top = top + 7\n\
put top[top] top\n\
3 1\n\
",
    ),
];

#[test]
fn scripts_have_their_code(rt: HostRuntime) -> Result<(), Fail> {
    let alloc = rt.alloc();
    for (script, want) in &ROWS {
        let text = text_of(&rt, alloc, script)?;
        assert_eq!(rt; text.as_str(), *want, "{script}");
    }
    Ok(())
}
