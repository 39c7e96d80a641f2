// Sets of scripts, with ample memory: cut, read into tokens, parsed and checked, each at its place.
ghost use Rattle.std.specs.Prelude.{◌≤◌, length};
ghost use Rattle.jo_value.specs.declared.limits.TheConstants.{MOST_INPUT};

use jo_parse::{ParseFault, Refusal, RefusalKind, parse_set};
use std::alloc::{AllocError, Global};
use std::process::Abort;
use std::test::Fail;

const UNDECLARED: RefusalKind = RefusalKind::Undeclared;

const TWICE: RefusalKind = RefusalKind::Twice;

const UNEXPECTED: RefusalKind = RefusalKind::Unexpected;

const DEEP: RefusalKind = RefusalKind::NestedTooDeep;

const BAD: RefusalKind = RefusalKind::BadToken;

const LARGE: RefusalKind = RefusalKind::NumberTooLarge;

#[derive(Clone, Copy, Debug, PartialEq)]
enum Outcome {
    // How many scripts it has.
    Accepted(u8),
    Refused(RefusalKind, u32),
    Memory,
}

// One script that is accepted.
const ACCEPTED: Outcome = Outcome::Accepted(1);

fn answer(alloc: Global, bytes: &[u8]) -> Outcome
    requires { length bytes.now ≤ MOST_INPUT }
{
    match parse_set(alloc, bytes) {
        Ok(set) => Outcome::Accepted(set.len()),
        Err(ParseFault::Refused(Refusal { kind, place })) => Outcome::Refused(kind, place),
        Err(ParseFault::Memory) => Outcome::Memory,
    }
}

// The set names a row that fails.
fn check_row(rt: &impl Abort, alloc: Global, set: &str, want: Outcome) {
    assert!(rt; set.len() < 1000, "too long: {set}");
    assert_eq!(rt; answer(alloc, set.as_bytes()), want, "{set}");
}

fn check(rt: &impl Abort, alloc: Global, rows: &[(&str, Outcome)]) {
    for (set, want) in rows {
        check_row(rt, alloc, set, *want);
    }
}

const CUTS: [(&str, Outcome); 15] = [
    ("let a = 1;\n%%\nprint(2);", Outcome::Accepted(2)),
    ("%%", Outcome::Accepted(2)),
    (";\n%%\r\n;", Outcome::Accepted(2)),
    (";\n%%\r", Outcome::Accepted(2)),
    (";\n%%\n\n%%", Outcome::Accepted(3)),
    ("", Outcome::Refused(RefusalKind::NoScript, 0)),
    ("%% ", Outcome::Refused(UNEXPECTED, 0)),
    (" %%\n;", Outcome::Refused(UNEXPECTED, 1)),
    ("%%%\n%", Outcome::Refused(UNEXPECTED, 0)),
    (";\r%%\r\r;", Outcome::Refused(UNEXPECTED, 2)),
    ("/*\n%%\n*/", Outcome::Refused(BAD, 0)),
    ("let é;\n%%\nlet é; b;", Outcome::Refused(UNDECLARED, 19)),
    // The stages come one after another, each over all scripts.
    ("print(b);\n%%\n1.5;", Outcome::Refused(BAD, 13)),
    (
        "let = 1;\n%%\n9007199254740992;",
        Outcome::Refused(LARGE, 12),
    ),
    ("print(b);\n%%\nlet = 1;", Outcome::Refused(UNEXPECTED, 17)),
];

#[test]
fn separators_cut_a_set_into_scripts(rt: HostRuntime) {
    check(&rt, rt.alloc(), &CUTS);
}

const NAMES: [(&str, Outcome); 7] = [
    ("let a; let b = a; { b; }", ACCEPTED),
    ("let a = 1; let a = 2;", Outcome::Refused(TWICE, 15)),
    ("let a; print(a); let a;", Outcome::Refused(TWICE, 21)),
    ("let a; b; let a;", Outcome::Refused(UNDECLARED, 7)),
    ("let a = a;", Outcome::Refused(UNDECLARED, 8)),
    (
        "let a = 1; { print(a); let a = 2; }",
        Outcome::Refused(UNDECLARED, 19),
    ),
    ("let a;\n%%\nprint(a);", Outcome::Refused(UNDECLARED, 16)),
];

#[test]
fn names_are_declared_before_they_are_used(rt: HostRuntime) {
    check(&rt, rt.alloc(), &NAMES);
}

// A script that is refused for its names is one by the grammar.
const SCRIPTS: [(&str, Outcome); 27] = [
    (";", ACCEPTED),
    ("let x = 1, y; ; x = y;", ACCEPTED),
    ("let __proto__ = {a: 1,};", ACCEPTED),
    ("if (1) if (2) ; else ; else ;", ACCEPTED),
    ("if (1) ; else ; else ;", Outcome::Refused(UNEXPECTED, 16)),
    ("else ;", Outcome::Refused(UNEXPECTED, 0)),
    (
        "while (1) { if (x) break; continue; }",
        Outcome::Refused(UNDECLARED, 16),
    ),
    ("break;", Outcome::Refused(UNEXPECTED, 0)),
    (
        "while (1) ; { continue; }",
        Outcome::Refused(UNEXPECTED, 14),
    ),
    ("for (;;) { break }", Outcome::Refused(UNEXPECTED, 17)),
    (
        "for (let i = (a in b); a in b;) ;",
        Outcome::Refused(UNDECLARED, 14),
    ),
    ("for (x in y;;) ;", Outcome::Refused(UNEXPECTED, 7)),
    ("for (let i = a in b;;) ;", Outcome::Refused(UNEXPECTED, 15)),
    ("({ a: 1 });", ACCEPTED),
    ("{ a: 1 };", Outcome::Refused(UNEXPECTED, 3)),
    ("if (1) { let x; }", ACCEPTED),
    ("if (1) let x;", Outcome::Refused(UNEXPECTED, 7)),
    (
        "print(); print(1, x); printNames(x);",
        Outcome::Refused(UNDECLARED, 18),
    ),
    ("print(1,);", Outcome::Refused(UNEXPECTED, 8)),
    ("printNames();", Outcome::Refused(UNEXPECTED, 11)),
    ("let x = 1, ;", Outcome::Refused(UNEXPECTED, 11)),
    ("let if;", Outcome::Refused(UNEXPECTED, 4)),
    ("let x", Outcome::Refused(UNEXPECTED, 5)),
    ("while (1) ", Outcome::Refused(UNEXPECTED, 10)),
    ("; }", Outcome::Refused(UNEXPECTED, 2)),
    ("; {", Outcome::Refused(UNEXPECTED, 3)),
    ("1 2 #", Outcome::Refused(BAD, 4)),
];

#[test]
fn scripts_are_read_by_the_grammar(rt: HostRuntime) {
    check(&rt, rt.alloc(), &SCRIPTS);
}

const EXPRESSIONS: [(&str, Outcome); 15] = [
    ("a.b[c] = x += -1;", Outcome::Refused(UNDECLARED, 0)),
    (
        "a || b && c === d < e + f * !g;",
        Outcome::Refused(UNDECLARED, 0),
    ),
    (
        "a - b - c ? {x: 1, 'y': 2, 3: z,} : cas(a, 'k', null, true);",
        Outcome::Refused(UNDECLARED, 0),
    ),
    ("delete a.if, __proto__;", Outcome::Refused(UNEXPECTED, 11)),
    ("__proto__.__proto__;", Outcome::Refused(UNDECLARED, 0)),
    ("'x' in a;", Outcome::Refused(UNDECLARED, 7)),
    ("for ('x' in a;;) ;", Outcome::Refused(UNEXPECTED, 9)),
    ("for (('x' in a);;) ;", Outcome::Refused(UNDECLARED, 13)),
    ("({__proto__: 1});", Outcome::Refused(UNEXPECTED, 2)),
    ("({,});", Outcome::Refused(UNEXPECTED, 2)),
    ("(a) = 1;", Outcome::Refused(UNEXPECTED, 4)),
    ("delete (a.b);", Outcome::Refused(UNEXPECTED, 12)),
    ("delete a;", Outcome::Refused(UNEXPECTED, 8)),
    ("var;", Outcome::Refused(UNEXPECTED, 0)),
    ("();", Outcome::Refused(UNEXPECTED, 1)),
];

#[test]
fn expressions_are_read_by_the_grammar(rt: HostRuntime) {
    check(&rt, rt.alloc(), &EXPRESSIONS);
}

// The front as often as the number says, the middle, and the back as often.
fn nested(
    alloc: Global,
    front: &str,
    middle: &str,
    back: &str,
    times: usize,
) -> Result<String, AllocError> {
    let front = front.repeat(alloc, times)?;
    let back = back.repeat(alloc, times)?;
    format!(in alloc; "{front}{middle}{back}")
}

const BOUNDED: [(&str, &str, &str, usize, Outcome); 19] = [
    ("%%\n", "", "", 7, Outcome::Accepted(8)),
    (
        "%%\n",
        "",
        "",
        8,
        Outcome::Refused(RefusalKind::TooManyScripts, 21),
    ),
    ("(", "", "", 64, Outcome::Refused(UNEXPECTED, 64)),
    ("(", "", "", 65, Outcome::Refused(DEEP, 64)),
    ("(", "1;", "", 64, Outcome::Refused(UNEXPECTED, 65)),
    ("{", "", "}", 64, ACCEPTED),
    ("{", "", "}", 65, Outcome::Refused(DEEP, 64)),
    ("if(1)", ";", "", 63, ACCEPTED),
    ("if(1)", "", "", 65, Outcome::Refused(DEEP, 317)),
    ("if(1);else ", ";", "", 63, ACCEPTED),
    ("while(1)", ";", "", 63, ACCEPTED),
    ("while(1)", ";", "", 64, Outcome::Refused(DEEP, 509)),
    ("for(;;)", ";", "", 63, ACCEPTED),
    ("for(;;)", ";", "", 64, Outcome::Refused(DEEP, 444)),
    ("x=", "1;", "", 64, Outcome::Refused(UNDECLARED, 0)),
    ("x=", "1;", "", 65, Outcome::Refused(DEEP, 129)),
    ("1?1:", "1;", "", 64, ACCEPTED),
    ("!", "1;", "", 64, ACCEPTED),
    ("!", "1;", "", 65, Outcome::Refused(DEEP, 64)),
];

#[test]
fn scripts_and_constructs_are_bounded(rt: HostRuntime) -> Result<(), Fail> {
    for (front, middle, back, times, want) in BOUNDED {
        let set = nested(rt.alloc(), front, middle, back, times)?;
        check_row(&rt, rt.alloc(), set.as_str(), want);
    }
    Ok(())
}

#[test]
fn bytes_that_are_not_utf8_are_refused_first(rt: HostRuntime) {
    let rows: [(&[u8], u32); 2] = [
        (b"let a = \"\xff", 9),
        (b"%%\n%%\n%%\n%%\n%%\n%%\n%%\n%%\n\xff", 24),
    ];
    for (bytes, place) in rows {
        assert!(rt; bytes.len() < 100, "too long: {bytes:?}");
        let want = Outcome::Refused(RefusalKind::NotUtf8, place);
        assert_eq!(rt; answer(rt.alloc(), bytes), want, "{bytes:?}");
    }
}

#[test]
fn a_set_has_its_scripts_in_order(rt: HostRuntime) -> Result<(), Fail> {
    let set = parse_set(rt.alloc(), b"let a;\n%%\n;;\n%%\nlet a; let b; ;")?;
    assert_eq!(rt; set.len(), 3);
    assert!(rt; 2 < set.len());
    assert_eq!(rt; set.script(0).items.len(), 1);
    assert_eq!(rt; set.script(1).items.len(), 2);
    assert_eq!(rt; set.script(2).items.len(), 3);
    assert_eq!(rt; set.texts().len(), 3);
    Ok(())
}
