// Tokens of scripts, with ample memory.
ghost use Rattle.std.specs.Prelude.{◌+◌, ◌≤◌, length};

use jo_lex::{ParseFault, Punct, Refusal, RefusalKind, TokenKind, tokens};
use jo_parse_tree::Keyword;
use jo_value::{TextId, Texts};
use std::alloc::{AllocError, Global};
use std::process::Abort;
use std::test::Fail;

// What a script begins with.
#[derive(Clone, Copy, PartialEq, Eq)]
enum Start {
    // The first token, from this place to that one.
    Token(TokenKind, u32, u32),
    Refused(RefusalKind, u32),
    Memory,
}

fn start_of(alloc: Global, script: &str, base: u32, texts: &mut Texts) -> Start
    requires { base + length script.now ≤ u32.MAX }
{
    match tokens(alloc, script, base, texts) {
        Ok(found) => match found.first() {
            Some(token) => Start::Token(token.kind, token.start, token.end),
            None => Start::Memory,
        },
        Err(ParseFault::Refused(Refusal { kind, place })) => Start::Refused(kind, place),
        Err(ParseFault::Memory) => Start::Memory,
    }
}

// The script names a row that fails.
fn check_row(
    rt: &impl Abort,
    alloc: Global,
    (script, base, want): (&str, u32, Start),
    texts: &mut Texts,
) {
    assert!(rt; base < 100, "too far: {script}");
    assert!(rt; script.len() < 100, "too long: {script}");
    assert!(rt; start_of(alloc, script, base, texts) == want, "{script}");
}

// A table that is full: the decimal numerals from 0 on.
fn full(alloc: Global) -> Result<Texts, AllocError> {
    let mut texts = Texts::new(alloc);
    for n in 0..65_535u32 {
        let text = format!(in alloc; "{n}")?;
        if texts.intern(text.as_str()).is_err() {
            return Err(AllocError);
        }
    }
    Ok(texts)
}

const WORD: TokenKind = TokenKind::Word(TextId(0));

const KEYWORD: TokenKind = TokenKind::Keyword(Keyword::Cas);

const RESERVED: TokenKind = TokenKind::Reserved(TextId(0));

const TEXT: TokenKind = TokenKind::Text(TextId(0));

const LAST: TokenKind = TokenKind::Text(TextId(65_534));

const NOT_SAME: TokenKind = TokenKind::Punct(Punct::NotSame);

const PLUS: TokenKind = TokenKind::Punct(Punct::Plus);

const STARTS: [(&str, u32, Start); 21] = [
    ("x", 0, Start::Token(WORD, 0, 1)),
    ("\u{feff} $_9\u{301}+", 0, Start::Token(WORD, 4, 9)),
    ("cases", 7, Start::Token(WORD, 7, 12)),
    ("cas(", 0, Start::Token(KEYWORD, 0, 3)),
    ("class(", 0, Start::Token(RESERVED, 0, 5)),
    ("//'\n\t70;", 0, Start::Token(TokenKind::Number(70), 5, 7)),
    ("/**/0", 0, Start::Token(TokenKind::Number(0), 4, 5)),
    ("'a\\'\"\\\\'", 0, Start::Token(TEXT, 0, 8)),
    ("!==1", 0, Start::Token(NOT_SAME, 0, 3)),
    ("+-", 0, Start::Token(PLUS, 0, 1)),
    (" \u{3000}", 5, Start::Token(TokenKind::End, 9, 9)),
    ("a \u{200c}", 5, Start::Refused(RefusalKind::BadToken, 7)),
    ("1\u{660}", 0, Start::Refused(RefusalKind::BadToken, 1)),
    ("1ab", 0, Start::Refused(RefusalKind::BadToken, 0)),
    ("01", 0, Start::Refused(RefusalKind::BadToken, 0)),
    ("a;1.5", 0, Start::Refused(RefusalKind::BadToken, 2)),
    ("'a\"", 0, Start::Refused(RefusalKind::BadToken, 0)),
    ("a?.b", 0, Start::Refused(RefusalKind::BadToken, 1)),
    ("a==b", 0, Start::Refused(RefusalKind::BadToken, 1)),
    (
        "99999999999999999999999999",
        0,
        Start::Refused(RefusalKind::NumberTooLarge, 0),
    ),
    (
        "9007199254740992.",
        0,
        Start::Refused(RefusalKind::BadToken, 0),
    ),
];

#[test]
fn a_script_begins_with_each_kind_of_token_or_refusal(rt: HostRuntime) -> Result<(), Fail> {
    for row in STARTS {
        let mut texts = Texts::new(rt.alloc());
        check_row(&rt, rt.alloc(), row, &mut texts);
    }
    Ok(())
}

const STARTS_AT_A_FULL_TABLE: [(&str, Start); 3] = [
    ("'65534'", Start::Token(LAST, 0, 7)),
    ("'1' let", Start::Refused(RefusalKind::TooManyTexts, 4)),
    ("'a", Start::Refused(RefusalKind::BadToken, 0)),
];

#[test]
fn a_full_table_takes_no_new_text(rt: HostRuntime) -> Result<(), Fail> {
    let mut texts = full(rt.alloc())?;
    for (script, want) in STARTS_AT_A_FULL_TABLE {
        check_row(&rt, rt.alloc(), (script, 0, want), &mut texts);
    }
    Ok(())
}
