// From a script to its tokens.
ghost use Rattle.std.specs.Prelude.{◌≡◌, ◌+◌, ◌-◌, ◌<◌, ◌≤◌, ℕ, [], ◌∷◌, ◌++◌, length, encode_utf8, IfOk, IfErr, IsErrOf, OnOk, OnErr, Some, None};
ghost use Rattle.std.specs.Str.{chars};
ghost use Rattle.jo_lex.specs.Tokens as spec;
ghost use Rattle.jo_lex.specs.inner.Views.{lexeme_of};
ghost use Rattle.jo_lex.specs.inner.Steps.{at, fault_at, AddsToken, IsTooMany, FailsAt};

use crate::character::first_of;
use crate::piece::{Lexeme, Piece, piece_at};
use crate::reserved::reserved;
use crate::{ParseFault, Refusal, RefusalKind, Token, TokenKind};
use jo_parse_tree::Keyword;
use jo_value::{InternFault, TextId, Texts};
use std::alloc::Global;

fn word_kind(reserved: Option<Option<Keyword>>, id: TextId) -> TokenKind
    ensures { result ≡ spec.word_kind reserved id }
{
    match reserved {
        Some(Some(keyword)) => TokenKind::Keyword(keyword),
        Some(None) => TokenKind::Reserved(id),
        None => TokenKind::Word(id),
    }
}

// The kind of a token, with its text in the table.
fn token_kind(lexeme: Lexeme<'_>, texts: &mut Texts) -> Result<TokenKind, InternFault>
    ensures ok { IfOk result (λ kind.
        spec.token_kind texts.old (lexeme_of lexeme.entry) ≡ Some (kind, texts.new)) }
    ensures full { IsErrOf result InternFault.TooManyTexts
        → spec.token_kind texts.old (lexeme_of lexeme.entry) ≡ None }
    ensures err { OnErr result (texts.new ≡ texts.old) }
{
    match lexeme {
        Lexeme::Word(word) => {
            let id = texts.intern(word)?;
            Ok(word_kind(reserved(word), id))
        }
        Lexeme::Number(n) => Ok(TokenKind::Number(n)),
        Lexeme::Text(string) => {
            let id = texts.intern(string.as_str())?;
            Ok(TokenKind::Text(id))
        }
        Lexeme::Punct(punct) => Ok(TokenKind::Punct(punct)),
    }
}

fn fault_at(place: u32, fault: InternFault) -> ParseFault
    ensures { result ≡ fault_at place fault }
{
    match fault {
        InternFault::Memory => ParseFault::Memory,
        InternFault::TooManyTexts => ParseFault::Refused(Refusal {
            kind: RefusalKind::TooManyTexts,
            place,
        }),
    }
}

// Adds the token of a lexeme. Its room is made first, so an `Err` leaves the table as before.
fn add(
    lexeme: Lexeme<'_>,
    start: u32,
    end: u32,
    tokens: &mut Vec<Token>,
    texts: &mut Texts,
) -> Result<(), ParseFault>
    ensures ok { OnOk result (AddsToken (lexeme_of lexeme.entry) start end
        tokens.old.items tokens.new.items texts.old texts.new) }
    ensures err { IfErr result (IsTooMany (lexeme_of lexeme.entry) start texts.old) }
    ensures kept { OnErr result (texts.new ≡ texts.old) }
{
    tokens.reserve(1)?;
    match token_kind(lexeme, texts) {
        Ok(kind) => {
            tokens.push_reserved(Token { kind, start, end });
            Ok(())
        }
        Err(fault) => Err(fault_at(start, fault)),
    }
}

// Takes the piece that begins with this character, and gives what is left.
fn advance<'a>(
    alloc: Global,
    input: &'a str,
    first: char,
    after: &'a str,
    place: u32,
    tokens: &mut Vec<Token>,
    texts: &mut Texts,
) -> Result<&'a str, ParseFault>
    requires chars { chars input.now ≡ first ∷ chars after.now }
    requires bytes { input.now ≡ encode_utf8 first ++ after.now }
    requires shorter { length after.now < length input.now }
    requires place { place + length input.now ≤ u32.MAX }
    ensures onward { IfOk result (λ rest. spec.next (at place input.now tokens.old.items texts.old)
        ≡ spec.onward (at (place + (length input.now - length rest.now)) rest.now
        tokens.new.items texts.new)) }
    ensures shorter { IfOk result (λ rest. length rest.now < length input.now) }
    ensures err { IfErr result (FailsAt (at place input.now tokens.old.items texts.old)) }
    ensures kept { OnErr result (texts.new ≡ texts.old) }
{
    match piece_at(alloc, input, first, after)? {
        Piece::Gap(rest) => Ok(rest),
        Piece::Token(lexeme, rest) => {
            let end = place + (input.len() - rest.len()) as u32;
            add(lexeme, place, end, tokens, texts)?;
            Ok(rest)
        }
        Piece::Fault(kind) => Err(ParseFault::Refused(Refusal { kind, place })),
    }
}

/// The tokens of one script, and a last one for its end. Places are counted in bytes from `base`.
///
/// Each word and each text literal is interned, in order of place. After an `Err` the table has what
/// it had, and the texts of the tokens before the place reached.
pub fn tokens(
    alloc: Global,
    input: &str,
    base: u32,
    texts: &mut Texts,
) -> Result<Vec<Token>, ParseFault>
    requires { base + length input.now ≤ u32.MAX }
    ensures ok { IfOk result (λ tokens.
        spec.IsRead (spec.start base texts.old (chars input.now)) tokens.items texts.new) }
    ensures err { IfErr result (spec.Fails (spec.start base texts.old (chars input.now)) texts.new) }
{
    let mut tokens = Vec::new(alloc);
    let mut rest = input;
    while let Some((first, after)) = first_of(rest) {
        let place = base + (input.len() - rest.len()) as u32;
        rest = advance(alloc, rest, first, after, place, &mut tokens, texts)?;
    }
    let end = base + input.len() as u32;
    tokens.reserve(1)?;
    tokens.push_reserved(Token {
        kind: TokenKind::End,
        start: end,
        end,
    });
    Ok(tokens)
}
