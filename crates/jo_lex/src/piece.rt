// The piece at the front of what is left.
ghost use Rattle.std.specs.Prelude.{◌≡◌, ◌-◌, ◌<◌, ◌∷◌, ◌++◌, length, encode_utf8, IfOk};
ghost use Rattle.std.specs.Str.{chars};
ghost use Rattle.jo_lex.specs.Pieces as spec;
ghost use Rattle.jo_lex.specs.inner.Views.{piece_of, IsWithin};

use crate::beginning::front;
use crate::character::{Class, is_in, past};
use crate::comment::comment;
use crate::literal::{number, text_literal};
use crate::operator::operator;
use crate::{Punct, RefusalKind};
use jo_value::MOST_TEXT_BYTES;
use std::alloc::{AllocError, Global};

/// A token without its place: a word, a number, what a text literal stands for, or a punctuator.
#[derive(Drop)]
pub(crate) enum Lexeme<'a> {
    Word(&'a str),
    Number(i64),
    Text(String),
    Punct(Punct),
}

/// Blanks or a comment, a token, or what is wrong; with what is left of the input.
#[derive(Drop)]
pub(crate) enum Piece<'a> {
    Gap(&'a str),
    Token(Lexeme<'a>, &'a str),
    Fault(RefusalKind),
}

// The word that begins with this character.
fn word<'a>(input: &'a str, first: char, after: &'a str) -> Piece<'a>
    requires { input.now ≡ encode_utf8 first ++ after.now }
    ensures value { piece_of result ≡ spec.word_piece first (chars after.now) }
    ensures within { IsWithin (length after.now) result }
{
    let rest = past(Class::WordPart, after);
    let word = front(input, rest);
    if word.len() > MOST_TEXT_BYTES {
        return Piece::Fault(RefusalKind::BadToken);
    }
    Piece::Token(Lexeme::Word(word), rest)
}

// The token that begins with this character.
fn token<'a>(
    alloc: Global,
    input: &'a str,
    first: char,
    after: &'a str,
) -> Result<Piece<'a>, AllocError>
    requires chars { chars input.now ≡ first ∷ chars after.now }
    requires bytes { input.now ≡ encode_utf8 first ++ after.now }
    requires shorter { length after.now < length input.now }
    ensures value { IfOk result (λ found.
        piece_of found ≡ spec.token_piece first (chars after.now)) }
    ensures within { IfOk result (IsWithin (length input.now - 1)) }
{
    if is_in(Class::WordStart, first) {
        return Ok(word(input, first, after));
    }
    if is_in(Class::Digit, first) {
        return Ok(number(first, after));
    }
    if first == '"' || first == '\'' {
        return text_literal(alloc, first, after);
    }
    Ok(operator(input, first))
}

/// The piece that begins with this character.
#[tactic(auto, unfolding(crate::specs::Pieces::piece))]
pub(crate) fn piece_at<'a>(
    alloc: Global,
    input: &'a str,
    first: char,
    after: &'a str,
) -> Result<Piece<'a>, AllocError>
    requires chars { chars input.now ≡ first ∷ chars after.now }
    requires bytes { input.now ≡ encode_utf8 first ++ after.now }
    requires shorter { length after.now < length input.now }
    ensures value { IfOk result (λ found. piece_of found ≡ spec.piece first (chars after.now)) }
    ensures within { IfOk result (IsWithin (length input.now - 1)) }
{
    if is_in(Class::Blank, first) {
        return Ok(Piece::Gap(past(Class::Blank, after)));
    }
    if first == '/'
        && let Some(found) = comment(after)
    {
        return Ok(found);
    }
    token(alloc, input, first, after)
}
