// Number and text literals.
ghost use Rattle.std.specs.Prelude.{◌≡◌, ◌+◌, ◌≤◌, ℕ, true, false, min, length, IfOk, IfSome};
ghost use Rattle.std.specs.Option.{option_map};
ghost use Rattle.std.specs.Str.{chars};
ghost use Rattle.std.specs.String.{string_bytes};
ghost use Rattle.jo_value.specs.declared.limits.TheConstants.{MOST_NUMBER};
ghost use Rattle.jo_value.specs.Texts.{is_digit};
ghost use Rattle.jo_lex.specs.Pieces as spec;
ghost use Rattle.jo_lex.specs.inner.Views.{piece_of, stroke_of, IsWithin};

use crate::RefusalKind;
use crate::beginning::front;
use crate::character::{Class, begins, first_of, past};
use crate::piece::{Lexeme, Piece};
use jo_value::{MOST_NUMBER, MOST_TEXT_BYTES};
use std::alloc::{AllocError, Global};

/// What a character does in a text literal.
#[derive(Clone, Copy)]
pub(crate) enum Stroke {
    /// It ends the literal.
    Close,
    /// It makes the next character stand for itself.
    Escape,
    /// It stands for itself.
    Take,
    /// It may not stand there.
    Refuse,
}

fn is_escapable(c: char) -> bool
    ensures { result ≡ spec.is_escapable c }
{
    c == '\\' || c == '"' || c == '\''
}

// What a character does in a literal with this quote, where a backslash stands before it or not.
fn stroke_of(escaped: bool, quote: char, c: char) -> Stroke
    ensures { result ≡ stroke_of escaped quote c }
{
    if escaped {
        return if is_escapable(c) {
            Stroke::Take
        } else {
            Stroke::Refuse
        };
    }
    if c == quote {
        return Stroke::Close;
    }
    match c {
        '\\' => Stroke::Escape,
        '\n' | '\r' => Stroke::Refuse,
        _ => Stroke::Take,
    }
}

// What the literal with this quote stands for, and what is left after its closing quote.
fn literal_rest(
    alloc: Global,
    quote: char,
    input: &str,
) -> Result<Option<(String, &str)>, AllocError>
    ensures value { IfOk result (λ found.
        option_map (λ (string, rest). (string_bytes string, chars rest.now)) found
        ≡ spec.literal_rest false quote (chars input.now)) }
    ensures within { IfOk result (λ found. IfSome found (λ (string, rest).
        length rest.now ≤ length input.now)) }
{
    let mut string = String::new(alloc);
    let mut escaped = false;
    let mut rest = input;
    while let Some((c, after)) = first_of(rest) {
        match stroke_of(escaped, quote, c) {
            Stroke::Close => return Ok(Some((string, after))),
            Stroke::Escape => escaped = true,
            Stroke::Take => {
                string.push(c)?;
                escaped = false;
            }
            Stroke::Refuse => return Ok(None),
        }
        rest = after;
    }
    Ok(None)
}

// The text literal with this quote, after it.
pub(crate) fn text_literal(alloc: Global, quote: char, input: &str) -> Result<Piece<'_>, AllocError>
    ensures value { IfOk result (λ found.
        piece_of found ≡ spec.text_piece (spec.literal_rest false quote (chars input.now))) }
    ensures within { IfOk result (IsWithin (length input.now)) }
{
    match literal_rest(alloc, quote, input)? {
        Some((string, rest)) if string.len() <= MOST_TEXT_BYTES => {
            Ok(Piece::Token(Lexeme::Text(string), rest))
        }
        _ => Ok(Piece::Fault(RefusalKind::BadToken)),
    }
}

// The number of these digits after those of the first, or one more than the largest.
fn decimal(first: u64, digits: &str) -> u64
    requires { first ≤ MOST_NUMBER + 1 }
    ensures { result ≡ min (spec.decimal first (chars digits.now)) (MOST_NUMBER + 1) }
{
    let mut n = first;
    let mut rest = digits;
    while let Some((d, after)) = first_of(rest) {
        n = (n * 10 + u64::from(u32::from(d)).saturating_sub(48)).min(MOST_NUMBER + 1);
        rest = after;
    }
    n
}

// A number, or one more than the largest, before what is left.
fn judged(n: u64, rest: &str) -> Piece<'_>
    requires { n ≤ MOST_NUMBER + 1 }
    ensures value { (m : ℕ) → n ≡ min m (MOST_NUMBER + 1)
        → piece_of result ≡ spec.judged m (chars rest.now) }
    ensures within { IsWithin (length rest.now) result }
{
    if begins(Class::Spoiler, rest) {
        return Piece::Fault(RefusalKind::BadToken);
    }
    if n > MOST_NUMBER {
        return Piece::Fault(RefusalKind::NumberTooLarge);
    }
    Piece::Token(Lexeme::Number(n as i64), rest)
}

// The number that begins with this digit.
pub(crate) fn number(first: char, after: &str) -> Piece<'_>
    requires { is_digit first ≡ true }
    ensures value { piece_of result ≡ spec.number_piece first (chars after.now) }
    ensures within { IsWithin (length after.now) result }
{
    if first == '0' {
        return judged(0, after);
    }
    let rest = past(Class::Digit, after);
    let digits = front(after, rest);
    judged(decimal(u64::from(u32::from(first)) - 48, digits), rest)
}
