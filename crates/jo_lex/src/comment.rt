// Comments.
ghost use Rattle.std.specs.Prelude.{◌≡◌, ◌≤◌, ◌&&◌, ◌==◌, true, false, length, drop, IfSome, MatchOption};
ghost use Rattle.std.specs.Option.{option_map};
ghost use Rattle.std.specs.Str.{chars};
ghost use Rattle.jo_lex.specs.Characters.{begins_with};
ghost use Rattle.jo_lex.specs.Pieces as spec;
ghost use Rattle.jo_lex.specs.inner.Views.{piece_of, IsWithin};

use crate::RefusalKind;
use crate::character::{Class, first_of, past};
use crate::piece::Piece;

// What follows a `*/` that begins with this character.
fn past_close(c: char, after: &str) -> Option<&str>
    ensures { MatchOption result ((c == 42 && begins_with (λ d. d == 47) (chars after.now)) ≡ false)
        (λ rest. ((c == 42 && begins_with (λ d. d == 47) (chars after.now)) ≡ true)
        × (chars rest.now ≡ drop 1 (chars after.now)) × (length rest.now ≤ length after.now)) }
{
    match first_of(after) {
        Some((d, rest)) if c == '*' && d == '/' => Some(rest),
        _ => None,
    }
}

// What follows the first `*/`.
fn after_close(input: &str) -> Option<&str>
    ensures rest { option_map (λ rest. chars rest.now) result ≡ spec.after_close (chars input.now) }
    ensures within { IfSome result (λ rest. length rest.now ≤ length input.now) }
{
    let mut rest = input;
    while let Some((c, after)) = first_of(rest) {
        if let Some(end) = past_close(c, after) {
            return Some(end);
        }
        rest = after;
    }
    None
}

// The comment that goes on so after a `/`.
pub(crate) fn comment(input: &str) -> Option<Piece<'_>>
    ensures value { option_map piece_of result ≡ spec.comment (chars input.now) }
    ensures within { IfSome result (IsWithin (length input.now)) }
{
    match first_of(input) {
        Some(('/', after)) => Some(Piece::Gap(past(Class::InLine, after))),
        Some(('*', after)) => Some(match after_close(after) {
            Some(rest) => Piece::Gap(rest),
            None => Piece::Fault(RefusalKind::BadToken),
        }),
        _ => None,
    }
}
