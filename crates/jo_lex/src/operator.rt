// Punctuators at the front of an input.
ghost use Rattle.std.specs.Prelude.{◌≡◌, ◌+◌, ◌-◌, ◌<◌, [], ◌∷◌, true, false, length, take, drop, MatchOption, Some, None};
ghost use Rattle.std.specs.Str.{chars};
ghost use Rattle.jo_lex.specs.Pieces as spec;
ghost use Rattle.jo_lex.specs.Punctuators.{fits, longest, punctuator_of, Row};
ghost use Rattle.jo_lex.specs.inner.Views.{piece_of, IsWithin, entries_of, is_ascii, is_falling};

use crate::character::{Class, begins};
use crate::piece::{Lexeme, Piece};
use crate::punct::beginning_with;
use crate::{Punct, RefusalKind};

// What is left after the punctuator, where the input begins with it.
fn past_punctuator<'a>(punctuator: &str, input: &'a str) -> Option<&'a str>
    requires { is_ascii punctuator.now ≡ true }
    ensures { MatchOption result (fits punctuator.now (chars input.now) ≡ false)
        (λ rest. (fits punctuator.now (chars input.now) ≡ true)
        × (chars rest.now ≡ drop (length punctuator.now) (chars input.now))
        × (length punctuator.now + length rest.now ≡ length input.now)) }
{
    match input.strip_prefix(punctuator) {
        Some(rest) if punctuator == "?." && begins(Class::Digit, rest) => None,
        Some(rest) => Some(rest),
        None => None,
    }
}

// The value of the longest punctuator of the table at the front of the input, and what is left.
fn lookup<'a>(
    mut table: &[(&str, Option<Punct>)],
    input: &'a str,
) -> Option<(Option<Punct>, &'a str)>
    requires { is_falling 4 (entries_of table.now) ≡ true }
    ensures { MatchOption result (longest (entries_of table.entry.now) (chars input.now) ≡ None)
        (λ (value, rest). (entry : Row)
        × (longest (entries_of table.entry.now) (chars input.now) ≡ Some entry) × (entry.1 ≡ value)
        × (chars rest.now ≡ drop (length entry.0) (chars input.now))
        × (length rest.now < length input.now)) }
{
    while let [entry, rest @ ..] = table {
        if let Some(left) = past_punctuator(entry.0, input) {
            return Some((entry.1, left));
        }
        table = rest;
    }
    None
}

// The longest punctuator of an input with this first character, where it is accepted.
pub(crate) fn operator(input: &str, first: char) -> Piece<'_>
    requires { take 1 (chars input.now) ≡ first ∷ [] }
    ensures value { let cs = chars input.now in
        piece_of result ≡ spec.punctuator_piece (punctuator_of cs) cs }
    ensures within { IsWithin (length input.now - 1) result }
{
    match lookup(beginning_with(first), input) {
        Some((Some(punct), rest)) => Piece::Token(Lexeme::Punct(punct), rest),
        _ => Piece::Fault(RefusalKind::BadToken),
    }
}
