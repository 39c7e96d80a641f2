// The characters of a script.
ghost use Rattle.std.specs.Prelude.{◌≡◌, ◌<◌, ◌≤◌, [], ◌∷◌, ◌++◌, length, encode_utf8, MatchOption};
ghost use Rattle.std.specs.List.{take_while};
ghost use Rattle.std.specs.Str.{chars, encode_utf8_all};
ghost use Rattle.jo_value.specs.Texts.{is_digit};
ghost use Rattle.jo_lex.specs.Characters as spec;
ghost use Rattle.jo_lex.specs.inner.Classes.{test_of};
ghost use Rattle.jo_lex.specs.Characters.{EndsWith};

use unicode_ident::{is_xid_continue, is_xid_start};

/// A class of characters.
#[derive(Clone, Copy)]
pub(crate) enum Class {
    /// What stands between tokens.
    Blank,
    /// What does not end a line.
    InLine,
    /// A decimal digit.
    Digit,
    /// What begins a word.
    WordStart,
    /// What goes on with a word.
    WordPart,
    /// What spoils the number before it.
    Spoiler,
}

fn is_line_end(c: char) -> bool
    ensures { result ≡ spec.is_line_end c }
{
    c == '\n' || c == '\r' || c == '\u{2028}' || c == '\u{2029}'
}

fn is_space(c: char) -> bool
    ensures { result ≡ spec.is_space c }
{
    c == ' '
        || c == '\t'
        || c == '\u{b}'
        || c == '\u{c}'
        || c == '\u{a0}'
        || c == '\u{1680}'
        || c >= '\u{2000}' && c <= '\u{200a}'
        || c == '\u{202f}'
        || c == '\u{205f}'
        || c == '\u{3000}'
        || c == '\u{feff}'
}

fn is_joiner(c: char) -> bool
    ensures { result ≡ spec.is_joiner c }
{
    c == '\u{200c}' || c == '\u{200d}'
}

fn is_digit(c: char) -> bool
    ensures { result ≡ is_digit c }
{
    c >= '0' && c <= '9'
}

fn is_word_start(c: char) -> bool
    ensures { result ≡ spec.is_word_start c }
{
    is_xid_start(c) || c == '_' || c == '$'
}

fn is_word_part(c: char) -> bool
    ensures { result ≡ spec.is_word_part c }
{
    is_xid_continue(c) && !is_joiner(c) || c == '$'
}

fn is_spoiler(c: char) -> bool
    ensures { result ≡ spec.is_spoiler c }
{
    is_digit(c) || is_word_start(c) || c == '.' || c == '\\'
}

/// Whether the character is of the class.
pub(crate) fn is_in(class: Class, c: char) -> bool
    ensures { result ≡ test_of class c }
{
    match class {
        Class::Blank => is_space(c) || is_line_end(c),
        Class::InLine => !is_line_end(c),
        Class::Digit => is_digit(c),
        Class::WordStart => is_word_start(c),
        Class::WordPart => is_word_part(c),
        Class::Spoiler => is_spoiler(c),
    }
}

/// The first character of an input, and what follows it.
pub(crate) fn first_of(input: &str) -> Option<(char, &str)>
    ensures { MatchOption result ((chars input.now ≡ []) × (length input.now ≡ 0))
        (λ (c, rest). (chars input.now ≡ c ∷ chars rest.now) × (length rest.now < length input.now)
        × (input.now ≡ encode_utf8 c ++ rest.now)) }
{
    let mut chars = input.chars();
    match chars.next() {
        Some(c) => Some((c, chars.as_str())),
        None => None,
    }
}

/// Whether an input begins with a character of the class.
pub(crate) fn begins(class: Class, input: &str) -> bool
    ensures { result ≡ spec.begins_with (test_of class) (chars input.now) }
{
    match first_of(input) {
        Some((c, _)) => is_in(class, c),
        None => false,
    }
}

/// What follows the characters of the class that an input begins with.
pub(crate) fn past(class: Class, input: &str) -> &str
    ensures rest { chars result.now ≡ spec.drop_while (test_of class) (chars input.now) }
    ensures suffix { EndsWith input.now result.now }
{
    let mut rest = input;
    while let Some((c, after)) = first_of(rest) {
        if !is_in(class, c) {
            return rest;
        }
        rest = after;
    }
    rest
}
