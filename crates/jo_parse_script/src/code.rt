// Kinds of terminal, each as a number.
ghost use Rattle.std.specs.Prelude.{◌≡◌};
ghost use Rattle.jo_parse_grammar.specs.inner.Read as spec;

use jo_lex::Punct;
use jo_parse_grammar::Terminal;
use jo_parse_tree::Keyword;

fn punct_code(punct: Punct) -> u8
    ensures { result ≡ spec.punct_code punct }
{
    punct as u8
}

fn keyword_code(keyword: Keyword) -> u8
    ensures { result ≡ spec.keyword_code keyword }
{
    keyword as u8
}

/// The kind of a terminal: punctuators and keywords are kinds of their own.
pub(crate) fn code(terminal: Terminal) -> u8
    ensures { result ≡ spec.code terminal }
{
    match terminal {
        Terminal::Ident(_) => 0,
        Terminal::Reserved(_) => 1,
        Terminal::Number(_) => 2,
        Terminal::Text(_) => 3,
        Terminal::End => 4,
        Terminal::Punct(punct) => 5 + punct_code(punct),
        Terminal::Keyword(keyword) => 32 + keyword_code(keyword),
    }
}
