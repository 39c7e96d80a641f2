// From the tokens of a script to the terminals of the grammar.
ghost use Rattle.std.specs.Prelude.{◌≡◌, IfOk};
ghost use Rattle.jo_parse_grammar.specs.Terminals as spec;

use jo_lex::{Token, TokenKind};
use jo_parse_grammar::Terminal;
use jo_parse_tree::{Ident, Literal};
use jo_value::{TextId, Texts};
use std::alloc::{AllocError, Global};

// The name that is no key of an object literal. Variables may have it.
const PROTO: &str = "__proto__";

fn is_proto(texts: &Texts, id: TextId) -> bool
    ensures { result ≡ spec.is_proto texts.now id }
{
    texts.bytes(id) == PROTO.as_bytes()
}

fn terminal(texts: &Texts, token: &Token) -> Terminal
    ensures { result ≡ spec.terminal_of texts.now token.now }
{
    match token.kind {
        TokenKind::Word(id) => Terminal::Ident(Ident {
            text: id,
            place: token.start,
            is_proto: is_proto(texts, id),
        }),
        TokenKind::Keyword(keyword) => Terminal::Keyword(keyword),
        TokenKind::Reserved(id) => Terminal::Reserved(id),
        TokenKind::Number(number) => Terminal::Number(number),
        TokenKind::Text(id) => Terminal::Text(Literal {
            text: id,
            is_proto: is_proto(texts, id),
        }),
        TokenKind::Punct(punct) => Terminal::Punct(punct),
        TokenKind::End => Terminal::End,
    }
}

fn is_end(token: &Token) -> bool
    ensures { result ≡ spec.is_end token.now }
{
    matches!(token.kind, TokenKind::End)
}

/// The terminals of the tokens before the end.
pub(crate) fn terminals(
    alloc: Global,
    tokens: &[Token],
    texts: &Texts,
) -> Result<Vec<Terminal>, AllocError>
    ensures { IfOk result (λ found. found.items ≡ spec.terminals_of texts.now tokens.now) }
{
    tokens
        .iter()
        .take_while(|token| !is_end(token))
        .map(|token| terminal(texts, token))
        .collect(alloc)
}
