// The tokens of a script.

use crate::Punct;
use jo_parse_tree::Keyword;
use jo_value::TextId;

/// What a token is. Words and text literals are named by their ids in the table of texts, a keyword by itself.
#[derive(Clone, Copy, PartialEq, Eq)]
pub enum TokenKind {
    /// A word that is not reserved.
    Word(TextId),
    /// A reserved word that the grammar names.
    Keyword(Keyword),
    /// Any other reserved word.
    Reserved(TextId),
    /// A number literal.
    Number(i64),
    /// A text literal, as what it stands for.
    Text(TextId),
    /// A punctuator.
    Punct(Punct),
    /// The end of the script.
    End,
}

/// A token and its place: the bytes before it, and those before what follows it.
#[derive(Clone, Copy)]
pub struct Token {
    pub kind: TokenKind,
    pub start: u32,
    pub end: u32,
}
