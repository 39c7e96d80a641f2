// Terminals.

use jo_lex::Punct;
use jo_parse_tree::{Ident, Keyword, Literal};
use jo_value::TextId;

/// A token as the grammar sees it: where it does not matter, without its place and text.
#[derive(Clone, Copy)]
pub enum Terminal {
    /// A word that is not reserved.
    Ident(Ident),
    /// A reserved word that the grammar names.
    Keyword(Keyword),
    /// Any other reserved word, by its id in the table of texts.
    Reserved(TextId),
    /// A number literal.
    Number(i64),
    /// A text literal.
    Text(Literal),
    /// A punctuator.
    Punct(Punct),
    /// What stands past the last token. No script has it within.
    End,
}
