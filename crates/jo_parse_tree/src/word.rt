// Words and text literals, as a tree has them.

use crate::Keyword;
use jo_value::TextId;

/// A word that is not reserved.
#[derive(Clone, Copy)]
pub struct Ident {
    /// Its id in the table of texts.
    pub text: TextId,
    /// The bytes that stand before it in the input.
    pub place: u32,
    /// Whether it reads `__proto__`.
    pub is_proto: bool,
}

/// A text literal.
#[derive(Clone, Copy)]
pub struct Literal {
    /// The id of the text that it stands for.
    pub text: TextId,
    /// Whether it stands for `__proto__`.
    pub is_proto: bool,
}

/// Any word, as the name of a property.
#[derive(Clone, Copy)]
pub enum Name {
    /// A word that is not reserved.
    Ident(Ident),
    /// A reserved word that the grammar names. Its id is that of its text in the table.
    Keyword(Keyword),
    /// Any other reserved word, by its id in the table of texts.
    Reserved(TextId),
}

/// The key of a property of an object literal.
#[derive(Clone, Copy)]
pub enum PropKey {
    Name(Name),
    Text(Literal),
    Number(i64),
}
