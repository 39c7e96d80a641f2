// The reserved words that the grammar names.
ghost use Rattle.std.specs.Prelude.{◌≡◌};
ghost use Rattle.jo_parse_tree.specs.Words.{keyword_text};

/// A reserved word that has a meaning of its own in the grammar.
#[derive(Clone, Copy, PartialEq, Eq)]
pub enum Keyword {
    Break,
    Cas,
    Continue,
    Delete,
    Else,
    False,
    For,
    If,
    In,
    Let,
    Null,
    Print,
    PrintNames,
    Shared,
    True,
    Undefined,
    While,
}

/// All keywords.
pub const KEYWORDS: [Keyword; 17] = [
    Keyword::Break,
    Keyword::Cas,
    Keyword::Continue,
    Keyword::Delete,
    Keyword::Else,
    Keyword::False,
    Keyword::For,
    Keyword::If,
    Keyword::In,
    Keyword::Let,
    Keyword::Null,
    Keyword::Print,
    Keyword::PrintNames,
    Keyword::Shared,
    Keyword::True,
    Keyword::Undefined,
    Keyword::While,
];

impl Keyword {
    /// The word itself.
    pub fn text(self) -> &'static str
        ensures { result.now ≡ keyword_text self }
    {
        match self {
            Keyword::Break => "break",
            Keyword::Cas => "cas",
            Keyword::Continue => "continue",
            Keyword::Delete => "delete",
            Keyword::Else => "else",
            Keyword::False => "false",
            Keyword::For => "for",
            Keyword::If => "if",
            Keyword::In => "in",
            Keyword::Let => "let",
            Keyword::Null => "null",
            Keyword::Print => "print",
            Keyword::PrintNames => "printNames",
            Keyword::Shared => "shared",
            Keyword::True => "true",
            Keyword::Undefined => "undefined",
            Keyword::While => "while",
        }
    }
}
