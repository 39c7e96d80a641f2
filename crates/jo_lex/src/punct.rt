// The punctuators.
ghost use Rattle.std.specs.Prelude.{◌≡◌};
ghost use Rattle.jo_lex.specs.inner.Views.{entries_of, entries_for};

/// A punctuator that is accepted.
#[derive(Clone, Copy, PartialEq, Eq)]
pub enum Punct {
    OpenBrace,
    CloseBrace,
    OpenParen,
    CloseParen,
    OpenBracket,
    CloseBracket,
    Dot,
    Semicolon,
    Comma,
    Less,
    Greater,
    LessEqual,
    GreaterEqual,
    Same,
    NotSame,
    Plus,
    Minus,
    Star,
    Percent,
    Bang,
    AndAnd,
    OrOr,
    Question,
    Colon,
    Assign,
    PlusAssign,
    MinusAssign,
}

// A punctuator of ECMAScript, and its value where it is accepted.
type Row = (&'static str, Option<Punct>);

// Those that begin alike, the longer ones first.
const DOTS: [Row; 2] = [("...", None), (".", Some(Punct::Dot))];

const LESS: [Row; 4] = [
    ("<<=", None),
    ("<=", Some(Punct::LessEqual)),
    ("<<", None),
    ("<", Some(Punct::Less)),
];

const GREATER: [Row; 6] = [
    (">>>=", None),
    (">>>", None),
    (">>=", None),
    (">=", Some(Punct::GreaterEqual)),
    (">>", None),
    (">", Some(Punct::Greater)),
];

const EQUALS: [Row; 4] = [
    ("===", Some(Punct::Same)),
    ("==", None),
    ("=>", None),
    ("=", Some(Punct::Assign)),
];

const BANGS: [Row; 3] = [
    ("!==", Some(Punct::NotSame)),
    ("!=", None),
    ("!", Some(Punct::Bang)),
];

const PLUSES: [Row; 3] = [
    ("+=", Some(Punct::PlusAssign)),
    ("++", None),
    ("+", Some(Punct::Plus)),
];

const MINUSES: [Row; 3] = [
    ("-=", Some(Punct::MinusAssign)),
    ("--", None),
    ("-", Some(Punct::Minus)),
];

const STARS: [Row; 4] = [
    ("**=", None),
    ("**", None),
    ("*=", None),
    ("*", Some(Punct::Star)),
];

const SLASHES: [Row; 2] = [("/=", None), ("/", None)];

const PERCENTS: [Row; 2] = [("%=", None), ("%", Some(Punct::Percent))];

const ANDS: [Row; 4] = [
    ("&&=", None),
    ("&&", Some(Punct::AndAnd)),
    ("&=", None),
    ("&", None),
];

const ORS: [Row; 4] = [
    ("||=", None),
    ("||", Some(Punct::OrOr)),
    ("|=", None),
    ("|", None),
];

const CARETS: [Row; 2] = [("^=", None), ("^", None)];

const QUESTIONS: [Row; 4] = [
    ("??=", None),
    ("??", None),
    ("?.", None),
    ("?", Some(Punct::Question)),
];

/// The punctuators that begin with the character, the longer ones first.
pub(crate) fn beginning_with(first: char) -> &'static [Row]
    ensures { entries_of result.now ≡ entries_for first }
{
    match first {
        '{' => &[("{", Some(Punct::OpenBrace))],
        '}' => &[("}", Some(Punct::CloseBrace))],
        '(' => &[("(", Some(Punct::OpenParen))],
        ')' => &[(")", Some(Punct::CloseParen))],
        '[' => &[("[", Some(Punct::OpenBracket))],
        ']' => &[("]", Some(Punct::CloseBracket))],
        ';' => &[(";", Some(Punct::Semicolon))],
        ',' => &[(",", Some(Punct::Comma))],
        ':' => &[(":", Some(Punct::Colon))],
        '~' => &[("~", None)],
        '.' => &DOTS,
        '<' => &LESS,
        '>' => &GREATER,
        '=' => &EQUALS,
        '!' => &BANGS,
        '+' => &PLUSES,
        '-' => &MINUSES,
        '*' => &STARS,
        '/' => &SLASHES,
        '%' => &PERCENTS,
        '&' => &ANDS,
        '|' => &ORS,
        '^' => &CARETS,
        '?' => &QUESTIONS,
        _ => &[],
    }
}
