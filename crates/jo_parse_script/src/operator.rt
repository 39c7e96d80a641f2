// What a terminal does in an expression.
ghost use Rattle.std.specs.Prelude.{◌≡◌, true, false, MatchOption};
ghost use Rattle.jo_parse_grammar.specs.inner.Read as spec;
ghost use Rattle.jo_parse_grammar.specs.declared.terminal.Terminal.TheVariants as t;

use jo_lex::Punct;
use jo_parse_grammar::Terminal;
use jo_parse_tree::{
    AssignOperator, BinaryOperator, Keyword, Literal, Name, PropKey, UnaryOperator,
};

fn punct_rank(punct: Punct) -> u8
    ensures { result ≡ spec.punct_rank punct }
{
    match punct {
        Punct::Assign | Punct::PlusAssign | Punct::MinusAssign => 1,
        Punct::Question => 2,
        Punct::OrOr => 3,
        Punct::AndAnd => 4,
        Punct::Same | Punct::NotSame => 5,
        Punct::Less | Punct::Greater | Punct::LessEqual | Punct::GreaterEqual => 6,
        Punct::Plus | Punct::Minus => 7,
        Punct::Star | Punct::Percent => 8,
        Punct::Dot | Punct::OpenBracket => 10,
        _ => 0,
    }
}

/// How tightly a terminal after an expression binds, or 0 where it does not. `ins` says whether `in` does.
pub(crate) fn rank(ins: bool, terminal: Terminal) -> u8
    ensures { result ≡ spec.rank ins terminal }
{
    match terminal {
        Terminal::Punct(punct) => punct_rank(punct),
        Terminal::Keyword(Keyword::In) if ins => 6,
        _ => 0,
    }
}

/// The binary operator of a terminal that has the rank of one.
pub(crate) fn binary_of(terminal: Terminal) -> BinaryOperator
    ensures { result ≡ spec.binary_of terminal }
{
    match terminal {
        Terminal::Punct(Punct::AndAnd) => BinaryOperator::And,
        Terminal::Punct(Punct::Same) => BinaryOperator::Same,
        Terminal::Punct(Punct::NotSame) => BinaryOperator::NotSame,
        Terminal::Punct(Punct::Less) => BinaryOperator::Less,
        Terminal::Punct(Punct::Greater) => BinaryOperator::Greater,
        Terminal::Punct(Punct::LessEqual) => BinaryOperator::LessEqual,
        Terminal::Punct(Punct::GreaterEqual) => BinaryOperator::GreaterEqual,
        Terminal::Keyword(Keyword::In) => BinaryOperator::In,
        Terminal::Punct(Punct::Plus) => BinaryOperator::Plus,
        Terminal::Punct(Punct::Minus) => BinaryOperator::Minus,
        Terminal::Punct(Punct::Star) => BinaryOperator::Times,
        Terminal::Punct(Punct::Percent) => BinaryOperator::Remainder,
        _ => BinaryOperator::Or,
    }
}

/// The operator of a terminal that has the rank of an assignment.
pub(crate) fn assign_of(terminal: Terminal) -> AssignOperator
    ensures { result ≡ spec.assign_of terminal }
{
    match terminal {
        Terminal::Punct(Punct::PlusAssign) => AssignOperator::Add,
        Terminal::Punct(Punct::MinusAssign) => AssignOperator::Subtract,
        _ => AssignOperator::Set,
    }
}

/// The unary operator, but for `delete`.
pub(crate) fn sign_of(terminal: Terminal) -> Option<UnaryOperator>
    ensures { MatchOption result (spec.is_sign terminal ≡ false)
        (λ sign. (spec.is_sign terminal ≡ true) × (sign ≡ spec.sign_of terminal)) }
{
    match terminal {
        Terminal::Punct(Punct::Minus) => Some(UnaryOperator::Minus),
        Terminal::Punct(Punct::Bang) => Some(UnaryOperator::Not),
        _ => None,
    }
}

/// The name of a property after a dot.
pub(crate) fn name_of(terminal: Terminal) -> Option<Name>
    ensures { result ≡ spec.name_of terminal }
{
    match terminal {
        Terminal::Ident(ident) => Some(Name::Ident(ident)),
        Terminal::Keyword(keyword) => Some(Name::Keyword(keyword)),
        Terminal::Reserved(text) => Some(Name::Reserved(text)),
        _ => None,
    }
}

fn text_key(text: Literal) -> Option<PropKey>
    ensures { result ≡ spec.key_of (t.Text text) }
{
    if text.is_proto {
        None
    } else {
        Some(PropKey::Text(text))
    }
}

/// The key of a property of an object literal.
pub(crate) fn key_of(terminal: Terminal) -> Option<PropKey>
    ensures { result ≡ spec.key_of terminal }
{
    match terminal {
        Terminal::Ident(ident) if ident.is_proto => None,
        Terminal::Text(text) => text_key(text),
        Terminal::Number(number) => Some(PropKey::Number(number)),
        _ => Some(PropKey::Name(name_of(terminal)?)),
    }
}
