// Expressions: a type for each rule of the grammar, but one for all levels of binary operators. What is large stands in
// boxes, so that an expression is small wherever it is passed on.

use crate::{AssignOperator, BinaryOperator, Ident, Literal, Name, PropKey, UnaryOperator};
use sqlite_items::{Boxed, Items};

/// An expression.
#[cycle(tree)]
#[derive(Drop)]
pub enum Expr {
    Cond(Cond),
    Assign(Boxed<Assign>),
}

/// A target that is given a value.
#[cycle(tree)]
#[derive(Drop)]
pub struct Assign {
    pub target: Target,
    pub operator: AssignOperator,
    pub value: Boxed<Expr>,
}

/// What can be given a value.
#[cycle(tree)]
#[derive(Drop)]
pub enum Target {
    Ident(Ident),
    Member(Boxed<Member>),
}

/// A conditional expression, or a chain of operators.
#[cycle(tree)]
#[derive(Drop)]
pub enum Cond {
    Chain(Chain),
    Choice(Boxed<Choice>),
}

/// A conditional expression.
#[cycle(tree)]
#[derive(Drop)]
pub struct Choice {
    pub condition: Chain,
    pub then: Boxed<Expr>,
    pub otherwise: Boxed<Expr>,
}

/// A chain of binary operators of one level, or a unary expression.
#[cycle(tree)]
#[derive(Drop)]
pub enum Chain {
    Unary(Unary),
    Binary(Boxed<Binary>),
}

/// Operands that binary operators of one level join. There are two operands at least.
#[cycle(tree)]
#[derive(Drop)]
pub struct Binary {
    /// How tightly the operators bind, from 3 for `||` to 8 for `*`.
    pub level: u8,
    pub first: Chain,
    pub links: Items<Link>,
}

/// A binary operator and its right operand.
#[cycle(tree)]
#[derive(Drop)]
pub struct Link {
    pub operator: BinaryOperator,
    pub operand: Chain,
}

/// An operand of binary operators.
#[cycle(tree)]
#[derive(Drop)]
pub enum Unary {
    Applied(UnaryOperator, Boxed<Unary>),
    Delete(Boxed<Member>),
    Postfix(Postfix),
}

/// A primary expression, or a property of one.
#[cycle(tree)]
#[derive(Drop)]
pub enum Postfix {
    Primary(Primary),
    Member(Boxed<Member>),
}

/// A property, through one access at least.
#[cycle(tree)]
#[derive(Drop)]
pub struct Member {
    pub base: Primary,
    pub accesses: Items<Access>,
}

/// How a property is named.
#[cycle(tree)]
#[derive(Drop)]
pub enum Access {
    /// `.name`
    Name(Name),
    /// `[key]`
    Key(Boxed<Expr>),
}

/// A primary expression.
#[cycle(tree)]
#[derive(Drop)]
pub enum Primary {
    Number(i64),
    Text(Literal),
    True,
    False,
    Null,
    Undefined,
    Shared,
    Ident(Ident),
    Object(Boxed<Object>),
    Group(Boxed<Expr>),
    Cas(Boxed<Cas>),
}

/// An object literal.
#[cycle(tree)]
#[derive(Drop)]
pub struct Object {
    pub props: Items<Prop>,
    /// Whether a comma stands before the closing brace.
    pub has_comma: bool,
}

/// A property of an object literal.
#[cycle(tree)]
#[derive(Drop)]
pub struct Prop {
    pub key: PropKey,
    pub value: Boxed<Expr>,
}

/// The arguments of `cas`.
#[cycle(tree)]
#[derive(Drop)]
pub struct Cas {
    pub object: Boxed<Expr>,
    pub key: Boxed<Expr>,
    pub expected: Boxed<Expr>,
    pub desired: Boxed<Expr>,
}
