// Statements and scripts: a type for each rule of the grammar.

use crate::{Expr, Ident};
use sqlite_items::{Boxed, Items};

/// A script.
#[derive(Drop)]
pub struct Script {
    pub items: Items<Item>,
}

/// A part of a script or of a block.
#[cycle(statement)]
#[derive(Drop)]
pub enum Item {
    Let(Let),
    Statement(Statement),
}

/// The declarations of one `let`. There is one at least.
#[derive(Drop)]
pub struct Let {
    pub bindings: Items<Binding>,
}

/// A declared variable and its initial value, where it has one.
#[derive(Drop)]
pub struct Binding {
    pub ident: Ident,
    pub value: Option<Boxed<Expr>>,
}

/// A statement. What is large stands in boxes, so that many small statements take little room.
#[cycle(statement)]
#[derive(Drop)]
pub enum Statement {
    Empty,
    Block(Block),
    If(Boxed<If>),
    While(Boxed<While>),
    For(Boxed<For>),
    Break,
    Continue,
    Print(Items<Expr>),
    PrintNames(Boxed<Expr>),
    Expr(Boxed<Expr>),
}

/// Items in braces.
#[cycle(statement)]
#[derive(Drop)]
pub struct Block {
    pub items: Items<Item>,
}

/// An `if`, with or without an `else`.
#[cycle(statement)]
#[derive(Drop)]
pub struct If {
    pub condition: Boxed<Expr>,
    pub then: Statement,
    pub otherwise: Option<Statement>,
}

/// A `while`.
#[cycle(statement)]
#[derive(Drop)]
pub struct While {
    pub condition: Boxed<Expr>,
    pub body: Statement,
}

/// A `for`.
#[cycle(statement)]
#[derive(Drop)]
pub struct For {
    pub head: ForHead,
    pub condition: Option<Boxed<Expr>>,
    pub step: Option<Boxed<Expr>>,
    pub body: Statement,
}

/// The first part of the head of a `for`.
#[derive(Drop)]
pub enum ForHead {
    Let(Let),
    Expr(Option<Boxed<Expr>>),
}
