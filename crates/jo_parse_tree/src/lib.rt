//! The syntax trees of scripts.
#![tactic(auto)]

mod expr;
mod keyword;
mod operator;
mod script;
mod word;

pub use expr::{
    Access, Assign, Binary, Cas, Chain, Choice, Cond, Expr, Link, Member, Object, Postfix, Primary,
    Prop, Target, Unary,
};
pub use keyword::{KEYWORDS, Keyword};
pub use operator::{AssignOperator, BinaryOperator, UnaryOperator};
pub use script::{Binding, Block, For, ForHead, If, Item, Let, Script, Statement, While};
pub use word::{Ident, Literal, Name, PropKey};
