//! The code of scripts.
#![tactic(auto)]

mod assignments;
mod chains;
mod code;
mod compiler;
mod counts;
mod declarations;
mod draft;
mod expressions;
mod instruction;
mod members;
mod needs;
mod objects;
mod operands;
mod readings;
mod scope;
mod statements;
mod usage;
mod values;

pub use code::Code;
pub use compiler::compile;
pub use instruction::{Base, Destination, Instruction, Operand};
