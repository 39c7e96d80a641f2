// The rules of the grammar of statements and scripts, by recursive descent.

mod branch;
mod declaration;
mod head;
mod item;
mod print;
mod statement;
