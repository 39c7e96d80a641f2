// The blocks around a place.
ghost use Rattle.std.specs.Prelude.{◌≡◌, [], ◌∷◌, IfOk, OnOk, reverse};
ghost use Rattle.jo_parse_grammar.specs.Declarations.{at_beginning, is_among, is_bound};
ghost use Rattle.jo_parse_names.specs.inner.Blocks.{Ends, IsAlike, all_of, left};
ghost use Rattle.jo_parse_tree.specs.Blocks.{declared_in, names_of};
ghost use Rattle.jo_parse_tree.specs.ScriptViews.{bindings_list, items_list};

use crate::block::Block;
use jo_parse_tree::{Binding, Item};
use std::alloc::{AllocError, Global};
use std::marker::Model;
use std::mem;

// Whether a use of the name has a meaning. The innermost block is the last one.
fn is_bound_in(mut blocks: &[Block], name: u16) -> bool
    ensures { result ≡ is_bound (reverse blocks.entry.now) name }
{
    while let Some((block, outer)) = blocks.split_last() {
        if block.declares(name) {
            return block.has_ended(name);
        }
        blocks = outer;
    }
    false
}

/// The blocks around a place. Contracts see the innermost one and those around it, from within.
#[derive(Drop)]
pub(crate) struct Scopes {
    alloc: Global,
    innermost: Block,
    outer: Vec<Block>,
}

impl Model for Scopes {
    ghost use Rattle.std.specs.Prelude.{reverse};
    ghost use Rattle.jo_parse_names.specs.inner.Blocks.{Scopes};

    ghost Value = { Scopes };

    ghost view = { λ s. (s.innermost, reverse s.outer.items) };
}

impl Scopes {
    pub(crate) fn new(alloc: Global, innermost: Block) -> Scopes
        ensures { result ≡ (innermost, []) }
    {
        Scopes {
            alloc,
            innermost,
            outer: Vec::new(alloc),
        }
    }

    /// A block that declares nothing.
    pub(crate) fn empty_block(&self) -> Block
        ensures { result ≡ at_beginning [] }
    {
        Block::new(self.alloc)
    }

    /// The block of the items, at its beginning.
    pub(crate) fn of_items(&self, items: &[Item]) -> Result<Block, AllocError>
        ensures { IfOk result (λ block. IsAlike block (at_beginning (declared_in (items_list items.now)))) }
    {
        Block::of_items(self.alloc, items)
    }

    /// The block of a `for` with these declarations, at its beginning.
    pub(crate) fn of_bindings(&self, bindings: &[Binding]) -> Result<Block, AllocError>
        ensures { IfOk result (λ block. IsAlike block (at_beginning (names_of (bindings_list bindings.now)))) }
    {
        Block::of_bindings(self.alloc, bindings)
    }

    /// Goes into a block.
    pub(crate) fn enter(&mut self, block: Block) -> Result<(), AllocError>
        ensures { OnOk result (self.new ≡ (block, all_of self.old)) }
    {
        let before = mem::replace(&mut self.innermost, block);
        self.outer.push(before)?;
        Ok(())
    }

    /// Goes out of the innermost block.
    pub(crate) fn leave(&mut self)
        ensures { self.new ≡ left self.old }
    {
        if let Some(before) = self.outer.pop() {
            self.innermost = before;
        }
    }

    /// A binding of the name has ended.
    pub(crate) fn end(&mut self, name: u16) -> Result<(), AllocError>
        ensures block { OnOk result (Ends self.old.0 name self.new.0) }
        ensures outer { OnOk result (self.new.1 ≡ self.old.1) }
    {
        self.innermost.end(name)
    }

    pub(crate) fn has_ended(&self, name: u16) -> bool
        ensures { result ≡ is_among self.now.0.ended name }
    {
        self.innermost.has_ended(name)
    }

    /// Whether a use of the name has a meaning.
    pub(crate) fn is_bound(&self, name: u16) -> bool
        ensures { result ≡ is_bound (all_of self.now) name }
    {
        if self.innermost.declares(name) {
            return self.innermost.has_ended(name);
        }
        is_bound_in(&self.outer, name)
    }
}
