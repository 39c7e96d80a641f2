// The names of one block.
ghost use Rattle.std.specs.Prelude.{◌≡◌, [], IfOk, OnOk};
ghost use Rattle.jo_parse_grammar.specs.Declarations.{at_beginning, is_among};
ghost use Rattle.jo_parse_names.specs.inner.Blocks.{Declares, DeclaresAll, Ends, IsAlike, item_names};
ghost use Rattle.jo_parse_tree.specs.Blocks.{declared_in, names_of};
ghost use Rattle.jo_parse_tree.specs.ScriptViews.{bindings_list, items_list};

use jo_parse_tree::{Binding, Item};
use std::alloc::{AllocError, Global};
use std::collections::HashSet;
use std::marker::Model;

/// A block at some place in it: the names that it declares anywhere, and those of which a binding has ended before.
/// A block that declares nothing takes no memory.
#[derive(Drop)]
pub(crate) struct Block {
    names: HashSet<u16>,
    ended: HashSet<u16>,
}

impl Model for Block {
    ghost use Rattle.jo_parse_grammar.specs.Declarations.{Scope};

    ghost Value = { Scope };

    ghost view = { λ b. record { names = b.names.keys; ended = b.ended.keys } };
}

impl Block {
    pub(crate) fn new(alloc: Global) -> Block
        ensures { result ≡ at_beginning [] }
    {
        Block {
            names: HashSet::new(alloc),
            ended: HashSet::new(alloc),
        }
    }

    fn declare(&mut self, name: u16) -> Result<(), AllocError>
        ensures { OnOk result (Declares self.old name self.new) }
    {
        self.names.insert(name)?;
        Ok(())
    }

    /// Declares the names of the bindings.
    fn declare_all(&mut self, bindings: &[Binding]) -> Result<(), AllocError>
        ensures { OnOk result (DeclaresAll self.old (names_of (bindings_list bindings.now)) self.new) }
    {
        for binding in bindings {
            self.declare(binding.ident.text.0)?;
        }
        Ok(())
    }

    /// The block of a `for` with these declarations, at its beginning.
    #[tactic(auto, using(crate::proofs::Counted::counting))]
    pub(crate) fn of_bindings(alloc: Global, bindings: &[Binding]) -> Result<Block, AllocError>
        ensures { IfOk result (λ block. IsAlike block (at_beginning (names_of (bindings_list bindings.now)))) }
    {
        let mut block = Block::new(alloc);
        block.declare_all(bindings)?;
        Ok(block)
    }

    fn declare_item(&mut self, item: &Item) -> Result<(), AllocError>
        ensures { OnOk result (DeclaresAll self.old (item_names item.now) self.new) }
    {
        match item {
            Item::Let(declaration) => self.declare_all(declaration.bindings.as_slice()),
            Item::Statement(_) => Ok(()),
        }
    }

    /// The block of the items, at its beginning.
    pub(crate) fn of_items(alloc: Global, items: &[Item]) -> Result<Block, AllocError>
        ensures { IfOk result (λ block. IsAlike block (at_beginning (declared_in (items_list items.now)))) }
    {
        let mut block = Block::new(alloc);
        for item in items {
            block.declare_item(item)?;
        }
        Ok(block)
    }

    pub(crate) fn end(&mut self, name: u16) -> Result<(), AllocError>
        ensures { OnOk result (Ends self.old name self.new) }
    {
        self.ended.insert(name)?;
        Ok(())
    }

    pub(crate) fn declares(&self, name: u16) -> bool
        ensures { result ≡ is_among self.now.names name }
    {
        self.names.contains(&name)
    }

    pub(crate) fn has_ended(&self, name: u16) -> bool
        ensures { result ≡ is_among self.now.ended name }
    {
        self.ended.contains(&name)
    }
}
