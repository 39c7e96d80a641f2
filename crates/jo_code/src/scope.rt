// The names that the blocks around a place declare.
ghost use Rattle.std.specs.Prelude.{◌≡◌, ◌-◌, [], ◌∷◌, ◌++◌, length, drop, OnOk};
ghost use Rattle.jo_meaning.specs.State.{variable_of};
ghost use Rattle.jo_parse_tree.specs.Blocks.{declared_by, declared_in, names_of};
ghost use Rattle.jo_parse_tree.specs.ScriptViews.{bindings_list, head_tree, items_list};
ghost use Rattle.jo_code.specs.inner.Scopes.{item_names, slot_of};

use jo_parse_tree::{Binding, ForHead, Ident, Item};
use std::alloc::{AllocError, Global};
use std::collections::HashMap;
use std::marker::Model;

// A declared name, and the variable that it means in the blocks around.
#[derive(Clone, Copy)]
struct Declared {
    name: u16,
    before: Option<u32>,
}

/// The names that the blocks around a place declare. Contracts see those of the innermost block first.
#[derive(Drop)]
pub(crate) struct Scope {
    // The innermost one is the last.
    declared: Vec<Declared>,
    // What each name means. One that is no longer declared means no variable.
    meanings: HashMap<u16, Option<u32>>,
}

impl Model for Scope {
    ghost use Rattle.std.specs.Prelude.{ℕ, ◌<◌, ◌^◌, List, length, reverse};
    ghost use Rattle.jo_code.specs.inner.Scopes.{names_in, AreKept, Means};

    ghost Value = { List ℕ };

    ghost view = { λ s. names_in (reverse s.declared.items) };

    ghost invariant = { λ s. (length s.declared.items < 2 ^ 32) × AreKept (reverse s.declared.items) × Means s.meanings (names_in (reverse s.declared.items)) };
}

impl Scope {
    pub(crate) fn new(alloc: Global) -> Scope
        ensures { result ≡ [] }
    {
        Scope {
            declared: Vec::new(alloc),
            meanings: HashMap::new(alloc),
        }
    }

    // What the name with this id means.
    fn meaning(&self, name: u16) -> Option<u32>
        ensures { result ≡ slot_of self.now name }
    {
        self.meanings.get(&name).copied().unwrap_or(None)
    }

    /// The variable that a name means.
    #[tactic(auto, using(crate::proofs::Scoped::meaning))]
    pub(crate) fn variable(&self, ident: Ident) -> Option<u32>
        ensures { result ≡ variable_of self.now ident }
    {
        self.meaning(ident.text.0)
    }

    /// How many names there are.
    #[tactic(auto, using(crate::proofs::Scoped::meaning))]
    pub(crate) fn len(&self) -> u32
        ensures { result ≡ length self.now }
    {
        self.declared.len() as u32
    }

    // Declares a name before the others.
    fn declare(&mut self, name: u16) -> Result<(), AllocError>
        ensures { OnOk result (self.new ≡ name ∷ self.old) }
    {
        let slot = self.declared.len();
        if slot >= u32::MAX as usize {
            return Err(AllocError);
        }
        let before = self.meaning(name);
        self.declared.reserve(1)?;
        self.meanings.insert(name, Some(slot as u32))?;
        self.declared.push_reserved(Declared { name, before });
        Ok(())
    }

    // Leaves the innermost name.
    fn leave_one(&mut self) -> Result<(), AllocError>
        ensures { OnOk result (self.new ≡ drop 1 self.old) }
    {
        if let Some(last) = self.declared.last() {
            let last = *last;
            self.meanings.insert(last.name, last.before)?;
            self.declared.pop();
        }
        Ok(())
    }

    /// Goes into a block with the names of these bindings.
    pub(crate) fn enter_bindings(&mut self, bindings: &[Binding]) -> Result<(), AllocError>
        ensures { OnOk result (self.new ≡ names_of (bindings_list bindings.now) ++ self.old) }
    {
        let mut at = bindings.len();
        while at > 0 {
            at -= 1;
            self.declare(bindings[at].ident.text.0)?;
        }
        Ok(())
    }

    // The names that an item declares.
    fn enter_item(&mut self, item: &Item) -> Result<(), AllocError>
        ensures { OnOk result (self.new ≡ item_names item.now ++ self.old) }
    {
        match item {
            Item::Let(declaration) => self.enter_bindings(declaration.bindings.as_slice()),
            Item::Statement(_) => Ok(()),
        }
    }

    /// Goes into a block with these items.
    pub(crate) fn enter_items(&mut self, items: &[Item]) -> Result<(), AllocError>
        ensures { OnOk result (self.new ≡ declared_in (items_list items.now) ++ self.old) }
    {
        let mut at = items.len();
        while at > 0 {
            at -= 1;
            self.enter_item(&items[at])?;
        }
        Ok(())
    }

    /// Goes into the block of a `for` with this head.
    pub(crate) fn enter_head(&mut self, head: &ForHead) -> Result<(), AllocError>
        ensures { OnOk result (self.new ≡ declared_by (head_tree head.now) ++ self.old) }
    {
        match head {
            ForHead::Let(declaration) => self.enter_bindings(declaration.bindings.as_slice()),
            ForHead::Expr(_) => Ok(()),
        }
    }

    /// Goes out of blocks, to where there were `len` names.
    pub(crate) fn leave(&mut self, len: u32) -> Result<(), AllocError>
        ensures { OnOk result (self.new ≡ drop (length self.old - len) self.old) }
    {
        while self.len() > len {
            self.leave_one()?;
        }
        Ok(())
    }
}
