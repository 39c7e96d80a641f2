// The answer to the call that lists names.
ghost use Rattle.std.specs.Prelude.{◌≡◌, ◌<◌, ◌≤◌, ◌↔◌, [], ◌∷◌, ◌++◌, length, slice_get, IsTrue};

use arrayvec::ArrayVec;
use jo_value::{MOST_NAMES, NameId};
use std::marker::Model;

/// At most 64 names, in order. Contracts see the list of them.
#[derive(Drop)]
pub struct NameList {
    list: ArrayVec<NameId, MOST_NAMES>,
}

impl Model for NameList {
    ghost use Rattle.std.specs.Prelude.{List};
    ghost use Rattle.jo_value.specs.declared.value.NameId.{NameId};

    ghost Value = { List NameId };

    ghost view = { λ names. names.list.items };
}

impl NameList {
    /// No names. It takes no memory.
    pub fn new() -> NameList
        ensures { result ≡ [] }
    {
        NameList {
            list: ArrayVec::new(),
        }
    }

    /// The name at this place. `None` is past the last one.
    pub fn get(&self, at: u8) -> Option<NameId>
        ensures { result ≡ slice_get self.now at }
    {
        self.list.get(usize::from(at)).copied()
    }

    /// How many names there are.
    pub fn len(&self) -> u8
        ensures { result ≡ length self.now }
    {
        self.list.len() as u8
    }

    /// Whether there is no name.
    pub fn is_empty(&self) -> bool
        ensures { IsTrue result ↔ (self.now ≡ []) }
    {
        self.list.is_empty()
    }

    /// The names, in order.
    pub fn as_slice(&self) -> &[NameId]
        ensures value { result.now ≡ self.now }
        ensures few { length result.now ≤ MOST_NAMES }
    {
        &self.list
    }

    /// Puts a name last. There has to be room.
    pub fn push(&mut self, name: NameId)
        requires { length self.old < MOST_NAMES }
        ensures { self.new ≡ self.old ++ name ∷ [] }
    {
        self.list.push(name);
    }
}
