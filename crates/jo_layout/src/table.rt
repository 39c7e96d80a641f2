// The words of a heap's table, by their numbers there.
ghost use Rattle.std.specs.Prelude.{◌≡◌, ◌+◌, ◌<◌, ◌*◌};
ghost use Rattle.jo_value.specs.declared.limits.TheConstants.{MOST_STORAGE};
ghost use Rattle.jo_rule.specs.Names.{acknowledgement, cell, node, objects_at, storage, storage_at, structures_at, word_at, words_in_all};
ghost use Rattle.jo_rule.specs.Owned.{address_of};

use jo_value::{
    MOST_OBJECTS, MOST_STORAGE, MOST_STRUCTURES, OBJECT_WORDS, ObjId, STRUCTURE_WORDS, Sid,
};

// The words of the structures, and of the objects, of a pass.
const STRUCTURE_AREA: u32 = STRUCTURE_WORDS as u32 * MOST_STRUCTURES as u32;

const OBJECT_AREA: u32 = OBJECT_WORDS as u32 * MOST_OBJECTS as u32;

/// The layout of the table of a heap with so many passes.
#[derive(Clone, Copy)]
pub struct Layout {
    /// How many passes the heap has.
    pub passes: u8,
}

impl Layout {
    /// The acknowledgement of a pass.
    pub fn acknowledgement(self, pass: u8) -> u32
        ensures { result ≡ word_at self.passes (acknowledgement pass) }
    {
        1 + u32::from(pass)
    }

    /// The node of a structure.
    pub fn node(self, sid: Sid) -> u32
        ensures { result ≡ word_at self.passes (node sid) }
    {
        self.structures_at() + STRUCTURE_WORDS as u32 * u32::from(sid.0)
    }

    /// The cell of an object.
    pub fn cell(self, o: ObjId) -> u32
        ensures { result ≡ word_at self.passes (cell o) }
    {
        let object = MOST_OBJECTS as u32 * u32::from(o.pass) + u32::from(o.serial);
        self.objects_at() + OBJECT_WORDS as u32 * object
    }

    /// The word of storage at an address.
    pub fn storage(self, address: u32) -> u32
        requires { address < MOST_STORAGE * self.passes }
        ensures { result ≡ word_at self.passes (storage address) }
    {
        self.storage_at() + address
    }

    /// How many words stand before those of the structures.
    pub fn structures_at(self) -> u32
        ensures { result ≡ structures_at self.passes }
    {
        1 + u32::from(self.passes)
    }

    /// How many words stand before those of the objects.
    pub fn objects_at(self) -> u32
        ensures { result ≡ objects_at self.passes }
    {
        self.structures_at() + STRUCTURE_AREA * u32::from(self.passes)
    }

    /// How many words stand before the storage.
    pub fn storage_at(self) -> u32
        ensures { result ≡ storage_at self.passes }
    {
        self.objects_at() + OBJECT_AREA * u32::from(self.passes)
    }

    /// How many words stand before the storage of a pass.
    pub fn storage_of(self, pass: u8) -> u32
        ensures { result ≡ storage_at self.passes + MOST_STORAGE * pass }
    {
        self.storage_at() + MOST_STORAGE * u32::from(pass)
    }

    /// How many words there are in all.
    pub fn words_in_all(self) -> u32
        ensures { result ≡ words_in_all self.passes }
    {
        self.storage_of(self.passes)
    }
}

/// The address of a word of a pass's storage.
pub fn address_of(pass: u8, k: u32) -> u32
    requires { k < MOST_STORAGE }
    ensures { result ≡ address_of pass k }
{
    MOST_STORAGE * u32::from(pass) + k
}
