// The table of the texts of a set of scripts.
ghost use Rattle.std.specs.Prelude.{◌≡◌, ◌<◌, ◌↔◌, [], ◌∷◌, ◌++◌, length, slice_get, Some, None, IfOk, IfSome, IfNone, OnOk, OnErr, IsTrue, IsErrOf};

use crate::{Key, KeyOutside, MOST_TEXTS, TextId};
use indexmap::IndexMap;
use std::alloc::{AllocError, Global};
use std::marker::Model;
use thiserror::Error;

/// Why a text did not get an id.
#[derive(Clone, Copy, Debug, PartialEq, Eq, Drop, Error)]
pub enum InternFault {
    /// No memory was left for the text.
    #[error("out of memory")]
    Memory,
    /// The text is new, and the table has as many as it may.
    #[error("more than 65535 texts")]
    TooManyTexts,
}

impl From<AllocError> for InternFault {
    ghost use Rattle.jo_value.specs.declared.texts.InternFault.TheVariants.{Memory};

    ghost from_gives = { λ _ fault. fault ≡ Memory };

    fn from(_: AllocError) -> InternFault {
        InternFault::Memory
    }
}

/// A table of texts. A text's id is its place in the table, from 0, and interning gives equal texts one id.
///
/// Contracts see the list of the texts, each as its bytes. Beside each text stands the key that it is.
#[derive(Drop)]
pub struct Texts {
    alloc: Global,
    texts: IndexMap<String, Result<Key, KeyOutside>>,
}

impl Model for Texts {
    ghost use Rattle.std.specs.Prelude.{List, ℕ, map, string_bytes};
    ghost use Rattle.indexmap.specs.IndexMap.{keys, values};
    ghost use Rattle.jo_value.specs.inner.Entries.{IsTable};

    ghost Value = { List (List ℕ) };

    ghost view = { λ t. map (λ text. string_bytes text) (keys t.texts) };

    ghost invariant = { λ t. IsTable (map (λ text. string_bytes text) (keys t.texts)) (values t.texts) };
}

impl Texts {
    ghost use Rattle.jo_value.specs.Keys.{key_of_id};
    ghost use Rattle.jo_value.specs.Texts.{interned, id_in, text_in};

    /// A table without texts. No memory is taken before the first one.
    pub fn new(alloc: Global) -> Texts
        ensures { result ≡ [] }
    {
        Texts {
            alloc,
            texts: IndexMap::new(alloc),
        }
    }

    /// The id of an equal text that is there, or the next id for a new one.
    /// After an `Err` the table is as before.
    pub fn intern(&mut self, text: &str) -> Result<TextId, InternFault>
        ensures id { IfOk result (λ id. id.0 ≡ id_in self.old text.now) }
        ensures table { IfOk result (λ _. self.new ≡ interned self.old text.now) }
        ensures full { IsErrOf result InternFault.TooManyTexts
            ↔ ((id_in self.old text.now ≡ length self.old) × (length self.old ≡ MOST_TEXTS)) }
        ensures err { OnErr result (self.new ≡ self.old) }
    {
        if let Some(id) = self.id_of(text) {
            return Ok(id);
        }
        let next = self.texts.len();
        if next == MOST_TEXTS {
            return Err(InternFault::TooManyTexts);
        }
        self.add(text)?;
        Ok(TextId(next as u16))
    }

    /// The id of the text, where it is there.
    pub fn id_of(&self, text: &str) -> Option<TextId>
        ensures some { IfSome result (λ id. id.0 ≡ id_in self.now text.now) }
        ensures within { IfSome result (λ id. id.0 < length self.now) }
        ensures none { IfNone result (id_in self.now text.now ≡ length self.now) }
    {
        match self.place(text) {
            Some(at) => Some(TextId(at as u16)),
            None => None,
        }
    }

    // The place of the text, where it is there.
    fn place(&self, text: &str) -> Option<usize>
        ensures there { IfSome result (λ at. at ≡ id_in self.now text.now) }
        ensures within { IfSome result (λ at. at < length self.now) }
        ensures small { IfSome result (λ at. at < MOST_TEXTS) }
        ensures new { IfNone result (id_in self.now text.now ≡ length self.now) }
    {
        self.texts.get_index_of(text)
    }

    // Puts a new text last.
    fn add(&mut self, text: &str) -> Result<(), AllocError>
        requires new { id_in self.old text.now ≡ length self.old }
        requires room { length self.old < MOST_TEXTS }
        ensures ok { OnOk result (self.new ≡ self.old ++ text.now ∷ []) }
        ensures err { OnErr result (self.new ≡ self.old) }
    {
        let key = Key::of_text(self.len(), text);
        let copy = String::from_str(self.alloc, text)?;
        self.texts.insert(copy, key)?;
        Ok(())
    }

    /// The bytes of the text with this id; none where the table lacks it.
    pub fn bytes(&self, id: TextId) -> &[u8]
        ensures { result.now ≡ text_in self.now id.0 }
    {
        match self.text(id) {
            Some(text) => text.as_bytes(),
            None => b"",
        }
    }

    // The text with this id, where the table has it.
    fn text(&self, id: TextId) -> Option<&str>
        ensures some { IfSome result (λ text. slice_get self.now id.0 ≡ Some text.now) }
        ensures none { IfNone result (slice_get self.now id.0 ≡ None) }
    {
        match self.texts.get_index(usize::from(id.0)) {
            Some((text, _)) => Some(text.as_str()),
            None => None,
        }
    }

    /// The key that a text is, by its id: an index for an array index, else the name with that id.
    /// `Err` is an array index above `MOST_INDEX`, or an id that the table lacks.
    pub fn key(&self, id: TextId) -> Result<Key, KeyOutside>
        ensures { result ≡ key_of_id self.now id.0 }
    {
        match self.texts.get_index(usize::from(id.0)) {
            Some((_, key)) => *key,
            None => Err(KeyOutside),
        }
    }

    /// How many texts the table has.
    pub fn len(&self) -> u16
        ensures { result ≡ length self.now }
    {
        self.texts.len() as u16
    }

    /// Whether the table has no text.
    pub fn is_empty(&self) -> bool
        ensures { IsTrue result ↔ (self.now ≡ []) }
    {
        self.texts.is_empty()
    }
}
