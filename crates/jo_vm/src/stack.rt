// The values that wait, of which there are never more than a fixed number.
ghost use Rattle.std.specs.Prelude.{◌≡◌, [], IfOk, length, nat_lt, take, drop, reverse};
ghost use Rattle.jo_code.specs.Machine.{top, below, pushed_within};

use jo_value::Value;
use std::alloc::{AllocError, Global};
use std::marker::Model;

/// The values on the stack. Contracts see for how many there is room, and the list of them, the one on top first.
#[derive(Drop)]
pub(crate) struct Stack {
    items: Vec<Value>,
    room: usize,
}

impl Model for Stack {
    ghost use Rattle.std.specs.Prelude.{ℕ, List, reverse, vec_capacity, ◌≤◌};
    ghost use Rattle.jo_value.specs.declared.value.Value.{Value as Datum};

    ghost Value = { ℕ × List Datum };

    ghost view = { λ s. (s.room, reverse s.items.items) };

    ghost invariant = { λ s. s.room ≤ vec_capacity s.items };
}

impl Stack {
    /// An empty stack. No other call takes memory.
    pub(crate) fn new(alloc: Global, room: usize) -> Result<Stack, AllocError>
        ensures { IfOk result (λ s. s ≡ (room, [])) }
    {
        let items = Vec::with_capacity(alloc, room)?;
        Ok(Stack { items, room })
    }

    /// The value on top; undefined where there is none.
    #[inline(always)]
    pub(crate) fn top(&self) -> Value
        ensures { result ≡ top self.now.1 }
    {
        match self.items.last() {
            Some(value) => *value,
            None => Value::Undefined,
        }
    }

    /// The value below the one on top; undefined where there is none.
    #[inline(always)]
    pub(crate) fn second(&self) -> Value
        ensures { result ≡ top (below self.now.1) }
    {
        match self.last(2) {
            [second, _] => *second,
            _ => Value::Undefined,
        }
    }

    /// Whether there is room for another value.
    #[inline(always)]
    pub(crate) fn has_room(&self) -> bool
        ensures { result ≡ nat_lt (length self.now.1) self.now.0 }
    {
        self.items.len() < self.room
    }

    /// Puts a value on top, where there is room.
    #[inline(always)]
    pub(crate) fn push(&mut self, value: Value)
        ensures { self.new ≡ (self.old.0, pushed_within self.old.0 value self.old.1) }
    {
        if self.items.len() < self.room {
            self.items.push_reserved(value);
        }
    }

    /// Takes the value on top off; undefined where there is none.
    #[inline(always)]
    pub(crate) fn pop(&mut self) -> Value
        ensures value { result ≡ top self.old.1 }
        ensures rest { self.new ≡ (self.old.0, below self.old.1) }
    {
        match self.items.pop() {
            Some(value) => value,
            None => Value::Undefined,
        }
    }

    /// Takes all values off.
    pub(crate) fn clear(&mut self)
        ensures { self.new ≡ (self.old.0, []) }
    {
        self.items.clear();
    }

    /// `count` values from the top, the one on top last; all where there are fewer.
    pub(crate) fn last(&self, count: u32) -> &[Value]
        ensures { result.now ≡ reverse (take count self.now.1) }
    {
        let start = self.items.len().saturating_sub(count as usize);
        &self.items[start..]
    }

    /// Takes `count` values off; all where there are fewer.
    pub(crate) fn drop_last(&mut self, count: u32)
        ensures { self.new ≡ (self.old.0, drop count self.old.1) }
    {
        let left = self.items.as_slice().len().saturating_sub(count as usize);
        self.items.truncate(left);
    }
}
