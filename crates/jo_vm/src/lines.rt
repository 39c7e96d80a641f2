// The printed lines, in a buffer that does not grow.
ghost use Rattle.std.specs.Prelude.{◌≡◌, ◌≤◌, ◌+◌, [], ◌∷◌, ◌++◌, codes, decimal, map, flat_map, take, length, nat_le, if◌then◌else◌, IfOk};
ghost use Rattle.jo_value.specs.Texts.{text_in};
ghost use Rattle.jo_model.specs.Printed.{object_bytes, value_bytes, line_of};
ghost use Rattle.jo_meaning.specs.Printed.{line_of_names};
ghost use Rattle.jo_vm.specs.inner.Lines.{Adds};

use itoa::Buffer;
use jo_value::{MOST_LINE_BYTES, NameId, ObjId, TextId, Texts, Value};
use std::alloc::{AllocError, Global};
use std::marker::Model;

/// The bytes of the lines so far, each with a line feed. Contracts see the list of them.
#[derive(Drop)]
pub(crate) struct Lines {
    bytes: Vec<u8>,
}

impl Model for Lines {
    ghost use Rattle.std.specs.Prelude.{ℕ, List, length, vec_capacity, ◌≤◌};
    ghost use Rattle.jo_value.specs.declared.limits.TheConstants.{MOST_LINE_BYTES};

    ghost Value = { List ℕ };

    ghost view = { λ l. l.bytes.items };

    ghost invariant = { λ l. (MOST_LINE_BYTES ≤ vec_capacity l.bytes) × (length l.bytes.items ≤ MOST_LINE_BYTES) };
}

impl Lines {
    /// No lines. No other call takes memory.
    pub(crate) fn new(alloc: Global) -> Result<Lines, AllocError>
        ensures { IfOk result (λ lines. lines ≡ []) }
    {
        let bytes = Vec::with_capacity(alloc, MOST_LINE_BYTES)?;
        Ok(Lines { bytes })
    }

    /// The bytes.
    pub(crate) fn bytes(&self) -> &[u8]
        ensures { result.now ≡ self.now }
    {
        self.bytes.as_slice()
    }

    /// The bytes, once nothing more is printed.
    pub(crate) fn into_bytes(self) -> Vec<u8>
        ensures { result.items ≡ self }
    {
        self.bytes
    }

    /// Prints the line of values, and answers whether there was room for it. If not, nothing is printed.
    pub(crate) fn print_values(&mut self, texts: &Texts, values: &[Value]) -> bool
        ensures fits { result ≡ nat_le (length self.old + length (line_of texts.now values.now) + 1) MOST_LINE_BYTES }
        ensures lines { self.new ≡ (if result then self.old ++ line_of texts.now values.now ++ 10 ∷ [] else self.old) }
    {
        let start = self.bytes().len();
        let done = self.add_values_line(texts, values);
        self.settle(start, done);
        done
    }

    /// The same for the line of names.
    pub(crate) fn print_names(&mut self, texts: &Texts, names: &[NameId]) -> bool
        ensures fits { result ≡ nat_le (length self.old + length (line_of_names texts.now names.now) + 1) MOST_LINE_BYTES }
        ensures lines { self.new ≡ (if result then self.old ++ line_of_names texts.now names.now ++ 10 ∷ [] else self.old) }
    {
        let start = self.bytes().len();
        let done = self.add_names_line(texts, names);
        self.settle(start, done);
        done
    }

    // Takes back what follows a place, unless all was done.
    fn settle(&mut self, start: usize, done: bool)
        ensures bytes { self.new ≡ (if done then self.old else take start self.old) }
        ensures few { length self.new ≤ MOST_LINE_BYTES }
    {
        if !done {
            self.bytes.truncate(start);
        }
    }

    fn add(&mut self, piece: &[u8]) -> bool
        ensures { Adds self.old self.new piece.now result }
    {
        if piece.len() > MOST_LINE_BYTES - self.bytes.as_slice().len() {
            return false;
        }
        match self.bytes.extend_from_slice(piece) {
            Ok(()) => true,
            Err(_) => unreachable!(),
        }
    }

    fn add_values_line(&mut self, texts: &Texts, values: &[Value]) -> bool
        ensures { Adds self.old self.new (line_of texts.now values.now ++ 10 ∷ []) result }
    {
        if !self.add_values(texts, values) {
            return false;
        }
        self.add(b"\n")
    }

    fn add_values(&mut self, texts: &Texts, values: &[Value]) -> bool
        ensures { Adds self.old self.new (line_of texts.now values.now) result }
    {
        match values {
            [] => true,
            [first, rest @ ..] => {
                if !self.add_value(texts, *first) {
                    return false;
                }
                self.add_more_values(texts, rest)
            }
        }
    }

    fn add_more_values(&mut self, texts: &Texts, values: &[Value]) -> bool
        ensures { Adds self.old self.new (flat_map (λ u. codes " " ++ u) (map (value_bytes texts.now) values.now)) result }
    {
        for value in values {
            if !self.add_next_value(texts, *value) {
                return false;
            }
        }
        true
    }

    fn add_next_value(&mut self, texts: &Texts, value: Value) -> bool
        ensures { Adds self.old self.new (codes " " ++ value_bytes texts.now value) result }
    {
        if !self.add(b" ") {
            return false;
        }
        self.add_value(texts, value)
    }

    fn add_value(&mut self, texts: &Texts, value: Value) -> bool
        ensures { Adds self.old self.new (value_bytes texts.now value) result }
    {
        match value {
            Value::Undefined => self.add(b"undefined"),
            Value::Null => self.add(b"null"),
            Value::Bool(true) => self.add(b"true"),
            Value::Bool(false) => self.add(b"false"),
            Value::Int(number) => self.add(Buffer::new().format(number).as_bytes()),
            Value::Text(id) => self.add(texts.bytes(id)),
            Value::Object(object) => self.add_object(object),
        }
    }

    fn add_object(&mut self, object: ObjId) -> bool
        ensures { Adds self.old self.new (object_bytes object) result }
    {
        if !self.add_pass(object.pass) {
            return false;
        }
        if !self.add(b".") {
            return false;
        }
        self.add(Buffer::new().format(object.serial).as_bytes())
    }

    fn add_pass(&mut self, pass: u8) -> bool
        ensures { Adds self.old self.new (codes "#" ++ decimal pass) result }
    {
        if !self.add(b"#") {
            return false;
        }
        self.add(Buffer::new().format(pass).as_bytes())
    }

    fn add_names_line(&mut self, texts: &Texts, names: &[NameId]) -> bool
        ensures { Adds self.old self.new (line_of_names texts.now names.now ++ 10 ∷ []) result }
    {
        if !self.add_names(texts, names) {
            return false;
        }
        self.add(b"\n")
    }

    fn add_names(&mut self, texts: &Texts, names: &[NameId]) -> bool
        ensures { Adds self.old self.new (line_of_names texts.now names.now) result }
    {
        match names {
            [] => true,
            [first, rest @ ..] => {
                if !self.add_name(texts, *first) {
                    return false;
                }
                self.add_more_names(texts, rest)
            }
        }
    }

    fn add_more_names(&mut self, texts: &Texts, names: &[NameId]) -> bool
        ensures { Adds self.old self.new (flat_map (λ u. codes "," ++ u) (map (λ name. text_in texts.now name.0) names.now)) result }
    {
        for name in names {
            if !self.add_next_name(texts, *name) {
                return false;
            }
        }
        true
    }

    fn add_next_name(&mut self, texts: &Texts, name: NameId) -> bool
        ensures { Adds self.old self.new (codes "," ++ text_in texts.now name.0) result }
    {
        if !self.add(b",") {
            return false;
        }
        self.add_name(texts, name)
    }

    fn add_name(&mut self, texts: &Texts, name: NameId) -> bool
        ensures { Adds self.old self.new (text_in texts.now name.0) result }
    {
        self.add(texts.bytes(TextId(name.0)))
    }
}
