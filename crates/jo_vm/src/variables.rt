// The variables of a script.
ghost use Rattle.std.specs.Prelude.{◌≡◌, ◌<◌, IfOk, length, replicate, slice_index_or, slice_set};
ghost use Rattle.jo_value.specs.declared.value.Value.TheVariants.{Undefined};

use jo_value::Value;
use std::alloc::{AllocError, Global};
use std::marker::Model;

/// The values of the variables. Contracts see the list of them.
#[derive(Drop)]
pub(crate) struct Variables {
    values: Vec<Value>,
}

impl Model for Variables {
    ghost use Rattle.std.specs.Prelude.{List};
    ghost use Rattle.jo_value.specs.declared.value.Value.{Value as Datum};

    ghost Value = { List Datum };

    ghost view = { λ v. v.values.items };
}

impl Variables {
    /// `count` variables, all undefined. No other call takes memory.
    pub(crate) fn new(alloc: Global, count: usize) -> Result<Variables, AllocError>
        ensures { IfOk result (λ v. v ≡ replicate count Undefined) }
    {
        let values = vec![in alloc; Value::Undefined; count]?;
        Ok(Variables { values })
    }

    /// The value of a variable; undefined where there is no such variable.
    #[inline(always)]
    pub(crate) fn get(&self, n: usize) -> Value
        ensures { result ≡ slice_index_or self.now n Undefined }
    {
        match self.values.get(n) {
            Some(value) => *value,
            None => Value::Undefined,
        }
    }

    /// Gives a variable a value.
    #[inline(always)]
    pub(crate) fn set(&mut self, n: usize, value: Value)
        requires { n < length self.old }
        ensures values { self.new ≡ slice_set self.old n value }
        ensures len { length self.new ≡ length self.old }
    {
        self.values[n] = value;
    }
}
