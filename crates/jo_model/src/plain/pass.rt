// The objects of one pass.
ghost use Rattle.std.specs.Prelude.{◌≡◌, ◌<◌, [], ◌∷◌, ◌++◌, length, IfOk, OnOk, OnErr};

use crate::PlainObject;
use std::alloc::{AllocError, Global};
use std::marker::Model;

/// The objects of a pass, in order of serial. Contracts see the list of them.
#[derive(Drop)]
pub struct PassObjects {
    pub(super) objects: Vec<PlainObject>,
}

impl Model for PassObjects {
    ghost use Rattle.std.specs.Prelude.{List};
    ghost use Rattle.jo_model.specs.Objects.{Object};

    ghost Value = { List Object };

    ghost use Rattle.jo_model.specs.WellFormed.{AreWellFormed};

    ghost view = { λ pass. pass.objects.items };

    ghost invariant = { λ pass. AreWellFormed pass.objects.items };
}

impl PassObjects {
    ghost use Rattle.jo_value.specs.declared.limits.TheConstants.{MOST_OBJECTS};
    ghost use Rattle.jo_model.specs.Objects.{empty_object};
    ghost use Rattle.jo_model.specs.WellFormed.{AreWellFormed};

    // No object. It takes no memory.
    pub fn new(alloc: Global) -> PassObjects
        ensures { result ≡ [] }
    {
        PassObjects {
            objects: Vec::new(alloc),
        }
    }

    // One object without properties.
    pub fn with_one(alloc: Global) -> Result<PassObjects, AllocError>
        ensures { IfOk result (λ pass. pass ≡ empty_object ∷ []) }
    {
        let mut pass = PassObjects::new(alloc);
        pass.add(alloc)?;
        Ok(pass)
    }

    // Adds an object without properties.
    pub fn add(&mut self, alloc: Global) -> Result<(), AllocError>
        requires { length self.old < MOST_OBJECTS }
        ensures ok { OnOk result (self.new ≡ self.old ++ empty_object ∷ []) }
        ensures err { OnErr result (self.new ≡ self.old) }
        ensures well_formed { AreWellFormed self.new }
    {
        self.objects.push(PlainObject::new(alloc))?;
        Ok(())
    }

    // All objects.
    pub fn as_slice(&self) -> &[PlainObject]
        ensures value { result.now ≡ self.now }
        ensures well_formed { AreWellFormed self.now }
    {
        &self.objects
    }

    // How many objects there are.
    pub fn len(&self) -> u16
        ensures { result ≡ length self.now }
    {
        self.objects.len() as u16
    }
}
