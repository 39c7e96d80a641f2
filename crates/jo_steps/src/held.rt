// A lock that is held.
ghost use Rattle.std.specs.Prelude.{◌≡◌};

use jo_value::{Cell, ObjId};
use std::marker::Model;

/// The lock of an object, until it is released. Contracts see the object, and its cell as it was found.
pub struct Held {
    pub(crate) object: ObjId,
    pub(crate) cell: Cell,
}

impl Model for Held {
    ghost use Rattle.jo_steps.specs.Views.{HeldView};

    ghost Value = { HeldView };

    ghost view = { λ h. record { object = h.object; cell = h.cell } };
}

impl Held {
    /// The cell as it was found, without the lock.
    pub fn cell(&self) -> Cell
        ensures { result ≡ self.now.cell }
    {
        self.cell
    }
}
