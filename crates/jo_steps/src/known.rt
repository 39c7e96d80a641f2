// A view, as the table keeps it.
ghost use Rattle.jo_rule.specs.Views.{View};

use std::marker::Model;

/// What a pass knows. It is for proofs alone: no value of it is made.
pub struct Known {
    pub ghost view: { View },
}

impl Model for Known {
    ghost use base.Fml.{ftrue};

    ghost also_owns = { λ _. ftrue };
}
