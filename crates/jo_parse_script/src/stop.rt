// Why the parser stops.

use std::alloc::AllocError;

/// After a refusal the parser stands at the offending terminal, so none is named.
#[derive(Clone, Copy)]
pub(crate) enum Stop {
    Memory,
    Unexpected,
    NestedTooDeep,
}

impl From<AllocError> for Stop {
    ghost use Rattle.std.specs.Prelude.{◌≡◌};
    ghost use Rattle.jo_parse_script.specs.declared.stop.Stop.TheVariants.{Memory};

    ghost from_gives = { λ _ stop. stop ≡ Memory };

    fn from(_: AllocError) -> Stop {
        Stop::Memory
    }
}
