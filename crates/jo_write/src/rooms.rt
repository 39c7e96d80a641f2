// A larger block for a dictionary.
ghost use Rattle.std.specs.Prelude.{◌≡◌, ◌+◌, ◌<◌, ◌≤◌, IfErr, IfOk};
ghost use Rattle.jo_value.specs.declared.capacities.TheConstants.{ELEMENT_CAPACITIES};
ghost use Rattle.jo_value.specs.declared.limits.TheConstants.{MOST_INDEX};
ghost use Rattle.jo_value.specs.declared.value.Key.TheVariants.{Index};
ghost use Rattle.jo_value.specs.declared.words.slot.Slot.TheVariants.{Holds};
ghost use Rattle.jo_value.specs.Words.{IsSlot};
ghost use Rattle.jo_model.specs.One.{put_in};
ghost use Rattle.jo_steps.specs.Holding.{HasBlockOf, HasLock, lock_of};
ghost use Rattle.jo_steps.specs.Views.{IsPassOf};
ghost use Rattle.jo_dict.specs.Blocks.{IsMade, IsTooMuch};
ghost use Rattle.jo_write.specs.Answers.{least_above};

use jo_dict::{block_of, fill};
use jo_model::Spent;
use jo_steps::{Heap, Held, Pass};
use jo_value::{ELEMENT_CAPACITIES, Key, Value};

/// A new block with room for an index, which has the properties of the held one and this one more.
pub(crate) fn block_with(
    heap: &Heap,
    pass: &mut Pass,
    held: &Held,
    index: u16,
    value: Value,
) -> Result<u32, Spent>
    requires held { HasLock heap.now pass.old held.now }
    requires block { HasBlockOf pass.old.view (lock_of pass.old.view).content }
    requires index { ((lock_of pass.old.view).room ≤ index) × (index ≤ MOST_INDEX) }
    requires value { IsSlot (Holds value) }
    ensures pass { IsPassOf heap.now pass.new }
    ensures made { IfOk result (IsMade pass.old.view pass.new.view (least_above ELEMENT_CAPACITIES index) (put_in (lock_of pass.old.view).content (Index index) value).0) }
    ensures spent { IfErr result (λ spent. IsTooMuch pass.old.view (least_above ELEMENT_CAPACITIES index) spent × (pass.new ≡ pass.old)) }
{
    let address = block_of(heap, pass, held, capacity_above(index))?;
    fill(heap, pass, address, Key::Index(index), value);
    Ok(address)
}

// The least capacity that has room for an index.
fn capacity_above(index: u16) -> u16
    requires { index ≤ MOST_INDEX }
    ensures least { result ≡ least_above ELEMENT_CAPACITIES index }
    ensures above { index < result }
    ensures few { result ≤ MOST_INDEX + 1 }
{
    for capacity in ELEMENT_CAPACITIES {
        if index < capacity {
            return capacity;
        }
    }
    0
}
