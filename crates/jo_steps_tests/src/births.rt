// An object is born.
ghost use Rattle.std.specs.Prelude.{◌≡◌, None};
ghost use Rattle.jo_rule.specs.Steps.{opening_view, split_right, with_own_word};
ghost use Rattle.jo_steps.specs.Counting.{one_store};
ghost use Rattle.jo_steps.specs.Views.{IsPassOf};
ghost use Rattle.jo_steps_tests.specs.Births.{filled_view};

use jo_steps::{Heap, Pass};
use jo_value::{Cell, Kind, MOST_STORAGE, MOST_STRUCTURES, ObjId, Sid, cell_word};

// The first and the last word of a block without properties are stored; the others are 0.
pub(crate) fn fill_block(heap: &Heap, pass: &mut Pass)
    requires pass { IsPassOf heap.now pass.old }
    requires second { (heap.now.passes ≡ 2) × (pass.old.view ≡ split_right opening_view) }
    ensures pass { IsPassOf heap.now pass.new }
    ensures view { pass.new.view ≡ filled_view }
{
    heap.store_own(pass, heap.at_storage(MOST_STORAGE), 64);
    heap.store_own(pass, heap.at_storage(MOST_STORAGE + 129), 0);
}

// The word of its cell is stored.
pub(crate) fn bear(heap: &Heap, pass: &mut Pass)
    requires pass { IsPassOf heap.now pass.old }
    requires second { (heap.now.passes ≡ 2) × (pass.old.view ≡ filled_view) }
    ensures pass { IsPassOf heap.now pass.new }
    ensures same { (pass.new.view.number ≡ 1) × (pass.new.view.lock ≡ None) }
{
    let word = cell_word(Cell {
        sid: Sid(MOST_STRUCTURES),
        address: MOST_STORAGE,
        owner: 1,
        shared_write: false,
        locked: false,
        kind: Kind::Dictionary,
    });
    let at = heap.at_cell(ObjId { pass: 1, serial: 0 });
    heap.store_own(pass, at, word);
}
