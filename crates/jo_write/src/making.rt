// Objects are made.
ghost use Rattle.std.specs.Prelude.{◌≡◌, ◌≢◌, ◌+◌, ◌<◌, Err, IfErr, IfOk, length};
ghost use Rattle.jo_value.specs.declared.capacities.TheConstants.{CALLS_WITHIN_STORAGE, MOST_PASSES};
ghost use Rattle.jo_value.specs.declared.limits.TheConstants.{MOST_OBJECTS};
ghost use Rattle.jo_model.specs.declared.call.Call.TheVariants.{New};
ghost use Rattle.jo_model.specs.declared.call.Reply.TheVariants.{Made};
ghost use Rattle.jo_model.specs.declared.call.Spent.{Spent};
ghost use Rattle.jo_rule.specs.Dictionaries.{block_size};
ghost use Rattle.jo_rule.specs.Steps.{born_cell};
ghost use Rattle.jo_steps.specs.Holding.{next_object};
ghost use Rattle.jo_steps.specs.Effects.{Looked, MayPlaceByLoad};
ghost use Rattle.jo_dict.specs.Blocks.{IsTooMuch};
ghost use Rattle.jo_guard.specs.Ready.{IsReady};
ghost use Rattle.jo_guard.specs.Placing.{HasPlaced};
ghost use Rattle.jo_write.specs.Answers.{IsNewFault, new_reply};
ghost use Rattle.jo_write.specs.declared.faults.NewFault.TheVariants as new_fault;

use crate::NewFault;
use jo_dict::empty_block;
use jo_model::{Call, Spent};
use jo_rule::Event;
use jo_steps::{Heap, Pass};
use jo_value::{Cell, Kind, MOST_OBJECTS, MOST_STRUCTURES, ObjId, Sid, cell_word};

/// The next object of the pass, without properties. That it has made as many as it may is said before that its storage
/// is too small.
#[tactic(auto, using(crate::proofs::Looks::objects_spent))]
pub fn new_object(heap: &Heap, pass: &mut Pass) -> Result<ObjId, NewFault>
    requires ready { IsReady heap.now pass.old }
    ensures ready { IsReady heap.now pass.new }
    ensures placed { HasPlaced heap.now.passes New (new_reply result) pass.old.view pass.new.view }
    ensures made { IfOk result (λ o. (o ≡ next_object pass.old.view) × (pass.old.view.births.objects < MOST_OBJECTS) × (pass.new.view.storage.used ≡ pass.old.view.storage.used + block_size 0)) }
    ensures enough { length pass.old.view.past.calls < CALLS_WITHIN_STORAGE → (spent : Spent) → result ≢ Err (new_fault.Spent spent) }
    ensures refused { IfErr result (λ why. IsNewFault pass.old.view why × (pass.new.view.storage ≡ pass.old.view.storage)) }
{
    if usize::from(pass.objects()) == MOST_OBJECTS {
        place(heap, pass, Event::Place(Call::New));
        return Err(NewFault::ObjectsSpent);
    }
    match bear(heap, pass) {
        Ok(o) => Ok(o),
        Err(spent) => {
            place(heap, pass, Event::Refuse(Call::New, spent));
            Err(NewFault::Spent(spent))
        }
    }
}

// Bears the next object, with a block of its own.
fn bear(heap: &Heap, pass: &mut Pass) -> Result<ObjId, Spent>
    requires ready { IsReady heap.now pass.old }
    requires few { pass.old.view.births.objects < MOST_OBJECTS }
    ensures object { IfOk result (λ o. o ≡ next_object pass.old.view) }
    ensures ready { IfOk result (λ o. IsReady heap.now pass.new) }
    ensures placed { IfOk result (λ o. HasPlaced heap.now.passes New (Made o) pass.old.view pass.new.view) }
    ensures used { IfOk result (λ o. pass.new.view.storage.used ≡ pass.old.view.storage.used + block_size 0) }
    ensures spent { IfErr result (λ spent. IsTooMuch pass.old.view 0 spent × (pass.new ≡ pass.old)) }
{
    let address = empty_block(heap, pass, 0)?;
    let o = ObjId {
        pass: pass.number(),
        serial: pass.objects(),
    };
    let at = heap.at_cell(o);
    heap.store_own(pass, at, cell_word(born_cell(o.pass, address)));
    Ok(o)
}

// The cell of a new object of a pass, with its block at an address.
fn born_cell(pass: u8, address: u32) -> Cell
    requires { pass < MOST_PASSES }
    ensures { result ≡ born_cell pass address }
{
    Cell {
        sid: Sid(MOST_STRUCTURES * u16::from(pass)),
        address,
        owner: pass,
        shared_write: false,
        locked: false,
        kind: Kind::Dictionary,
    }
}

// Places a New that is refused, by a load of a cell that is always there.
fn place(heap: &Heap, pass: &mut Pass, event: Event)
    requires ready { IsReady heap.now pass.old }
    requires event { MayPlaceByLoad heap.now.passes pass.old.view event }
    ensures ready { IsReady heap.now pass.new }
    ensures looked { Looked heap.now.passes event pass.old.view pass.new.view }
    ensures storage { pass.new.view.storage ≡ pass.old.view.storage }
{
    heap.load_cell(pass, ObjId::SHARED, event);
}
