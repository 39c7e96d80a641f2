// A pass is made, and joined into another.
ghost use Rattle.std.specs.Prelude.{◌≡◌, ◌<◌, None};
ghost use Rattle.jo_rule.specs.Steps.{joined, split_left, split_right};
ghost use Rattle.jo_steps.specs.Views.{AreNoStamps, IsPassOf};

use crate::access::load_by;
use crate::pass::NO_COUNTS;
use crate::table::{Fork, Merge};
use crate::{Heap, Pass};
use std::marker::Brand;

impl Heap {
    /// The first pass makes the next one, which has seen what it has seen. The stamps are those of the new one's objects, all 0.
    pub fn split_pass(&self, pass: &mut Pass, number: u8, stamps: Vec<u64>) -> Pass
        requires pass { IsPassOf self.now pass.old }
        requires first { pass.old.view.number ≡ 0 }
        requires number { (number ≡ pass.old.view.made) × (number < self.now.passes) }
        requires stamps { AreNoStamps stamps.items }
        ensures left { IsPassOf self.now pass.new × (pass.new.view ≡ split_left pass.old.view) }
        ensures right { IsPassOf self.now result × (result.view ≡ split_right pass.old.view) }
    {
        let seat = self.table.shared.split_seat::<Fork>(&mut pass.seat);
        Pass {
            seat,
            number,
            used: 0,
            nodes: 1,
            objects: 0,
            counts: NO_COUNTS,
            stamps,
        }
    }

    /// A pass joins into itself another that holds no lock: what that one has seen, what it has done, and all that it
    /// kept.
    pub fn join_pass(&self, into: &mut Pass, from: Pass)
        requires passes { IsPassOf self.now into.old × IsPassOf self.now from }
        requires free { from.view.lock ≡ None }
        ensures pass { IsPassOf self.now into.new }
        ensures view { into.new.view ≡ joined into.old.view from.view }
    {
        let Pass { seat, .. } = from;
        self.table.shared.join_seat::<Merge>(&mut into.seat, seat);
        // The join tells nothing of the rule. A load does: the calls stay lawful in what either pass has seen.
        load_by::<Brand, ()>(self, &mut into.seat, 0, &());
    }
}
