// How many objects and properties there are, and the sum of their numbers.
ghost use Rattle.std.specs.Prelude.{◌≡◌, ◌+◌, ◌≤◌, ◌^◌};
ghost use Rattle.jo_totals.specs.inner.Parts.{both, AreBounded};

/// How much a heap has in all.
#[derive(Clone, Copy)]
pub struct Totals {
    /// How many objects there are.
    pub objects: u64,
    /// How many properties have a name.
    pub names: u64,
    /// How many properties have an index.
    pub elements: u64,
    /// The sum of the numbers that the properties hold.
    pub sum: i128,
}

impl Totals {
    // The totals of no object.
    pub(crate) const NONE: Totals = Totals {
        objects: 0,
        names: 0,
        elements: 0,
        sum: 0,
    };

    // The totals of the objects of both.
    pub(crate) fn plus(self, other: Totals) -> Totals
        requires first { AreBounded self }
        requires second { AreBounded other }
        requires few { self.objects + other.objects ≤ 2 ^ 32 }
        ensures value { result ≡ both self other }
        ensures bounded { AreBounded result }
    {
        Totals {
            objects: self.objects + other.objects,
            names: self.names + other.names,
            elements: self.elements + other.elements,
            sum: self.sum + other.sum,
        }
    }
}
