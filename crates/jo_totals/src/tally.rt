// How many properties there are, and the sum of their numbers.
ghost use Rattle.std.specs.Prelude.{◌≡◌, ◌<◌, ◌^◌, ◌+◌, ◌+ℤ◌};
ghost use Rattle.jo_totals.specs.Totals.{number_in};
ghost use Rattle.jo_totals.specs.inner.Parts.{IsSumOf};

use jo_value::Value;

// How many properties were seen, and the sum of the numbers among their values.
#[derive(Clone, Copy)]
pub struct Tally {
    pub count: u32,
    pub sum: i128,
}

impl Tally {
    // No property.
    pub const NONE: Tally = Tally { count: 0, sum: 0 };

    // With one more property, which has this value.
    pub fn plus(self, value: Value) -> Tally
        requires few { self.count < 2 ^ 31 }
        requires bounded { IsSumOf self.count self.sum }
        ensures count { result.count ≡ self.count + 1 }
        ensures sum { result.sum ≡ self.sum +ℤ number_in value }
        ensures bounded { IsSumOf result.count result.sum }
    {
        Tally {
            count: self.count + 1,
            sum: self.sum + i128::from(number_in(value)),
        }
    }
}

// The number that a value is, and 0 where it is none.
fn number_in(value: Value) -> i64
    ensures { result ≡ number_in value }
{
    match value {
        Value::Int(number) => number,
        _ => 0,
    }
}
