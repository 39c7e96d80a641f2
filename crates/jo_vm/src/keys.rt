// The keys that values are.
ghost use Rattle.std.specs.Prelude.{◌≡◌};
ghost use Rattle.jo_meaning.specs.Keys.{or_outside, key_in};

use jo_model::Outcome;
use jo_value::{Key, KeyOutside, Texts, Value};

/// The key that a value is: of a number its index, of a text its name or index.
#[inline(always)]
pub(crate) fn key_in(texts: &Texts, value: Value) -> Result<Key, Outcome>
    ensures { result ≡ key_in texts.now value }
{
    match value {
        Value::Int(number) => or_outside(Key::of_int(number)),
        Value::Text(text) => or_outside(texts.key(text)),
        _ => Err(Outcome::KeyOutside),
    }
}

fn or_outside(key: Result<Key, KeyOutside>) -> Result<Key, Outcome>
    ensures { result ≡ or_outside key }
{
    match key {
        Ok(key) => Ok(key),
        Err(_) => Err(Outcome::KeyOutside),
    }
}
