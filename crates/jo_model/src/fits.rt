// Whether a reply may answer a call.
ghost use Rattle.std.specs.Prelude.{◌≤◌, ◌↔◌, length, IsTrue};
ghost use Rattle.std.specs.List.{IsDistinct};
ghost use Rattle.jo_value.specs.declared.limits.TheConstants.{MOST_NAMES};
ghost use Rattle.jo_value.specs.Values.{is_same_name};
ghost use Rattle.jo_model.specs.Fits.{Fits, FitsNew, FitsRead, FitsHas, FitsNames, FitsPut, FitsDelete};

use crate::{Call, NameList, Reply};
use jo_value::{Key, MOST_OBJECTS, NameId};

impl Reply {
    /// Whether one thread can give this reply to the call, which is valid, or it is a refusal for want
    /// of storage and the call is one that may be refused so.
    pub fn fits(&self, call: Call) -> bool
        ensures { IsTrue result ↔ Fits call self.now }
    {
        match call {
            Call::New => self.fits_new(),
            Call::Get { .. } => self.fits_read(),
            Call::Has { .. } => self.fits_has(),
            Call::Names { .. } => self.fits_names(),
            Call::Put { key, .. } => self.fits_put(key),
            Call::Delete { .. } => self.fits_delete(),
            Call::Cas { .. } => self.fits_read(),
        }
    }

    fn fits_new(&self) -> bool
        ensures { IsTrue result ↔ FitsNew self.now }
    {
        match self {
            Reply::Made(o) => usize::from(o.serial) < MOST_OBJECTS,
            Reply::ObjectsSpent | Reply::Spent(_) => true,
            _ => false,
        }
    }

    fn fits_read(&self) -> bool
        ensures { IsTrue result ↔ FitsRead self.now }
    {
        match self {
            Reply::Found(v) => v.is_in_range(),
            _ => false,
        }
    }

    fn fits_has(&self) -> bool
        ensures { IsTrue result ↔ FitsHas self.now }
    {
        matches!(self, Reply::Flag(_))
    }

    fn fits_names(&self) -> bool
        ensures { IsTrue result ↔ FitsNames self.now }
    {
        match self {
            Reply::Names(names) => names.is_distinct(),
            _ => false,
        }
    }

    fn fits_put(&self, key: Key) -> bool
        ensures { IsTrue result ↔ FitsPut key self.now }
    {
        match self {
            Reply::Done | Reply::Spent(_) => true,
            Reply::TooManyNames => matches!(key, Key::Name(_)),
            _ => false,
        }
    }

    fn fits_delete(&self) -> bool
        ensures { IsTrue result ↔ FitsDelete self.now }
    {
        match self {
            Reply::Flag(answer) => *answer,
            Reply::Spent(_) => true,
            _ => false,
        }
    }
}

impl NameList {
    // Whether no name stands twice.
    fn is_distinct(&self) -> bool
        ensures distinct { IsTrue result ↔ IsDistinct is_same_name self.now }
        ensures few { length self.now ≤ MOST_NAMES }
    {
        are_distinct(self.as_slice())
    }
}

// Whether no name stands twice.
fn are_distinct(names: &[NameId]) -> bool
    ensures { IsTrue result ↔ IsDistinct is_same_name names.now }
{
    match names.split_first() {
        None => true,
        Some((first, rest)) => !rest.iter().any(|name| *first == *name) && are_distinct(rest),
    }
}
