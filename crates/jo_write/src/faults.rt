// Why a call that writes is refused.
use jo_model::Spent;
use std::fmt;
use thiserror::Error;

/// Why no object was made.
#[derive(Clone, Copy, Drop, Error)]
pub enum NewFault {
    /// The pass has made as many objects as it may.
    #[error("more than 4096 objects")]
    ObjectsSpent,
    /// Its storage does not suffice for the block of one more.
    #[error("{} words of storage used, {} more needed", .0.used, .0.need)]
    Spent(Spent),
}

/// Why a property was not put.
#[derive(Clone, Copy, Drop, Error)]
pub enum PutFault {
    /// The object has 64 names, and this is none of them.
    #[error("more than 64 names")]
    TooManyNames,
    /// The storage of the pass does not suffice for more elements.
    #[error("{} words of storage used, {} more needed", .0.used, .0.need)]
    Spent(Spent),
}

impl fmt::Debug for NewFault {
    fn fmt<W: fmt::Write>(&self, f: &mut fmt::Formatter<W>) -> Result<(), fmt::Error> {
        fmt::Display::fmt(self, f)
    }
}

impl fmt::Debug for PutFault {
    fn fmt<W: fmt::Write>(&self, f: &mut fmt::Formatter<W>) -> Result<(), fmt::Error> {
        fmt::Display::fmt(self, f)
    }
}
