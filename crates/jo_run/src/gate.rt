// What may hold a script up before a call.

/// Stands before each call that a script makes on the heap. It is given no part of the heap, so no contract depends on it.
pub trait Gate: Sync {
    /// Is called by script `thread`, scripts being numbered from 1, before its call `call`, counted likewise as far as 64 bits
    /// go. The call is made when this returns.
    fn pass(&self, thread: u32, call: u64);
}

/// Lets each call go on at once.
pub struct OpenGate;

impl Gate for OpenGate {
    fn pass(&self, _thread: u32, _call: u64) {}
}
