// The parts of the output of a run, printed as they are made.
mod heap;
mod properties;
mod quoted;
mod run;
mod value;

pub use heap::print_heap;
pub use run::print_run;
