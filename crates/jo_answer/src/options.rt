// How an input is to be run.

/// What is written of scripts that were run.
#[derive(Clone, Copy, Debug, PartialEq, Eq)]
pub enum Form {
    /// Their output.
    Output,
    /// Their output, with a line of counts for each script.
    Counted,
    /// One line that sums up the made set with this number.
    Summary(u32),
}

/// With how many turns each script is run, and what is then written.
#[derive(Clone, Copy, Debug, PartialEq, Eq)]
pub struct RunOptions {
    pub turns: u32,
    pub form: Form,
}
