//! What the program ends with.

ghost use Rattle.std.specs.Prelude.{◌≡◌};
ghost use Rattle.cli_common.specs.Status.{code_of};

/// How a run of the program ended.
#[derive(Clone, Copy, PartialEq, Eq)]
pub enum Status {
    /// All was done.
    Done,
    /// The data or a file was at fault, or the output failed.
    Fault,
    /// The words of the command line were at fault, or asked for help.
    Words,
    /// The store failed, or memory was refused.
    Store,
}

impl Status {
    /// The exit status of the program: 0 done, 1 a fault of data, files or output, 2 a fault of the words,
    /// 3 a failure of the store or lack of memory.
    pub fn code(self) -> u8
        ensures { result ≡ code_of self }
    {
        match self {
            Status::Done => 0,
            Status::Fault => 1,
            Status::Words => 2,
            Status::Store => 3,
        }
    }
}
