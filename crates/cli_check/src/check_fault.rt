//! Why a check stopped.
ghost use Rattle.std.specs.Prelude.{◌≡◌};

use building::FileFault;
use cli_common::{RunFault, Status};
use std::alloc::{AllocError, Global};
use std::io::Write;

/// Why a check stopped.
#[derive(Drop)]
pub(crate) enum CheckFault<'a> {
    /// As any run stops.
    Run(RunFault<'a>),
    /// The building file is at fault, and the fault is explained.
    Explained {
        fault: FileFault,
        /// The line after the fault's, without its line end.
        explanation: String,
    },
}

impl<'a> CheckFault<'a> {
    /// What the program ends with.
    pub fn status(&self) -> Status
        ensures { (result ≡ Status.Done) → ⊥ }
    {
        match self {
            CheckFault::Run(fault) => fault.status(),
            CheckFault::Explained { .. } => Status::Fault,
        }
    }

    /// Prints the fault as one line, and its explanation as another.
    pub fn print<F: Write>(&self, alloc: Global, out: &mut F) {
        match self {
            CheckFault::Run(fault) => fault.print(alloc, out),
            CheckFault::Explained { fault, explanation } => {
                print_explained(alloc, *fault, explanation.as_str(), out);
            }
        }
    }
}

/// Prints a fault and its explanation: in one write, or where memory is refused for that, the fault's line alone.
fn print_explained<F: Write>(alloc: Global, fault: FileFault, explanation: &str, out: &mut F) {
    match explained_lines(alloc, fault, explanation) {
        Ok(lines) => {
            let _printed = out.write_all(lines.as_bytes());
        }
        Err(_) => RunFault::Building(fault).print(alloc, out),
    }
}

fn explained_lines(
    alloc: Global,
    fault: FileFault,
    explanation: &str,
) -> Result<String, AllocError> {
    let fault = RunFault::Building(fault);
    format!(in alloc; "{fault}\n{explanation}\n")
}

impl<'a> From<RunFault<'a>> for CheckFault<'a> {
    ghost use Rattle.cli_check.specs.declared.check_fault.CheckFault.{CheckFault};

    ghost from_gives = { λ fault given. given ≡ CheckFault.Run fault };

    fn from(fault: RunFault<'a>) -> Self {
        CheckFault::Run(fault)
    }
}
