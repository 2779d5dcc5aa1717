//! Why the program ends early.
use clr_model::Refusal;
use clr_runtime::NoMemory;
use std::io;

/// Why the program ends early: there is no memory for a heap, a call is refused, or nothing can be written.
#[derive(Debug, Drop)]
pub enum Fault {
    /// There is no memory for a heap.
    Memory,
    /// A call of the runtime is refused.
    Refused(Refusal),
    /// The output can't be written.
    Output(io::Error),
}

impl From<NoMemory> for Fault {
    fn from(_: NoMemory) -> Fault {
        Fault::Memory
    }
}

impl From<Refusal> for Fault {
    fn from(refusal: Refusal) -> Fault {
        Fault::Refused(refusal)
    }
}

impl From<io::Error> for Fault {
    fn from(error: io::Error) -> Fault {
        Fault::Output(error)
    }
}
