//! Why a case isn't played.

use so_fault::SceneRefusal;
use so_ids::NoMemory;
use std::alloc::{AllocError, AllocFailed};

/// Why a case isn't played.
#[derive(Clone, Copy, PartialEq, Eq, Drop)]
pub(crate) enum CaseFault {
    /// The line is no case.
    Line,
    /// A pick isn't one of the scene's.
    Pick,
    /// The file has a fault.
    Scene,
    /// What is written of the scene isn't read as it.
    Written,
    Memory,
}

impl CaseFault {
    /// What is printed of it.
    pub(crate) fn words(self) -> &'static str {
        match self {
            CaseFault::Line => "no such case",
            CaseFault::Pick => "no such pick",
            CaseFault::Scene => "the scene isn't read",
            CaseFault::Written => "what is written isn't read as the same",
            CaseFault::Memory => "no memory",
        }
    }
}

impl From<NoMemory> for CaseFault {
    fn from(_: NoMemory) -> CaseFault {
        CaseFault::Memory
    }
}

impl From<AllocError> for CaseFault {
    fn from(_: AllocError) -> CaseFault {
        CaseFault::Memory
    }
}

impl<T: Drop> From<AllocFailed<T>> for CaseFault {
    fn from(_: AllocFailed<T>) -> CaseFault {
        CaseFault::Memory
    }
}

impl From<SceneRefusal> for CaseFault {
    fn from(why: SceneRefusal) -> CaseFault {
        match why {
            SceneRefusal::Fault(_) => CaseFault::Scene,
            SceneRefusal::NoMemory => CaseFault::Memory,
        }
    }
}
