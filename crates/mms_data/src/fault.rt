//! Why values are not read, and why they are not written.

ghost use Rattle.std.specs.Prelude.{◌≡◌, alloc_error};
ghost use Rattle.mms_data.specs.declared.fault.ReadFault.TheVariants.{Memory, Fault as fault};

use ber_core::Fault;
use std::alloc::{AllocError, AllocFailed};
use thiserror::Error;

/// Octets spell nothing, or memory was refused.
#[derive(Debug, Drop, Error)]
pub enum ReadFault {
    #[error("{0}")]
    Fault(Fault),
    #[error("out of memory")]
    Memory(AllocError),
}

impl From<AllocError> for ReadFault {
    ghost from_gives = { λ _ e. e ≡ Memory alloc_error };

    fn from(_e: AllocError) -> ReadFault {
        ReadFault::Memory(AllocError)
    }
}

impl<T: Drop> From<AllocFailed<T>> for ReadFault {
    ghost from_gives = { λ _ e. e ≡ Memory alloc_error };

    fn from(_e: AllocFailed<T>) -> ReadFault {
        ReadFault::Memory(AllocError)
    }
}

impl From<Fault> for ReadFault {
    ghost from_gives = { λ f e. e ≡ fault f };

    fn from(fault: Fault) -> ReadFault {
        ReadFault::Fault(fault)
    }
}

/// Why a value is not written: it has no spelling, or its written form does not fit in what is left.
#[derive(Clone, Copy, Debug, PartialEq, Eq, Error)]
pub enum PutFault {
    #[error("it has no encoding")]
    NotSpellable,
    #[error("no room is left")]
    Full,
}
