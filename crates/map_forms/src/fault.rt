//! Why a JSON value is not read.
ghost use Rattle.map_forms.specs.declared.fault.JsonFault.TheVariants.{Refused};
ghost use Rattle.seize_words.specs.declared.fault.Fault.TheVariants.{Memory};

use seize_words::Fault;
use std::alloc::{AllocError, AllocFailed};
use thiserror::Error;

/// Why a JSON value was not read: the first fault in the value's order. There is then no map and no set.
#[derive(Clone, Copy, Debug, Drop, Error, PartialEq, Eq)]
pub enum JsonFault {
    /// A map is an object, and the value is none.
    #[error("NotAnObject")]
    NotAnObject,
    /// A set is an array, and the value is none.
    #[error("NotAnArray")]
    NotAnArray,
    /// A text that no key of the map is written as.
    #[error("BadKey")]
    BadKey,
    /// A value that no value of the map, or no element of the set, is written as.
    #[error("BadElement")]
    BadElement,
    /// Memory, or the length of a table, was refused.
    #[error("Refused")]
    Refused(Fault),
}

impl From<Fault> for JsonFault {
    ghost use Rattle.std.specs.Prelude.{◌≡◌};

    ghost from_gives = { λ fault e. e ≡ Refused fault };

    fn from(fault: Fault) -> JsonFault {
        JsonFault::Refused(fault)
    }
}

impl From<AllocError> for JsonFault {
    ghost use Rattle.std.specs.Prelude.{◌≡◌};

    ghost from_gives = { λ _ e. e ≡ Refused Memory };

    fn from(_error: AllocError) -> JsonFault {
        JsonFault::Refused(Fault::Memory)
    }
}

impl<T: Drop> From<AllocFailed<T>> for JsonFault {
    ghost use Rattle.std.specs.Prelude.{◌≡◌};

    ghost from_gives = { λ _ e. e ≡ Refused Memory };

    fn from(_error: AllocFailed<T>) -> JsonFault {
        JsonFault::Refused(Fault::Memory)
    }
}
