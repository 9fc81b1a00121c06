// Why bytes are no document.
ghost use Rattle.std.specs.Prelude.{◌≡◌};
ghost use Rattle.pl_read.specs.Faults.{code_of};
ghost use Rattle.pl_read.specs.declared.fault.DocNo.TheVariants.{Memory};

use ic_base::Text;
use std::alloc::{AllocError, AllocFailed};

/// The first thing that is wrong with a document: its code, and at which place.
///
/// | code | fault |
/// |---|---|
/// | 1 | the bytes are no value of JSON |
/// | 2 | a member that an object of this place doesn't have; the path is the member's |
/// | 3 | a required member is missing; the path is the member's |
/// | 4 | a value of another kind, or a word that isn't in the list |
/// | 5 | a number, a length or a position outside its range |
/// | 6 | a name that another table or column has |
/// | 7 | a row that isn't as long as there are columns |
#[derive(Drop, Debug)]
pub struct DocFault {
    /// 1..=7.
    pub code: u32,
    /// `$` for the document, then `.name` for each member and `[i]` for each item, from 0. Names stand as they are.
    pub path: Text,
}

/// Why bytes weren't read.
#[derive(Drop, Debug)]
pub enum DocNo {
    /// Who wrote the document.
    Fault(DocFault),
    /// Out of memory.
    Memory,
}

impl From<AllocError> for DocNo {
    ghost from_gives = { λ _ e. e ≡ Memory };

    fn from(_: AllocError) -> Self {
        DocNo::Memory
    }
}

impl<T: Drop> From<AllocFailed<T>> for DocNo {
    ghost from_gives = { λ _ e. e ≡ Memory };

    fn from(_: AllocFailed<T>) -> Self {
        DocNo::Memory
    }
}

/// What can be wrong with a value.
#[derive(Clone, Copy, Debug, PartialEq, Eq)]
pub(crate) enum Flaw {
    NoJson,
    Unknown,
    Missing,
    Kind,
    Range,
    Repeated,
    Width,
}

impl Flaw {
    pub(crate) fn code(self) -> u32
        ensures { result ≡ code_of self }
    {
        match self {
            Flaw::NoJson => 1,
            Flaw::Unknown => 2,
            Flaw::Missing => 3,
            Flaw::Kind => 4,
            Flaw::Range => 5,
            Flaw::Repeated => 6,
            Flaw::Width => 7,
        }
    }
}
