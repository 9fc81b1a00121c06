// Why a query goes no further.
ghost use Rattle.std.specs.Prelude.{◌≡◌};
ghost use Rattle.gd_sim.specs.declared.fault.SimNo.TheVariants.{Memory};
ghost use Rattle.gd_sim.specs.Stations.{work_fault, tick_fault};

use gd_work::WorkNo;
use ic_base::ConnKey;
use ic_law::TickNo;
use std::alloc::AllocError;

/// Why a query goes no further.
#[derive(Clone, Copy, Debug, PartialEq, Eq)]
pub(crate) enum SimNo {
    /// The network's: a packet or a status query was sent again so often without an answer.
    Spent { key: ConnKey, seq: u32, tries: u32 },
    /// The query's: the numbers of packets of this connection are used up.
    TooLong(ConnKey),
    /// Nobody's: out of memory.
    Memory,
}

impl From<AllocError> for SimNo {
    ghost from_gives = { λ _ e. e ≡ Memory };

    fn from(_e: AllocError) -> SimNo {
        SimNo::Memory
    }
}

/// What a worker's refusal is. No sender here spoils its stream, so `Malformed` never comes.
pub(crate) fn work_fault(no: WorkNo) -> SimNo
    ensures { result ≡ work_fault no }
{
    match no {
        WorkNo::TooLong(key) => SimNo::TooLong(key),
        WorkNo::Malformed(_) | WorkNo::Memory => SimNo::Memory,
    }
}

/// What a tick's refusal is.
pub(crate) fn tick_fault(no: TickNo) -> SimNo
    ensures { result ≡ tick_fault no }
{
    match no {
        TickNo::Spent { key, seq, tries } => SimNo::Spent { key, seq, tries },
        TickNo::Memory => SimNo::Memory,
    }
}
