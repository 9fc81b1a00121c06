// Refusals of connections, as the hub's.
ghost use Rattle.std.specs.Prelude.{◌≡◌};
ghost use Rattle.ic_hub.specs.Calls.{put_answer, put_no, take_no};

use ic_base::Datagrams;
use ic_law::HubNo;
use ic_receiver::TakeNo;
use ic_sender::SendNo;

/// Why a put is refused. What a put is never answered becomes out of memory.
fn put_no(no: SendNo) -> HubNo
    ensures { result ≡ put_no no }
{
    match no {
        SendNo::Full => HubNo::Full,
        SendNo::Stopped => HubNo::Stopped,
        SendNo::TooLong(key) => HubNo::TooLong(key),
        SendNo::Spent { .. } | SendNo::Stray | SendNo::Memory => HubNo::Memory,
    }
}

/// What a put was answered, as the hub's answer.
pub(crate) fn put_answer(answer: Result<Datagrams, SendNo>) -> Result<Datagrams, HubNo>
    ensures { result ≡ put_answer answer }
{
    match answer {
        Ok(datagrams) => Ok(datagrams),
        Err(no) => Err(put_no(no)),
    }
}

/// Why a take is refused.
pub(crate) fn take_no(no: TakeNo) -> HubNo
    ensures { result ≡ take_no no }
{
    match no {
        TakeNo::Empty => HubNo::Empty,
        TakeNo::Ended => HubNo::Ended,
        TakeNo::Memory => HubNo::Memory,
    }
}
