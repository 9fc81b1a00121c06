// Which calls are entries of a history.
ghost use Rattle.std.specs.Prelude.{◌≡◌, ◌++◌, ◌∷◌, [], ◌<◌, true, false, vec_len, vec_capacity};
ghost use Rattle.ic_law.specs.declared.history.HubAsk.{HubAsk};
ghost use Rattle.ic_hub.specs.Noting.{noted};

use ic_law::{Entry, HubAsk, HubReply};

/// Whether a call with this reply is no entry: it found no memory, and did nothing.
fn is_none(reply: &HubReply) -> bool
    ensures none { result ≡ true → (ask : HubAsk) → noted ask reply.now ≡ [] }
    ensures one { result ≡ false → (ask : HubAsk) → noted ask reply.now ≡ record { ask = ask; reply = reply.now } ∷ [] }
{
    match reply {
        HubReply::Memory => true,
        HubReply::Begun(_) => false,
        HubReply::Gave(_) => false,
        HubReply::Took(_) => false,
        HubReply::Came(_, _) => false,
        HubReply::Ticked(_) => false,
        HubReply::Cleared(_) => false,
        HubReply::Left(_) => false,
    }
}

/// Puts the entry of a call at the end of a history that has room for it. A call that found no memory did nothing, and
/// is no entry.
pub fn note(entries: &mut Vec<Entry>, ask: HubAsk, reply: HubReply)
    requires { vec_len entries.old < vec_capacity entries.old }
    ensures { entries.new.items ≡ entries.old.items ++ noted ask reply }
{
    if is_none(&reply) {
        return;
    }
    let _pushed = entries.push(Entry { ask, reply });
}
