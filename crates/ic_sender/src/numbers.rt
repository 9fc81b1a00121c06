// The numbers of a connection, and what there is room for.
ghost use Rattle.std.specs.Prelude.{◌≡◌, ◌+◌, ◌-◌, ◌≤◌, ◌<◌, min, nat_le, nat_lt, ◌&&◌, if◌then◌else◌, None, Some, IfSome};
ghost use Rattle.std.specs.Option.{option_map};
ghost use Rattle.ic_window.specs.Window.{room_of};
ghost use Rattle.ic_law.specs.Clock.{last_tick};
ghost use Rattle.ic_law.specs.Timers.{asked_later, asked_again};
ghost use Rattle.ic_law.specs.Timing.{standing};
ghost use Rattle.ic_sender.specs.Views.{asked_of};

use ic_window::Window;

/// A status query that stands: TCP's persist timer.
#[derive(Clone, Copy, Debug)]
pub(crate) struct Asked {
    /// The tick at which it is emitted.
    pub due: u64,
    /// How often it was emitted since the last answer.
    pub tries: u32,
}

/// The numbers of a connection's packets.
#[derive(Clone, Copy, Debug)]
pub(crate) struct Numbers {
    /// The last one sealed.
    pub sealed: u32,
    /// The greatest one emitted.
    pub sent: u32,
    /// The greatest run end heard.
    pub acked: u32,
    /// The greatest consumed number heard.
    pub consumed: u32,
}

impl Numbers {
    /// With one packet more sealed.
    pub(crate) fn with_one(&self) -> Numbers
        requires { self.now.sealed + 1 < 4294967296 }
        ensures { result ≡ record self.now { sealed = self.now.sealed + 1 } }
    {
        Numbers {
            sealed: self.sealed + 1,
            sent: self.sent,
            acked: self.acked,
            consumed: self.consumed,
        }
    }

    /// How many packets the receiver has room for beside those emitted.
    fn capacity(&self, depth: u32) -> u32
        ensures { result ≡ depth - (self.now.sent - self.now.consumed) }
    {
        depth.saturating_sub(self.sent.saturating_sub(self.consumed))
    }

    /// How many unsent packets go out: as many as the window and the receiver have room for.
    pub(crate) fn next(&self, depth: u32, window: &Window) -> u32
        ensures { result ≡ min (self.now.sealed - self.now.sent) (room_of window.now.window (self.now.sent - self.now.acked) (depth - (self.now.sent - self.now.consumed))) }
    {
        let in_flight = self.sent.saturating_sub(self.acked);
        let room = window.room(in_flight, self.capacity(depth));
        self.sealed.saturating_sub(self.sent).min(room)
    }

    /// The status query that stands then. If nothing is on its way, a packet is unsent and the receiver has no room,
    /// there is one; room ends it.
    pub(crate) fn asks(
        &self,
        depth: u32,
        window: &Window,
        asked: Option<Asked>,
        now: u64,
    ) -> Option<Asked>
        requires { now ≤ last_tick }
        ensures { option_map asked_of result ≡ (if nat_lt 0 (depth - (self.now.sent - self.now.consumed)) then None else
            (if nat_le self.now.sent self.now.acked && nat_lt self.now.sent self.now.sealed then standing now window.now (option_map asked_of asked) else option_map asked_of asked)) }
    {
        if self.capacity(depth) > 0 {
            return None;
        }
        if self.sent <= self.acked && self.sent < self.sealed {
            return Some(standing(window, asked, now));
        }
        asked
    }
}

/// The query that stands, or a new one.
#[tactic(auto, unfolding(ic_law::specs::Clock::last_tick))]
fn standing(window: &Window, asked: Option<Asked>, now: u64) -> Asked
    requires { now ≤ last_tick }
    ensures { standing now window.now (option_map asked_of asked) ≡ Some (asked_of result) }
{
    match asked {
        Some(asked) => asked,
        None => Asked {
            due: now + window.wait(0),
            tries: 0,
        },
    }
}

/// An answer moves a query that stands.
#[tactic(auto, unfolding(ic_law::specs::Clock::last_tick))]
pub(crate) fn later(window: &Window, asked: Option<Asked>, now: u64) -> Option<Asked>
    requires { now ≤ last_tick }
    ensures { option_map asked_of result ≡ option_map (asked_later now window.now) (option_map asked_of asked) }
{
    match asked {
        Some(_asked) => Some(Asked {
            due: now + window.wait(0),
            tries: 0,
        }),
        None => None,
    }
}

/// A status query that is due is emitted, and is due again after a longer time.
#[tactic(auto, unfolding(ic_law::specs::Clock::last_tick))]
pub(crate) fn again(window: &Window, asked: Option<Asked>, now: u64) -> Option<Asked>
    requires now { now ≤ last_tick }
    requires tries { IfSome asked (λ a. a.tries ≤ 1000) }
    ensures { option_map asked_of result ≡ option_map (asked_again now window.now) (option_map asked_of asked) }
{
    match asked {
        Some(asked) if asked.due <= now => Some(Asked {
            due: now + window.wait(asked.tries + 1),
            tries: asked.tries + 1,
        }),
        other => other,
    }
}
