// The smoothed round-trip time.
ghost use Rattle.std.specs.Prelude.{◌≡◌, ◌+◌, ◌/◌, ◌≤◌, min, max, Some};
ghost use Rattle.ic_window.specs.Waiting.{first_of, later_of, time_of};
ghost use Rattle.ic_window.specs.State.{IsRoundTrip};

/// The longest wait in ticks. A longer sample counts as this.
pub(crate) const LONGEST: u64 = 64;

/// The shortest wait in ticks: one for the packet's way and one for the answer's.
const SHORTEST: u64 = 2;

/// The two estimates of Jacobson's algorithm, as integers.
#[derive(Clone, Copy, Debug, PartialEq, Eq)]
pub(crate) struct RoundTrip {
    /// The smoothed time in 1/8 tick: SRTT of RFC 6298.
    pub smoothed: u64,
    /// The smoothed mean deviation in 1/4 tick: RTTVAR of RFC 6298.
    pub deviation: u64,
}

impl RoundTrip {
    /// After the first sample, of at most 64 ticks.
    pub fn first(ticks: u64) -> RoundTrip
        requires { ticks ≤ 64 }
        ensures value { result ≡ first_of ticks }
        ensures stands { IsRoundTrip result }
    {
        RoundTrip {
            smoothed: 8 * ticks,
            deviation: 2 * ticks,
        }
    }

    /// After a later sample, of at most 64 ticks.
    pub fn later(self, ticks: u64) -> RoundTrip
        requires sample { ticks ≤ 64 }
        requires stands { IsRoundTrip self }
        ensures value { result ≡ later_of ticks self }
        ensures stands { IsRoundTrip result }
    {
        let smoothed = self.smoothed / 8;
        RoundTrip {
            smoothed: self.smoothed + ticks - smoothed,
            deviation: self.deviation + ticks.abs_diff(smoothed) - self.deviation / 4,
        }
    }

    /// How long to wait, in ticks.
    pub fn time(self) -> u64
        requires { IsRoundTrip self }
        ensures { result ≡ time_of (Some self) }
    {
        (self.smoothed / 8 + self.deviation).clamp(SHORTEST, LONGEST)
    }
}
