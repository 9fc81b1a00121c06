// The settings of a query's connections.
ghost use Rattle.std.specs.Prelude.{◌≡◌};
ghost use Rattle.ic_base.specs.Settings.{checked, default_settings};

/// What limits how many unacknowledged packets a sender may have in the network.
#[derive(Clone, Copy, Debug, PartialEq, Eq)]
pub enum Flow {
    /// The receiver's free room, and a congestion window that shrinks at a loss.
    Loss,
    /// The receiver's free room alone: no congestion control.
    Capacity,
}

/// The settings of a query's connections.
#[derive(Clone, Copy, Debug, PartialEq, Eq)]
pub struct Settings {
    /// The greatest length of a packet in bytes, with its header of 64 bytes: 128..=65507. The upper limit is what fits
    /// in a UDP datagram over IPv4.
    pub packet: u32,
    /// How many packets a receiver keeps: 1..=256.
    pub receive_depth: u32,
    /// How many packets a sender keeps: 1..=256.
    pub send_depth: u32,
    /// How often a packet is resent before the sender gives up: 1..=1000.
    pub retries: u32,
    pub flow: Flow,
}

/// A setting that has a range.
#[derive(Clone, Copy, Debug, PartialEq, Eq)]
pub enum Field {
    Packet,
    ReceiveDepth,
    SendDepth,
    Retries,
}

/// A setting is out of its range: the first one, in the order of the fields of `Settings`. The caller's doing.
#[derive(Clone, Copy, Debug, PartialEq, Eq)]
pub struct OutOfRange {
    pub field: Field,
}

impl Settings {
    /// Packets of 8192 bytes, receive depth 4, send depth 2, at most 20 resendings, and a congestion window.
    pub const DEFAULT: Settings = Settings {
        packet: 8192,
        receive_depth: 4,
        send_depth: 2,
        retries: 20,
        flow: Flow::Loss,
    };

    /// Gives the settings back if each field is in its range.
    pub fn checked(self) -> Result<Settings, OutOfRange>
        ensures { result ≡ checked self }
    {
        if self.packet < 128 || self.packet > 65507 {
            return Err(OutOfRange {
                field: Field::Packet,
            });
        }
        if self.receive_depth < 1 || self.receive_depth > 256 {
            return Err(OutOfRange {
                field: Field::ReceiveDepth,
            });
        }
        if self.send_depth < 1 || self.send_depth > 256 {
            return Err(OutOfRange {
                field: Field::SendDepth,
            });
        }
        if self.retries < 1 || self.retries > 1000 {
            return Err(OutOfRange {
                field: Field::Retries,
            });
        }
        Ok(self)
    }
}

impl Default for Settings {
    fn default() -> Settings
        ensures { result ≡ default_settings }
    {
        Settings::DEFAULT
    }
}
