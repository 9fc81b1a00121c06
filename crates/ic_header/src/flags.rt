/// The kind of a packet. Its word is a sum of bits: 1 goes from receiver to sender, 2 acknowledges, 4 stops, 8 ends the
/// stream, 16 no such connection, 32 lists what is missing, 64 came before, 128 asks. Only the eight words below are
/// used.
#[derive(Clone, Copy, Debug, PartialEq, Eq)]
pub enum Flags {
    /// Word 0, to the receiver: rows. The body has at least 4 bytes.
    Rows,
    /// Word 8, to the receiver: rows, and then the end of stream. The body has at least 4 bytes.
    LastRows,
    /// Word 128, to the receiver: a status query (window probe). No body.
    Query,
    /// Word 3, to the sender: all packets up to a number came, and how many were consumed. No body.
    Ack,
    /// Word 5, to the sender: send no more. No body.
    Stop,
    /// Word 17, to the sender: no such connection yet. No body.
    Nak,
    /// Word 33, to the sender: these packets are missing. The body lists their numbers, 4 bytes each, at least one.
    Disorder,
    /// Word 65, to the sender: the packet of that number came before. No body.
    Duplicate,
}

impl Flags {
    ghost use Rattle.std.specs.Prelude.{◌≡◌};
    ghost use Rattle.ic_header.specs.Spelling.{flags_word};
    ghost use Rattle.ic_header.specs.Reading.{flags_of, allows_body};

    /// The word of this kind.
    pub(crate) fn word(self) -> u32
        ensures { result ≡ flags_word self }
    {
        match self {
            Flags::Rows => 0,
            Flags::LastRows => 8,
            Flags::Query => 128,
            Flags::Ack => 3,
            Flags::Stop => 5,
            Flags::Nak => 17,
            Flags::Disorder => 33,
            Flags::Duplicate => 65,
        }
    }

    /// The kind of this word, or `None` if it is none of the eight.
    #[tactic(auto, unfolding(crate::specs::Reading::flags_of))]
    pub(crate) fn from_word(word: u32) -> Option<Flags>
        ensures { result ≡ flags_of word }
    {
        match word {
            0 => Some(Flags::Rows),
            8 => Some(Flags::LastRows),
            128 => Some(Flags::Query),
            3 => Some(Flags::Ack),
            5 => Some(Flags::Stop),
            17 => Some(Flags::Nak),
            33 => Some(Flags::Disorder),
            65 => Some(Flags::Duplicate),
            _ => None,
        }
    }

    /// Whether this kind may have a body of this many bytes.
    pub(crate) fn allows(self, body: usize) -> bool
        ensures { result ≡ allows_body self body }
    {
        match self {
            Flags::Rows | Flags::LastRows => body >= 4,
            Flags::Disorder => body != 0 && body % 4 == 0,
            Flags::Query | Flags::Ack | Flags::Stop | Flags::Nak | Flags::Duplicate => body == 0,
        }
    }
}
