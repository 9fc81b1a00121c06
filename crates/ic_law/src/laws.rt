// The laws of histories.
ghost use Rattle.ic_law.specs.Streams.{StreamsFollow};

/// Does nothing. Its clause is the main law: if each datagram that came was emitted for its receiver, and each hub
/// obeys its law, then the rows taken on a connection are a prefix of the rows sent, each once and in order; and they
/// are all of them if the end of stream was taken.
pub fn streams_follow()
    ensures { StreamsFollow }
{}
