// Writing a whole piece.
ghost use Rattle.std.specs.Prelude.{OnOk, OnErr};
ghost use Rattle.std.specs.Io.KnownBytes.{Appends};
ghost use Rattle.ic_edge.specs.Causes.{HasCause, TakesAFront};

use crate::fails::Failed;
use crate::sink::Sink;

/// Writes a piece, in as many calls as it takes; none for an empty piece. If a call fails, the sink has taken some
/// bytes from the front of the piece, but not all.
pub fn write_all<K: Sink>(sink: &mut K, piece: &[u8]) -> Result<(), Failed>
    ensures ok { OnOk result (Appends (K.wrote sink.old) (K.wrote sink.new) piece.now) }
    ensures err { OnErr result (TakesAFront (K.wrote sink.old) (K.wrote sink.new) piece.now) }
    ensures cause { HasCause (K.count sink.old) (K.count sink.new) result }
{
    let mut at = 0;
    while at < piece.len() {
        let n = sink.write(&piece[at..])?;
        at += n;
    }
    Ok(())
}
