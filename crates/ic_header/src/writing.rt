ghost use Rattle.std.specs.Prelude.{◌≡◌, ◌+◌, ◌++◌, ℕ, List, length, Ok};
ghost use Rattle.ic_header.specs.Spelling.{AllowsBody, Heads, IsInRange, words_of, written};
ghost use Rattle.ic_header.specs.Reading.{read_header};

use crate::header::Header;

/// The sixteen words in order.
fn words(header: Header) -> [u32; 16]
    ensures words { result ≡ words_of header }
    ensures in_range { IsInRange header }
{
    [
        header.motion,
        header.src_pid,
        header.src_port,
        header.dst_pid,
        header.dst_port,
        header.session,
        header.query,
        header.recv_slice,
        header.send_slice,
        header.src_content.cast_unsigned(),
        header.dst_content.cast_unsigned(),
        0,
        header.flags.word(),
        header.len,
        header.seq,
        header.extra,
    ]
}

/// Writes the 64 bytes of a header over what `out` held: sixteen words, big-endian, the crc word 0. Never fails: the
/// caller, who knows the body, must set `len` right.
pub fn write(header: &Header, out: &mut [u8; 64])
    // The bytes are the header's one spelling.
    ensures spelled { out.new ≡ written header.now }
    // Followed by a body that its flags allow and its `len` counts, they are a whole datagram.
    ensures heads { (body : List ℕ) → header.now.len ≡ 64 + length body → AllowsBody header.now.flags (length body)
        → Heads header.now body (out.new ++ body) }
    // Header and body are then read back.
    ensures again { (body : List ℕ) → header.now.len ≡ 64 + length body → AllowsBody header.now.flags (length body)
        → read_header (out.new ++ body) ≡ Ok (header.now, body) }
{
    let words = words(*header);
    for (place, word) in words.iter().enumerate() {
        out[4 * place..4 * place + 4].copy_from_slice(&word.to_be_bytes());
    }
}
