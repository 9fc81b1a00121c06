ghost use Rattle.std.specs.Prelude.{◌≡◌, ◌+◌, ◌*◌, ◌<◌, ◌≤◌, ◌↔◌, ℕ, List, length, IfOk, Ok};
ghost use Rattle.ic_header.specs.Spelling.{Heads};
ghost use Rattle.ic_header.specs.Reading.{content_at, header_at, len_fits, read_header, seen, word_at};
ghost use Rattle.ic_header.specs.Faults.{IsCrcFault, IsFlagsFault, IsLenFault, IsShort};

use crate::fault::HeaderFault;
use crate::flags::Flags;
use crate::header::Header;

/// The word at this position, from 0.
#[tactic(auto, unfolding(crate::specs::Reading::word_at))]
fn word(bytes: &[u8], place: usize) -> u32
    requires small { place < 16 }
    requires room { 4 * place + 4 ≤ length bytes.now }
    ensures { result ≡ word_at bytes.now place }
{
    let at = 4 * place;
    u32::from_be_bytes([bytes[at], bytes[at + 1], bytes[at + 2], bytes[at + 3]])
}

/// The word at this position, from 0, as a signed number in two's complement.
#[tactic(auto, unfolding(crate::specs::Reading::content_at))]
fn content(bytes: &[u8], place: usize) -> i32
    requires small { place < 16 }
    requires room { 4 * place + 4 ≤ length bytes.now }
    ensures { result ≡ content_at bytes.now place }
{
    word(bytes, place).cast_signed()
}

/// The header's fields, if the kind is already known.
#[tactic(auto, unfolding(crate::specs::Reading::header_at))]
fn header(bytes: &[u8], flags: Flags) -> Header
    requires { 64 ≤ length bytes.now }
    ensures { result ≡ header_at bytes.now flags }
{
    Header {
        motion: word(bytes, 0),
        src_pid: word(bytes, 1),
        src_port: word(bytes, 2),
        dst_pid: word(bytes, 3),
        dst_port: word(bytes, 4),
        session: word(bytes, 5),
        query: word(bytes, 6),
        recv_slice: word(bytes, 7),
        send_slice: word(bytes, 8),
        src_content: content(bytes, 9),
        dst_content: content(bytes, 10),
        flags,
        len: word(bytes, 13),
        seq: word(bytes, 14),
        extra: word(bytes, 15),
    }
}

/// Whether the length in the header is the datagram's, and the kind allows a body of this length.
#[tactic(auto, unfolding(crate::specs::Reading::len_fits))]
fn len_fits(bytes: &[u8], flags: Flags) -> bool
    requires { 64 ≤ length bytes.now }
    ensures { result ≡ len_fits bytes.now flags }
{
    word(bytes, 13) as usize == bytes.len() && flags.allows(bytes.len() - 64)
}

/// The header and the body, or the first fault.
#[tactic(auto, unfolding(crate::specs::Reading::read_header))]
fn judged(bytes: &[u8]) -> Result<(Header, &[u8]), HeaderFault>
    ensures { seen result ≡ read_header bytes.now }
{
    if bytes.len() < 64 {
        return Err(HeaderFault::Short);
    }
    if word(bytes, 11) != 0 {
        return Err(HeaderFault::Crc);
    }
    let Some(flags) = Flags::from_word(word(bytes, 12)) else {
        return Err(HeaderFault::Flags);
    };
    if !len_fits(bytes, flags) {
        return Err(HeaderFault::Len);
    }
    let (_, body) = bytes.split_at(64);
    Ok((header(bytes, flags), body))
}

/// Reads a whole datagram: the header and the body after it. The body is a slice of `bytes`, not a copy. Only the crc,
/// the flags and the length are checked; every other field may hold any number.
pub fn read(bytes: &[u8]) -> Result<(Header, &[u8]), HeaderFault>
    // A header and a body are returned exactly if the bytes are their spelling.
    ensures ok { (h : Header) (body : List ℕ) → (seen result ≡ Ok (h, body)) ↔ Heads h body bytes.now }
    // If they are returned, every byte is spelled by them.
    ensures heads { IfOk result (λ r. Heads r.0 r.1.now bytes.now) }
    // Each fault is returned exactly if it is the first.
    ensures short { (result ≡ Err HeaderFault.Short) ↔ IsShort bytes.now }
    ensures crc { (result ≡ Err HeaderFault.Crc) ↔ IsCrcFault bytes.now }
    ensures flags { (result ≡ Err HeaderFault.Flags) ↔ IsFlagsFault bytes.now }
    ensures len { (result ≡ Err HeaderFault.Len) ↔ IsLenFault bytes.now }
    // The same as one function of the bytes.
    ensures exact { seen result ≡ read_header bytes.now }
{
    judged(bytes)
}
