// Counting the rows in payloads.
ghost use Rattle.std.specs.Prelude.{◌≡◌, ◌<◌, ◌+◌, ◌++◌, [], ◌∷◌, ℕ, List, length, min, option_map, IfSome};
ghost use Rattle.ic_chunk.specs.Counts.{front_at, ends_by, HasEnded, HasCounted, greatest_count};

/// The kind number of the chunk at the front of the bytes, and the bytes after the chunk. `None` if the chunk is cut
/// off.
#[tactic(auto, unfolding(crate::specs::Counts::front_at))]
fn next_chunk(bytes: &[u8]) -> Option<(u16, &[u8])>
    ensures front { option_map (λ found. (found.0, found.1.now)) result ≡ front_at bytes.now }
    ensures shorter { IfSome result (λ found. length found.1.now < length bytes.now) }
{
    let (size, rest) = bytes.split_first_chunk::<2>()?;
    let (kind, rest) = rest.split_first_chunk::<2>()?;
    let size = usize::from(u16::from_be_bytes(*size));
    if rest.len() < size {
        return None;
    }
    let (_, behind) = rest.split_at(size);
    Some((u16::from_be_bytes(*kind), behind))
}

/// 1 if a row ends with a chunk of this kind number, otherwise 0.
fn ends_by(kind: u16) -> usize
    ensures { result ≡ ends_by kind }
{
    match kind {
        0 | 3 => 1,
        _ => 0,
    }
}

/// How many rows end in a payload: its chunks that are whole rows or the ends of rows. Reads only the heads of the
/// chunks, never their bodies. If the bytes aren't a payload, it counts until the first byte that begins no chunk.
pub fn rows_ended(payload: &[u8]) -> usize
    ensures { HasEnded payload.now result }
{
    let mut rest = payload;
    let mut count = 0;
    while let Some((kind, behind)) = next_chunk(rest) {
        count += ends_by(kind);
        rest = behind;
    }
    count
}

/// The sum, up to the greatest value of the count.
fn added(count: u64, more: usize) -> u64
    ensures { result ≡ min greatest_count (count + more) }
{
    count.saturating_add(more as u64)
}

/// Adds the rows that end in the next payload to the count of those before. The count stays at its greatest value.
pub fn count_more(count: u64, payload: &[u8]) -> u64
    ensures { (payloads : List (List ℕ)) → HasCounted payloads count → HasCounted (payloads ++ payload.now ∷ []) result }
{
    added(count, rows_ended(payload))
}
