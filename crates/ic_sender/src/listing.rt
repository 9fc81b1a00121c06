// The numbers that an answer lists.
ghost use Rattle.std.specs.Prelude.{◌≡◌, ◌+◌, ◌*◌, ◌/◌, ◌≤◌, take, drop, length, None, IfOk, IfSome};
ghost use Rattle.std.specs.Int.{w32, from_be_bytes};
ghost use Rattle.ic_law.specs.Numbers.{words_in, IsIncreasingFrom, last_or};

use std::alloc::{AllocError, Global};

/// The number at a place, from 0, four bytes each, the greatest first.
pub(crate) fn word(bytes: &[u8], place: usize) -> u32
    requires { 4 * place + 4 ≤ length bytes.now }
    ensures { result ≡ from_be_bytes w32 (take 4 (drop (4 * place) bytes.now)) }
{
    let at = 4 * place;
    u32::from_be_bytes([bytes[at], bytes[at + 1], bytes[at + 2], bytes[at + 3]])
}

/// The numbers that fill a body.
pub(crate) fn words(alloc: Global, bytes: &[u8]) -> Result<Vec<u32>, AllocError>
    ensures { IfOk result (λ v. v.items ≡ words_in bytes.now) }
{
    let count = bytes.len() / 4;
    let mut words = Vec::with_capacity(alloc, count)?;
    for place in 0..count {
        words.push(word(bytes, place))?;
    }
    Ok(words)
}

/// The last of these numbers, 0 if there is none, if they increase from at least 1.
pub(crate) fn last_increasing(numbers: &[u32]) -> Option<u32>
    ensures some { IfSome result (λ n. IsIncreasingFrom 1 numbers.now × (n ≡ last_or 0 numbers.now)) }
    ensures none { result ≡ None → IsIncreasingFrom 1 numbers.now → ⊥ }
{
    let mut least = 1;
    let mut last = 0;
    for number in numbers {
        if u64::from(*number) < least {
            return None;
        }
        least = u64::from(*number) + 1;
        last = *number;
    }
    Some(last)
}
