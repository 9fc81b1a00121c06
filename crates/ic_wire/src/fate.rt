// What becomes of each send.
ghost use Rattle.std.specs.Prelude.{◌≡◌, ℕ};
ghost use Rattle.ic_wire.specs.Fates.{word_of, draws_of, is_dropped, is_muted, is_lost};

use ic_base::{Datagram, Drops, SegId};
use rand_core::utils::NextWord;
use rand_xoshiro::SplitMix64;

/// What becomes of the sends, which are numbered from 1.
///
/// A send is lost if its number is in `drops`, or if it goes from the first to the second segment of `mute`. Each other
/// send draws four words of 64 bits from SplitMix64, whose state is `seed` at first. If the first word modulo 1000 is
/// below `loss`, the send is lost. Else a copy is kept, delayed by the third word modulo `delay` + 1. If the second word
/// modulo 1000 is below `repeat`, a second copy is kept, delayed by the fourth word modulo `delay` + 1. A delay is a
/// number of sends.
///
/// Source of SplitMix64: Steele, Lea and Flood, "Fast splittable pseudorandom number generators", OOPSLA 2014.
#[derive(Drop)]
pub struct Fate {
    pub seed: u64,
    /// How many of 1000 sends are lost, about: 0 for none, 1000 for all.
    pub loss: u32,
    /// How many of 1000 sends have a second copy, about.
    pub repeat: u32,
    /// By how many sends a copy is delayed at most.
    pub delay: u32,
    pub drops: Drops,
    /// What the first of these segments sends to the second is lost.
    pub mute: Option<(SegId, SegId)>,
}

/// The words that a send draws.
#[derive(Drop)]
pub(crate) struct Draws {
    pub loss: u64,
    pub repeat: u64,
    pub delay: u64,
    pub delay_again: u64,
}

#[tactic(auto, unfolding(crate::specs::Fates::word_of))]
fn word(words: &mut SplitMix64) -> u64
    ensures { (result, words.new) ≡ word_of words.old }
{
    words.next_word()
}

/// The words of the next send.
#[tactic(auto, unfolding(crate::specs::Fates::draws_of))]
pub(crate) fn draw(words: &mut SplitMix64) -> Draws
    ensures { (result, words.new) ≡ draws_of words.old }
{
    let loss = word(words);
    let repeat = word(words);
    let delay = word(words);
    let delay_again = word(words);
    Draws {
        loss,
        repeat,
        delay,
        delay_again,
    }
}

fn is_dropped(drops: &Drops, number: u128) -> bool
    ensures { result ≡ is_dropped drops.now number }
{
    drops
        .as_slice()
        .iter()
        .any(|drop| u128::from(*drop) == number)
}

fn is_muted(mute: &Option<(SegId, SegId)>, datagram: &Datagram) -> bool
    ensures { result ≡ is_muted mute.now datagram.now }
{
    match mute {
        Some((from, to)) => datagram.from == *from && datagram.to == *to,
        None => false,
    }
}

impl Fate {
    /// Whether the send of this number is lost whatever is drawn. Compares the number with each one that is to be lost.
    pub(crate) fn loses(&self, number: u128, datagram: &Datagram) -> bool
        ensures { result ≡ is_lost self.now number datagram.now }
    {
        is_dropped(&self.drops, number) || is_muted(&self.mute, datagram)
    }
}
