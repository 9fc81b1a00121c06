// The answer of a call that waits for nobody.

/// Another pass has the turn, or the numbers of entries are at an end. The ask comes back, and nothing was asked.
#[derive(Drop)]
pub struct Busy<Ask> {
    pub ask: Ask,
}
