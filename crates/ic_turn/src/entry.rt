// One ask with its reply.

/// An ask with its reply. It is plain data: any two may stand in one.
#[derive(Drop)]
pub struct Entry<Ask, Reply> {
    pub ask: Ask,
    pub reply: Reply,
}
