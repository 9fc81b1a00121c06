// Stories of both ends, over a port that answers from a list. What no clause says: that memory serves.
ghost use Rattle.std.specs.Prelude.{◌≡◌, IfOk, [], ◌∷◌, pos};

mod receiving;
mod script;
mod sending;

use ic_base::{SegId, Segs};
use std::alloc::Global;
use std::test::Fail;

/// Segments 0 and 1.
fn both(alloc: Global) -> Result<Segs, Fail>
    ensures { IfOk result (λ segs. segs ≡ pos 0 ∷ pos 1 ∷ []) }
{
    let first = SegId::new(0).ok_or("a segment")?;
    let second = SegId::new(1).ok_or("a segment")?;
    Ok(Segs::from_vec(vec![in alloc; first, second]?))
}
