ghost use Rattle.std.specs.Prelude.{◌≡◌, ◌==◌, false};
ghost use Rattle.std.specs.List.{IsDistinct};
ghost use Rattle.ic_base.specs.Keys.{key_eq};

use crate::{ConnTable, Find};
use ic_base::{ConnKey, SegId};
use std::test::Fail;

fn key(session: u32, query: u32, motion: u32) -> ConnKey
    ensures motion { result.motion ≡ motion }
{
    ConnKey {
        session,
        query,
        motion,
        from: SegId::DISPATCHER,
        to: SegId::DISPATCHER,
    }
}

/// Two connections of a query of session 7, of these two motions.
#[tactic(auto, using(crate::proofs::Apart::two_distinct))]
fn two(query: u32, first: u32, second: u32) -> [ConnKey; 2]
    requires differ { (first == second) ≡ false }
    ensures distinct { IsDistinct key_eq result }
{
    [key(7, query, first), key(7, query, second)]
}

#[test]
fn a_late_packet_and_an_early_one_are_told_apart(rt: HostRuntime) -> Result<(), Fail> {
    let mut table = ConnTable::new(rt.alloc(), 7)?;
    assert_eq!(rt; table.begin(rt.alloc(), 1, &two(1, 1, 2)), Ok(()));
    assert_eq!(rt; table.leave(1), Ok(()));
    assert_eq!(rt; table.begin(rt.alloc(), 2, &two(2, 1, 2)), Ok(()));
    let rows = [(1, Find::Ended), (2, Find::Here(0)), (3, Find::NotBegun)];
    for (query, wanted) in rows {
        assert_eq!(rt; table.find(&key(7, query, 1)), wanted, "query {query}");
    }
    Ok(())
}
