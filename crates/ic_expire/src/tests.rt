// Worked rows, and what no clause says: that memory serves.
ghost use Rattle.std.specs.Prelude.{◌≡◌, ◌≤◌, OnOk};
ghost use Rattle.ic_expire.specs.Items.{is_due};
ghost use Rattle.ic_expire.specs.Queue.{without};

use super::*;
use std::alloc::{AllocError, Global};
use std::test::Fail;

/// What is due at a tick, as pairs of a connection and a number.
fn due_at(queue: &mut Expiry, alloc: Global, now: u64) -> Result<Vec<(u32, u32)>, AllocError>
    requires { queue.old.asked ≤ now }
    ensures { OnOk result (queue.new ≡ record queue.old { held = without (is_due now) queue.old.held; asked = now }) }
{
    let dues = queue.due(alloc, now)?;
    dues.into_vec()
        .into_iter()
        .map(|due| (due.conn, due.seq))
        .collect(alloc)
}

#[test]
fn an_answered_packet_is_never_due(rt: HostRuntime) -> Result<(), Fail> {
    let mut queue = Expiry::with_room(rt.alloc(), 4)?;
    queue.put(0, 1, 4);
    queue.put(0, 2, 4);
    queue.put(1, 1, 2);
    queue.cut(0, 1);
    assert_eq!(rt;
        due_at(&mut queue, rt.alloc(), 3)?.as_slice(),
        [(1, 1)].as_slice()
    );
    assert_eq!(rt;
        due_at(&mut queue, rt.alloc(), 4)?.as_slice(),
        [(0, 2)].as_slice()
    );
    assert_eq!(rt;
        due_at(&mut queue, rt.alloc(), 5)?.as_slice(),
        [].as_slice()
    );
    Ok(())
}

#[test]
fn a_question_far_later_finds_what_was_put_since(rt: HostRuntime) -> Result<(), Fail> {
    let mut queue = Expiry::with_room(rt.alloc(), 2)?;
    assert_eq!(rt;
        due_at(&mut queue, rt.alloc(), 126)?.as_slice(),
        [].as_slice()
    );
    queue.put(0, 1, 190);
    queue.put(0, 2, 130);
    assert_eq!(rt;
        due_at(&mut queue, rt.alloc(), 130)?.as_slice(),
        [(0, 2)].as_slice()
    );
    assert_eq!(rt;
        due_at(&mut queue, rt.alloc(), 189)?.as_slice(),
        [].as_slice()
    );
    assert_eq!(rt;
        due_at(&mut queue, rt.alloc(), 190)?.as_slice(),
        [(0, 1)].as_slice()
    );
    Ok(())
}

#[test]
fn a_look_takes_nothing_out(rt: HostRuntime) -> Result<(), Fail> {
    let mut queue = Expiry::with_room(rt.alloc(), 2)?;
    queue.put(0, 1, 4);
    queue.put(0, 2, 5);
    let seen = queue.due_at(rt.alloc(), 4)?;
    assert_eq!(rt; seen.as_slice().len(), 1);
    assert_eq!(rt; queue.len(), 2);
    Ok(())
}
