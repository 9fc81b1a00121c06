// The ends of a plan's connections.
ghost use Rattle.std.specs.Prelude.{◌≡◌, ◌++◌, ◌≤◌, map, flat_map, IfOk, OnOk};
ghost use Rattle.pl_plan.specs.Motions.{link_of, links_of};
ghost use Rattle.pl_plan.specs.Layout.{motion_in};
ghost use Rattle.pl_plan.specs.Asking as spec;

use crate::layout::MotionRow;
use ic_base::{ConnEnd, ConnKey, SegId};
use std::alloc::{AllocError, Global};

/// Whose ends are wanted.
#[derive(Clone, Copy)]
pub struct Asked {
    pub session: u32,
    pub query: u32,
    pub at: SegId,
}

/// One connection of a motion.
#[derive(Clone, Copy)]
struct Between {
    motion: u32,
    above: u32,
    from: SegId,
    to: SegId,
}

fn end_of(asked: &Asked, link: &Between, sending: bool) -> ConnEnd
    ensures { result ≡ spec.end_of asked.now link.now sending }
{
    ConnEnd {
        key: ConnKey {
            session: asked.session,
            query: asked.query,
            motion: link.motion,
            from: link.from,
            to: link.to,
        },
        sending,
        send_slice: link.motion,
        recv_slice: link.above,
    }
}

fn is_at(at: &SegId, segment: &SegId) -> bool
    ensures { result ≡ spec.is_at at.now segment.now }
{
    segment.number() == at.number()
}

fn add_if(wanted: bool, end: ConnEnd, ends: &mut Vec<ConnEnd>) -> Result<(), AllocError>
    ensures { OnOk result (ends.new.items ≡ ends.old.items ++ spec.end_if wanted end) }
{
    if wanted {
        ends.push(end)?;
    }
    Ok(())
}

/// Adds the ends of one connection, the sending side first.
fn add_link(asked: &Asked, link: &Between, ends: &mut Vec<ConnEnd>) -> Result<(), AllocError>
    ensures { OnOk result (ends.new.items ≡ ends.old.items ++ spec.ends_of asked.now link.now) }
{
    add_if(
        is_at(&asked.at, &link.from),
        end_of(asked, link, true),
        ends,
    )?;
    add_if(is_at(&asked.at, &link.to), end_of(asked, link, false), ends)
}

/// Adds the ends of one sender's connections.
fn add_sender(
    asked: &Asked,
    motion: &MotionRow,
    from: &SegId,
    receivers: &[SegId],
    ends: &mut Vec<ConnEnd>,
) -> Result<(), AllocError>
    ensures { OnOk result (ends.new.items ≡ ends.old.items ++ flat_map (spec.ends_of asked.now) (map (spec.between motion.now from.now) receivers.now)) }
{
    for to in receivers {
        let link = Between {
            motion: motion.number,
            above: motion.above,
            from: *from,
            to: *to,
        };
        add_link(asked, &link, ends)?;
    }
    Ok(())
}

/// Adds the ends of one motion's connections.
fn add_motion(
    asked: &Asked,
    motion: &MotionRow,
    senders: &[SegId],
    receivers: &[SegId],
    ends: &mut Vec<ConnEnd>,
) -> Result<(), AllocError>
    ensures { OnOk result (ends.new.items ≡ ends.old.items ++ flat_map (spec.sender_ends asked.now motion.now receivers.now) senders.now) }
{
    for from in senders {
        add_sender(asked, motion, from, receivers, ends)?;
    }
    Ok(())
}

/// The ends of all connections, by motion, sender and receiver.
pub fn all_ends(
    alloc: Global,
    motions: &[MotionRow],
    segments: u32,
    asked: &Asked,
) -> Result<Vec<ConnEnd>, AllocError>
    requires { segments ≤ 64 }
    ensures { IfOk result (λ ends. ends.items ≡ flat_map (spec.motion_ends segments asked.now) motions.now) }
{
    let mut ends = Vec::new(alloc);
    for motion in motions {
        let senders = motion.senders.members(alloc, segments)?;
        let receivers = motion.receivers.members(alloc, segments)?;
        add_motion(
            asked,
            motion,
            senders.as_slice(),
            receivers.as_slice(),
            &mut ends,
        )?;
    }
    Ok(ends)
}
