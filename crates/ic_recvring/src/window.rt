// The packets that stand in the slots.
ghost use Rattle.std.specs.Prelude.{◌≡◌, ◌+◌, ◌-◌, ◌<◌, ◌≤◌, ◌++◌, [], ◌∷◌, if◌then◌else◌, ℕ, length, true, false, filter, is_some, IfOk, OnOk};
ghost use Rattle.ic_recvring.specs.Numbers.{numbers_from};
ghost use Rattle.ic_recvring.specs.Views.{packet_at, is_absent};

use crate::slot::Slot;
use std::alloc::{AllocError, Global};

/// Is the packet of this number in its slot? It lies within the depth.
pub(crate) fn is_kept(slots: &[Slot], depth: u32, seq: u32) -> bool
    requires { length slots.now ≡ depth }
    ensures { result ≡ is_some (packet_at slots.now depth seq) }
{
    if depth == 0 {
        return false;
    }
    slots[(seq % depth) as usize].kept
}

/// How far the run goes on after `run`, up to `top` at most.
pub(crate) fn run_on(slots: &[Slot], depth: u32, run: u32, top: u32) -> u32
    requires depth { length slots.now ≡ depth }
    requires top { run ≤ top }
    ensures up { run ≤ result }
    ensures within { result ≤ top }
    ensures run { (n : ℕ) → run < n → n ≤ result → is_some (packet_at slots.now depth n) ≡ true }
    ensures end { result < top → is_some (packet_at slots.now depth (result + 1)) ≡ false }
{
    let mut end = run;
    while end < top && is_kept(slots, depth, end + 1) {
        end += 1;
    }
    end
}

/// The greatest number that is kept, of those up to `top` and after `consumed`, or else that one.
pub(crate) fn top_from(slots: &[Slot], depth: u32, consumed: u32, top: u32) -> u32
    requires depth { length slots.now ≡ depth }
    requires top { consumed ≤ top }
    ensures low { consumed ≤ result }
    ensures within { result ≤ top }
    ensures here { consumed < result → is_some (packet_at slots.now depth result) ≡ true }
    ensures none { (n : ℕ) → result < n → n ≤ top → is_some (packet_at slots.now depth n) ≡ false }
{
    let mut greatest = top;
    while consumed < greatest && !is_kept(slots, depth, greatest) {
        greatest -= 1;
    }
    greatest
}

/// The numbers after `run` and up to `top` that aren't kept.
pub(crate) fn absent(
    alloc: Global,
    slots: &[Slot],
    depth: u32,
    run: u32,
    top: u32,
) -> Result<Vec<u32>, AllocError>
    requires depth { length slots.now ≡ depth }
    requires top { run ≤ top }
    ensures { IfOk result (λ v. v.items ≡ filter (is_absent slots.now depth) (numbers_from (run + 1) (top - run))) }
{
    let mut seqs = Vec::new(alloc);
    for behind in 0..top - run {
        let seq = run + 1 + behind;
        push_absent(&mut seqs, seq, is_kept(slots, depth, seq))?;
    }
    Ok(seqs)
}

/// Adds a number, unless it is kept.
fn push_absent(seqs: &mut Vec<u32>, seq: u32, kept: bool) -> Result<(), AllocError>
    ensures { OnOk result (seqs.new.items ≡ seqs.old.items ++ (if kept then [] else seq ∷ [])) }
{
    if !kept {
        seqs.push(seq)?;
    }
    Ok(())
}
