// What no clause says: that the calls which allocate succeed when there is memory.
use crate::{Entry, Histories, History, HubAsk, HubReply};
use std::alloc::{AllocError, Global};
use std::test::Fail;

fn one_entry(alloc: Global) -> Result<History, AllocError> {
    let mut history = History::new(alloc);
    history.push(Entry {
        ask: HubAsk::Tick,
        reply: HubReply::Memory,
    })?;
    Ok(history)
}

#[test]
fn an_entry_is_kept(rt: HostRuntime) -> Result<(), Fail> {
    let history = one_entry(rt.alloc())?;
    assert_eq!(rt; history.as_slice().len(), 1);
    Ok(())
}

#[test]
fn each_node_has_a_history(rt: HostRuntime) -> Result<(), Fail> {
    let histories = Histories::new(rt.alloc(), 3)?;
    assert_eq!(rt; histories.as_slice().len(), 3);
    Ok(())
}

fn noted(alloc: Global) -> Result<Histories, AllocError> {
    let mut histories = Histories::new(alloc, 3)?;
    if histories.as_slice().len() > 1 {
        histories.note(1, HubAsk::Tick, HubReply::Memory)?;
    }
    Ok(histories)
}

#[test]
fn an_entry_is_noted(rt: HostRuntime) -> Result<(), Fail> {
    let histories = noted(rt.alloc())?;
    assert_eq!(rt; histories.as_slice().len(), 3);
    Ok(())
}
