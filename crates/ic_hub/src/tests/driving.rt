// A caller with a hub of session 7. All is of a gather: motion 1, which ends at the dispatcher.
ghost use Rattle.std.specs.Prelude.{◌≡◌, negsuc};
ghost use Rattle.ic_law.specs.Asking.{IsEndHere};
ghost use Rattle.ic_hub.specs.Hubbing.{place_in};

use super::packets::segment;
use crate::Hub;
use ic_base::{BeginNo, ConnEnd, ConnKey, SegId, Settings};
use std::alloc::Global;
use std::test::Fail;

/// A hub of session 7 at this segment, with three resendings.
pub fn hub(alloc: Global, at: i32) -> Result<Hub, Fail> {
    let settings = Settings {
        retries: 3,
        ..Settings::DEFAULT
    };
    Ok(Hub::new(alloc, 7, segment(at)?, settings)?)
}

/// A hub of which the gather of query 1 has begun.
pub fn begun(alloc: Global, at: i32) -> Result<Hub, Fail> {
    let mut hub = hub(alloc, at)?;
    match begin(&mut hub, alloc, 1)? {
        Ok(()) => Ok(hub),
        Err(_no) => Err("not begun".into()),
    }
}

/// Where the hub is.
pub fn at(hub: &Hub) -> SegId
    ensures { result ≡ hub.now.at }
{
    hub.at()
}

/// The gather of a query from this segment.
pub fn gather(hub: &Hub, query: u32, from: SegId) -> ConnKey
    ensures session { result.session ≡ hub.now.session }
    ensures query { result.query ≡ query }
    ensures from { result.from ≡ from }
    ensures to { result.to ≡ negsuc 0 }
{
    ConnKey {
        session: hub.session(),
        query,
        motion: 1,
        from,
        to: SegId::DISPATCHER,
    }
}

/// Its sending end, here.
fn sending(hub: &Hub, query: u32) -> ConnEnd
    ensures here { IsEndHere (place_in hub.now) query result }
    ensures from { result.key.from ≡ hub.now.at }
    ensures to { result.key.to ≡ negsuc 0 }
{
    ConnEnd {
        key: gather(hub, query, at(hub)),
        sending: true,
        send_slice: 1,
        recv_slice: 0,
    }
}

/// Its receiving end, here at the dispatcher.
fn receiving(hub: &Hub, query: u32, from: SegId) -> ConnEnd
    requires { hub.now.at ≡ negsuc 0 }
    ensures here { IsEndHere (place_in hub.now) query result }
    ensures from { result.key.from ≡ from }
    ensures to { result.key.to ≡ negsuc 0 }
{
    ConnEnd {
        key: gather(hub, query, from),
        sending: false,
        send_slice: 1,
        recv_slice: 0,
    }
}

/// At the dispatcher with two ends, elsewhere with one.
fn begin(hub: &mut Hub, alloc: Global, query: u32) -> Result<Result<(), BeginNo>, Fail> {
    if at(hub) == SegId::DISPATCHER {
        let ends = [
            receiving(hub, query, segment(0)?),
            receiving(hub, query, segment(1)?),
        ];
        Ok(hub.begin(alloc, query, &ends))
    } else {
        let ends = [sending(hub, query)];
        Ok(hub.begin(alloc, query, &ends))
    }
}

/// The tuple chunk of a row with one whole number.
pub fn chunk(row: u8) -> [u8; 15] {
    [0, 11, 0, 0, 0, 1, 1, 0, 0, 0, 0, 0, 0, 0, row]
}
