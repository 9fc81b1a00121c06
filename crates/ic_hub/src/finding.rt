// The place of a connection.
ghost use Rattle.std.specs.Prelude.{◌≡◌, ◌↔◌, None, Some, ◌==◌, position, IsTrue};
ghost use Rattle.ic_hub.specs.Hubbing.{Living};
ghost use Rattle.ic_hub.specs.Calls.{IsLiveIn};
ghost use Rattle.ic_hub.specs.Finding.{IsFound, FindsSender, FindsReceiver};

use crate::hub::Hub;
use ic_base::ConnKey;
use ic_conntab::{Find, Sides};

/// What a hub says of a connection.
#[derive(Clone, Copy)]
pub(crate) enum Found {
    /// It is of another session, or of a live query without it.
    Foreign,
    /// Its query has ended.
    Ended,
    /// Its query hasn't begun.
    NotBegun,
    /// Its query is the one at this place among the live ones, and its ends stand there.
    Here { query: usize, sides: Sides },
}

impl Hub {
    /// The place of a live query. Looks at the numbers of the live queries, which are few.
    pub(crate) fn place_of(&self, query: u32) -> Option<usize>
        ensures { result ≡ position (λ (l : Living). l.number == query) self.now.live }
    {
        self.live.iter().position(|live| live.number == query)
    }

    /// Whether the query is live. Looks at the numbers of the live queries, which are few.
    pub fn is_live(&self, query: u32) -> bool
        ensures { IsTrue result ↔ IsLiveIn self.now query }
    {
        self.place_of(query).is_some()
    }

    /// One look-up by hash, and one at the numbers of the live queries.
    pub(crate) fn find(&self, key: &ConnKey) -> Found
        ensures { IsFound self.now key.now result }
    {
        match self.table.find(key) {
            Find::Foreign => Found::Foreign,
            Find::Ended => Found::Ended,
            Find::NotBegun => Found::NotBegun,
            Find::Here(place) => match self.place_of(key.query) {
                Some(query) => Found::Here {
                    query,
                    sides: self.live[query].places.sides(place),
                },
                None => Found::Foreign,
            },
        }
    }

    /// The place of the sending end of a connection: its query's place and its own there.
    pub(crate) fn sender_of(&self, key: &ConnKey) -> Option<(usize, usize)>
        ensures { FindsSender self.now key.now result }
    {
        let _table = &self.table;
        match self.find(key) {
            Found::Here { query, sides } => match sides.sender {
                Some(place) => Some((query, place)),
                None => None,
            },
            _ => None,
        }
    }

    /// The place of the receiving end of a connection.
    pub(crate) fn receiver_of(&self, key: &ConnKey) -> Option<(usize, usize)>
        ensures { FindsReceiver self.now key.now result }
    {
        let _table = &self.table;
        match self.find(key) {
            Found::Here { query, sides } => match sides.receiver {
                Some(place) => Some((query, place)),
                None => None,
            },
            _ => None,
        }
    }
}
