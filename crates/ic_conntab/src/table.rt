// The table.
ghost use Rattle.std.specs.Prelude.{◌≡◌, ◌↔◌, ℕ, false, Option, None, Some, IfOk, OnOk, OnErr, Err};
ghost use Rattle.std.specs.List.{IsDistinct};
ghost use Rattle.ic_base.specs.Keys.{key_eq};
ghost use Rattle.ic_conntab.specs.Table.{is_past, raised};
ghost use Rattle.ic_base.specs.declared.keys.BeginNo.TheVariants.{Old, Twice};

use crate::answer::{Find, NotLive};
use crate::keys::Keys;
use crate::live::Live;
use ic_base::{BeginNo, ConnKey};
use std::alloc::{AllocError, Global};
use std::marker::Model;

/// The connections of a segment in one session, by query: a demultiplexing table (Greenplum: connection hash table).
///
/// Seen as its session, the greatest query number that has ended, if any has, and the live queries with their
/// connections. Several queries may be live at once, and the number of a live one may be below the greatest that has
/// ended.
#[derive(Drop)]
pub struct ConnTable {
    session: u32,
    /// The greatest query number that has ended.
    top: Option<u32>,
    live: Live,
}

impl Model for ConnTable {
    ghost use Rattle.ic_conntab.specs.Table.{Table};
    ghost use Rattle.ic_conntab.specs.Codes.{table_code};

    ghost Value = { Table };

    ghost coded = { table_code };

    ghost view = { λ t. record { session = t.session; top = t.top; live = t.live } };
}

impl ConnTable {
    ghost use Rattle.ic_conntab.specs.Table.{fresh, begun, left, found, IsLive, IsOld, MayBegin};

    /// A table of this session, in which no query has begun. Allocates room for a few queries. Fails only if out of
    /// memory.
    pub fn new(alloc: Global, session: u32) -> Result<ConnTable, AllocError>
        ensures { IfOk result (λ t. t ≡ fresh session) }
    {
        Ok(ConnTable {
            session,
            top: None,
            live: Live::new(alloc)?,
        })
    }

    /// Whether a query may begin, and if not, why: `Old` and `Twice` are the caller's doing. One look-up by hash. Takes
    /// no memory.
    pub fn may_begin(&self, query: u32) -> Result<(), BeginNo>
        ensures ok { OnOk result (MayBegin self.now query) }
        ensures old { (top : ℕ) → (result ≡ Err (Old top)) ↔ IsOld self.now query top }
        ensures twice { (result ≡ Err Twice) ↔ ((is_past self.now.top query ≡ false) × IsLive self.now query) }
    {
        if let Some(top) = self.top
            && query <= top
        {
            return Err(BeginNo::Old(top));
        }
        if self.live.get(query).is_some() {
            return Err(BeginNo::Twice);
        }
        Ok(())
    }

    /// Begins a query with these connections, which get the positions from 0. They must be distinct. Keys of another
    /// session or query are never found. Copies and hashes each key once. `Old` and `Twice` are the caller's doing.
    pub fn begin(&mut self, alloc: Global, query: u32, keys: &[ConnKey]) -> Result<(), BeginNo>
        requires distinct { IsDistinct key_eq keys.now }
        ensures ok { OnOk result (MayBegin self.old query × (self.new ≡ begun self.old query keys.now)) }
        ensures old { (top : ℕ) → (result ≡ Err (Old top)) ↔ IsOld self.old query top }
        ensures twice { (result ≡ Err Twice) ↔ ((is_past self.old.top query ≡ false) × IsLive self.old query) }
        ensures err { OnErr result (self.new ≡ self.old) }
    {
        if let Err(no) = self.may_begin(query) {
            return Err(no);
        }
        let Ok(kept) = Keys::new(alloc, keys) else {
            return Err(BeginNo::Memory);
        };
        match self.live.insert(query, kept) {
            Ok(_) => Ok(()),
            Err(_) => Err(BeginNo::Memory),
        }
    }

    /// What the table says of a connection. At most two look-ups by hash, however many connections there are. Takes no
    /// memory.
    pub fn find(&self, key: &ConnKey) -> Find
        ensures { result ≡ found self.now key.now }
    {
        if key.session != self.session {
            return Find::Foreign;
        }
        match self.live.get(key.query) {
            Some(keys) => match keys.place(key) {
                Some(place) => Find::Here(place),
                None => Find::Foreign,
            },
            None => {
                if is_past(self.top, key.query) {
                    Find::Ended
                } else {
                    Find::NotBegun
                }
            }
        }
    }

    /// Ends a query: its connections are removed, and its number never begins again. Takes no memory. `NotLive` is the
    /// caller's doing.
    pub fn leave(&mut self, query: u32) -> Result<(), NotLive>
        ensures ok { OnOk result (IsLive self.old query × (self.new ≡ left self.old query)) }
        ensures err { OnErr result ((IsLive self.old query → ⊥) × (self.new ≡ self.old)) }
    {
        if !self.live.remove(query) {
            return Err(NotLive);
        }
        self.top = Some(raised(self.top, query));
        Ok(())
    }
}

/// Whether a query number isn't above the greatest that has ended, if any has.
fn is_past(top: Option<u32>, query: u32) -> bool
    ensures { result ≡ is_past top query }
{
    match top {
        Some(top) => query <= top,
        None => false,
    }
}

/// The greater of the two.
fn raised(top: Option<u32>, query: u32) -> u32
    ensures { result ≡ raised top query }
{
    match top {
        Some(top) => top.max(query),
        None => query,
    }
}
