// The live queries.
ghost use Rattle.std.specs.Prelude.{◌≡◌, false, is_some, OnOk, OnErr, option_copied};
ghost use Rattle.std.specs.FinMap as map;

use crate::keys::Keys;
use std::alloc::{AllocError, Global};
use std::collections::HashMap;
use std::marker::Model;

/// How many queries a new table has room for. A session runs few at a time; room for more is taken as they begin.
const QUERIES: usize = 4;

/// The connections of each live query, seen as a map from the query's number to their list.
#[derive(Drop)]
pub struct Live {
    queries: HashMap<u32, Keys>,
}

impl Model for Live {
    ghost use Rattle.std.specs.Prelude.{List};
    ghost use Rattle.std.specs.Ordering.{nat_cmp};
    ghost use Rattle.std.specs.FinMap as map;
    ghost use Rattle.ic_base.specs.declared.keys.ConnKey.{ConnKey};
    ghost use Rattle.ic_conntab.specs.Codes.{live_code};

    ghost Value = { map.FinMap nat_cmp (List ConnKey) };

    ghost coded = { live_code };

    ghost view = { λ l. map.from_entries l.queries.entries };
}

impl Live {
    ghost use Rattle.std.specs.Prelude.{IfOk};

    /// No query.
    pub fn new(alloc: Global) -> Result<Live, AllocError>
        ensures { IfOk result (λ l. l ≡ map.empty) }
    {
        Ok(Live {
            queries: HashMap::with_capacity(alloc, QUERIES)?,
        })
    }

    /// The connections of a query, if it is live.
    pub fn get(&self, query: u32) -> Option<&Keys>
        ensures { option_copied result ≡ map.get self.now query }
    {
        self.queries.get(&query)
    }

    /// Adds a query with its connections.
    pub fn insert(&mut self, query: u32, keys: Keys) -> Result<(), AllocError>
        ensures ok { OnOk result (self.new ≡ map.insert self.old query keys) }
        ensures err { OnErr result (self.new ≡ self.old) }
    {
        self.queries.insert(query, keys)?;
        Ok(())
    }

    /// Removes a query, and says whether it was there.
    pub fn remove(&mut self, query: u32) -> bool
        ensures was { result ≡ is_some (map.get self.old query) }
        ensures left { self.new ≡ map.remove self.old query }
        ensures kept { result ≡ false → self.new ≡ self.old }
    {
        self.queries.remove(&query).is_some()
    }
}
