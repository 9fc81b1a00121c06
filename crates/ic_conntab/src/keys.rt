// The connections of one query, found by their keys.
ghost use Rattle.std.specs.Prelude.{◌≡◌, List, position, IfOk};
ghost use Rattle.std.specs.List.{IsDistinct};
ghost use Rattle.ic_base.specs.Keys.{key_eq};

use ic_base::ConnKey;
use indexmap::IndexSet;
use std::alloc::{AllocError, Global};
use std::marker::Model;

/// Connections in the order in which they were given, seen as their list.
#[derive(Drop)]
pub struct Keys {
    keys: IndexSet<ConnKey>,
}

impl Model for Keys {
    ghost use Rattle.std.specs.Prelude.{List};
    ghost use Rattle.ic_base.specs.declared.keys.ConnKey.{ConnKey};

    ghost Value = { List ConnKey };

    ghost view = { λ p. p.keys.keys };
}

impl Keys {
    /// Copies each key once. Fails only if out of memory.
    pub fn new(alloc: Global, keys: &[ConnKey]) -> Result<Keys, AllocError>
        requires distinct { IsDistinct key_eq keys.now }
        ensures { IfOk result (λ p. p ≡ keys.now) }
    {
        let mut all = IndexSet::with_capacity(alloc, keys.len())?;
        all.extend(keys)?;
        Ok(Keys { keys: all })
    }

    /// The position of a key, from 0, or `None`. One look-up by hash.
    pub fn place(&self, key: &ConnKey) -> Option<usize>
        ensures { result ≡ position (key_eq key.now) self.now }
    {
        self.keys.get_index_of(key)
    }
}
