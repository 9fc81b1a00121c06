// The order in which a node delivers its rows.
ghost use Rattle.std.specs.Prelude.{◌≡◌, ◌<◌, ◌^◌, length, IfOk};
ghost use Rattle.pl_tree.specs.Orders as spec;

use crate::loci::place_of;
use crate::node::Keys;
use ic_row::Key;
use sqlite_items::Items;
use std::alloc::{AllocError, Global};

/// The order of rows once these columns of theirs are all that is left: the longest prefix of the keys whose columns
/// are kept, at their first places.
pub fn kept_order(alloc: Global, columns: &[u32], keys: &[Key]) -> Result<Keys, AllocError>
    requires { length columns.now < 2 ^ 32 }
    ensures { IfOk result (λ x. x ≡ spec.kept_order columns.now keys.now) }
{
    let mut kept = Items::new(alloc);
    for key in keys {
        match place_of(key.column, columns) {
            Some(column) => kept.push(Key {
                column,
                down: key.down,
            })?,
            None => return Ok(kept),
        }
    }
    Ok(kept)
}
