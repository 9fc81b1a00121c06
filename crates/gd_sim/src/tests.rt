// How many rounds a query takes, which no clause says.
ghost use Rattle.std.specs.Prelude.{◌≡◌, [], ◌∷◌, IfOk};
ghost use Rattle.std.specs.List.{AllByRecursion};
ghost use Rattle.ic_base.specs.Settings.{AreChecked};
ghost use Rattle.gd_sim.specs.Feeding.{IsFeed};

use crate::{Feed, FirstNo, FirstRun, run_feeds};
use ic_base::{Drops, Settings};
use ic_row::{Row, Rows, Value};
use pl_ops::{Loaded, Spread};
use sqlite_items::Items;
use std::alloc::{AllocError, Global};
use std::test::*;

/// One table with one row, which stands everywhere.
fn one_row(alloc: Global) -> Result<Loaded, AllocError>
    ensures { IfOk result (λ loaded. AllByRecursion (IsFeed 1 loaded) (record { table = 0; senders = 1 } ∷ [])) }
{
    let row = Row::from_vec(vec![in alloc; Value::Int(10)]?);
    let rows = Rows::from_vec(vec![in alloc; row]?);
    let mut tables = Items::new(alloc);
    tables.push(Spread::Everywhere(rows))?;
    Ok(Loaded::from_tables(tables))
}

/// The row gathered from one segment, in so many rounds at most.
fn gathered(alloc: Global, drops: &[u32], rounds: u64) -> Result<FirstRun, AllocError> {
    let loaded = one_row(alloc)?;
    let feeds = [Feed {
        table: 0,
        senders: 1,
    }];
    let drops = Drops::from_vec(Vec::from_slice(alloc, drops)?);
    run_feeds(
        alloc,
        7,
        &feeds,
        &loaded,
        Settings::default(),
        1,
        &drops,
        rounds,
    )
}

#[test]
fn a_query_is_given_up_behind_the_last_round(rt: HostRuntime) -> Result<(), Fail> {
    let run = gathered(rt.alloc(), &[], 1)?;
    assert_eq!(rt; run.fault, Some(FirstNo::Unfinished(1)));
    assert!(rt; run.rows.as_slice().is_empty());
    let run = gathered(rt.alloc(), &[], 2)?;
    assert_eq!(rt; run.fault, None);
    assert_eq!(rt; run.rows.as_slice().len(), 1);
    Ok(())
}
