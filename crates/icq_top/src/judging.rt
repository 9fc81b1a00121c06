// A document's plans, judged in order.
ghost use Rattle.std.specs.Prelude.{◌≡◌, ◌≤◌, length, map, IfOk};
ghost use Rattle.std.specs.List.{AllByRecursion};
ghost use Rattle.ic_base.specs.Settings.{AreChecked};
ghost use Rattle.pl_tree.specs.Trees.{tree_in};
ghost use Rattle.pl_tree.specs.Sizes.{IsPlan, AreTables};
ghost use Rattle.pl_plan.specs.Kept.{given_with};
ghost use Rattle.icq_top.specs.Judging.{FaultsAreFirst};
ghost use Rattle.icq_top.specs.Work.{JudgesAll};

use crate::stop::Stop;
use gd_sim::SoundPlans;
use ic_base::Settings;
use pl_plan::{PlanNo, Schemas, checked};
use pl_read::{Plans, Table};
use sqlite_items::Items;
use std::alloc::{AllocError, Global};

/// The first fault of a plan, as a function of the plan, is what judging it names; if there is none the plan is sound.
pub fn faults_are_first()
    ensures { FaultsAreFirst }
{}

/// The tables as plans see them.
pub(crate) fn schemas_of(alloc: Global, tables: &[Table]) -> Result<Schemas, AllocError>
    ensures { IfOk result (λ schemas. schemas ≡ map (λ table. table.schema) tables.now) }
{
    let mut schemas = Items::new(alloc);
    for table in tables {
        schemas.push(table.schema.copy(alloc)?)?;
    }
    Ok(schemas)
}

/// The plans as sound ones, or the first one that isn't, by its number from 1.
pub(crate) fn judged(
    alloc: Global,
    queries: Plans,
    schemas: &Schemas,
    segments: u32,
    settings: &Settings,
) -> Result<SoundPlans, Stop>
    requires count { length queries ≤ 64 }
    requires plans { AllByRecursion (λ plan. IsPlan (tree_in plan)) queries }
    requires tables { AreTables schemas.now }
    requires least_segments { 1 ≤ segments }
    requires most_segments { segments ≤ 64 }
    requires settings { AreChecked settings.now }
    ensures { JudgesAll (given_with schemas.now segments settings.now) queries result }
{
    let mut left = queries;
    let mut plans = SoundPlans::new(alloc);
    let mut query = 0;
    while !left.is_empty() {
        query += 1;
        let plan = left.remove(0);
        match checked(alloc, plan, schemas, segments, settings) {
            Ok(plan) => plans.push(plan)?,
            Err(PlanNo::Fault(fault)) => return Err(Stop::Unsound { query, fault }),
            Err(PlanNo::Memory) => return Err(Stop::Memory),
        }
    }
    Ok(plans)
}
