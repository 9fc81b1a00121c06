// Laws of trees, each carried by a function that has nothing to run.
ghost use Rattle.std.specs.Prelude.{ℕ, List};
ghost use Rattle.pl_tree.specs.Trees.{Tree as PlanTree};
ghost use Rattle.pl_mean.specs.Parts.{Site};
ghost use Rattle.pl_runs.specs.Steps.{Step};
ghost use Rattle.pl_ops.specs.Rows.{Line};
ghost use Rattle.ex_tree.specs.Parts.{Part};
ghost use Rattle.ex_tree.specs.Running.{State, Runs};
ghost use Rattle.ex_tree.specs.Plans.{Place, IsOfPlan, StandsBy};

/// Does nothing. Its clause: the part of a plan's node gives what the node gives, and wants what it wants.
pub fn parts_are_of_plans()
    ensures { (s : Site) (p : Place) (steps : List Step) (i n : ℕ) (t : PlanTree) → IsOfPlan s p i n t steps }
{}

/// Does nothing. Its clause: what a tree gave is a front of what its part gives, and a step of other motions leaves both as
/// they are.
pub fn trees_stand_by()
    ensures { (part : Part) (st : State) (steps : List Step) (given : List Line) → Runs part st steps given → StandsBy part st steps given }
{}
