// The rules of plans.
ghost use Rattle.std.specs.Prelude.{◌≡◌};
ghost use Rattle.pl_plan.specs.Rules.{rule_number};
ghost use Rattle.pl_plan.specs.declared.rule.PlanNo.TheVariants.{Memory};

use std::alloc::{AllocError, AllocFailed};

/// What a node of a plan breaks. The plan's writer did it.
#[derive(Clone, Copy, Debug, PartialEq, Eq)]
pub enum Rule {
    /// 1: a scan names no table.
    UnknownTable,
    /// 2: a position isn't below the child's number of columns.
    Column,
    /// 3: a comparison's or a pair's kinds differ, or a sum's column isn't int.
    ColumnKind,
    /// 4: the rows of a join's sides aren't at the segments at which their pairs meet.
    JoinLocus,
    /// 5: the rows of one group can stand at two places.
    AggLocus,
    /// 6: a limit stops before the answer is whole.
    LimitLocus,
    /// 7: a gather's order isn't the front of the order in which its child delivers.
    OrderMissing,
    /// 8: a motion stands over the dispatcher's rows.
    MotionAboveEntry,
    /// 9: a final has no partial under it, or a partial no final over it.
    PartialUnmatched,
    /// 10: the root's rows don't stand at the dispatcher.
    NotAtEntry,
    /// 11: the rings of all connections may hold so many bytes, more than 2147483648.
    TooWide(u64),
    /// 12: the query has so many workers, more than 1024.
    TooMany(u64),
}

impl Rule {
    /// Its number, 1..=12.
    pub fn number(self) -> u32
        ensures { result ≡ rule_number self }
    {
        match self {
            Rule::UnknownTable => 1,
            Rule::Column => 2,
            Rule::ColumnKind => 3,
            Rule::JoinLocus => 4,
            Rule::AggLocus => 5,
            Rule::LimitLocus => 6,
            Rule::OrderMissing => 7,
            Rule::MotionAboveEntry => 8,
            Rule::PartialUnmatched => 9,
            Rule::NotAtEntry => 10,
            Rule::TooWide(_) => 11,
            Rule::TooMany(_) => 12,
        }
    }
}

/// The first node in postorder that breaks a rule, and the least rule that it breaks.
#[derive(Clone, Copy, Debug, PartialEq, Eq)]
pub struct PlanFault {
    /// Its number in preorder, from 0, left before right.
    pub node: u32,
    pub rule: Rule,
}

/// Why a plan wasn't taken.
#[derive(Clone, Copy, Debug, PartialEq, Eq)]
pub enum PlanNo {
    /// The plan's writer: the plan isn't sound.
    Fault(PlanFault),
    /// This side: no memory was left for what is kept beside the plan.
    Memory,
}

impl From<AllocError> for PlanNo {
    ghost from_gives = { λ _ e. e ≡ Memory };

    fn from(_e: AllocError) -> PlanNo {
        PlanNo::Memory
    }
}

impl<T: Drop> From<AllocFailed<T>> for PlanNo {
    ghost from_gives = { λ _ e. e ≡ Memory };

    fn from(_e: AllocFailed<T>) -> PlanNo {
        PlanNo::Memory
    }
}
