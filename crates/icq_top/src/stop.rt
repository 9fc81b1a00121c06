// Why the program stops before a run, why a run ends before its last query, and the lines that say so.
ghost use Rattle.std.specs.Prelude.{◌≡◌, ◌≢◌, ◌++◌, OnOk, string_bytes};
ghost use Rattle.icq_top.specs.Stops.{status_of_stop, status_of_fault, unread_text, unsound_text, measure_text, key_text, unfinished_text, tries_text};

use gd_sim::FirstNo;
use ic_base::ConnKey;
use pl_plan::{PlanFault, Rule};
use pl_read::DocFault;
use std::alloc::AllocError;

/// Why there is no run.
#[derive(Drop, Debug)]
pub enum Stop {
    /// The caller: the words are none of the command's.
    Usage,
    /// The source failed.
    ReadFault,
    /// The source: it gives more bytes than the limit.
    TooLong,
    /// Who wrote the document: this is the first thing that is wrong with it.
    Unread(DocFault),
    /// Who wrote the document: the plan of this query, from 1, breaks a rule.
    Unsound { query: u32, fault: PlanFault },
    /// The document: a plan of its asks for more than this program runs yet.
    NotBuilt,
    /// Out of memory.
    Memory,
}

impl From<AllocError> for Stop {
    ghost use Rattle.std.specs.Prelude.{◌≡◌};
    ghost use Rattle.icq_top.specs.declared.stop.Stop.TheVariants.{Memory};

    ghost from_gives = { λ _ e. e ≡ Memory };

    fn from(_: AllocError) -> Self {
        Stop::Memory
    }
}

impl Stop {
    /// The exit status.
    pub fn status(&self) -> u8
        ensures status { result ≡ status_of_stop self.now }
        ensures no_write_fault { result ≢ 5 }
    {
        match self {
            Stop::Usage => 1,
            Stop::ReadFault => 4,
            Stop::TooLong => 11,
            Stop::Unread(_) => 2,
            Stop::Unsound { .. } => 3,
            Stop::NotBuilt => 15,
            Stop::Memory => 10,
        }
    }
}

/// The exit status if a run ends with a fault.
pub(crate) fn fault_status(fault: &FirstNo) -> u8
    ensures { result ≡ status_of_fault fault.now }
{
    match fault {
        FirstNo::Unfinished(_) => 9,
        FirstNo::Spent { .. } => 8,
        FirstNo::TooLong(_) => 12,
    }
}

// ---- parts of lines

#[tactic(auto, unfolding(crate::specs::Stops::unread_text))]
pub(crate) fn push_unread(line: &mut String, fault: &DocFault) -> Result<(), AllocError>
    ensures { OnOk result (string_bytes line.new ≡ string_bytes line.old ++ unread_text fault.now) }
{
    let code = fault.code;
    let path = fault.path.as_str();
    write!(line, "{code} path {path}\n")
}

#[tactic(auto, unfolding(crate::specs::Stops::unsound_text))]
pub(crate) fn push_unsound(
    line: &mut String,
    query: u32,
    fault: &PlanFault,
) -> Result<(), AllocError>
    ensures { OnOk result (string_bytes line.new ≡ string_bytes line.old ++ unsound_text query fault.now) }
{
    let node = fault.node;
    let rule = fault.rule.number();
    write!(line, "{query} node {node} rule {rule}")
}

pub(crate) fn push_measure(line: &mut String, rule: Rule) -> Result<(), AllocError>
    ensures { OnOk result (string_bytes line.new ≡ string_bytes line.old ++ measure_text rule) }
{
    match rule {
        Rule::TooWide(bytes) => write!(line, " bytes {bytes}"),
        Rule::TooMany(workers) => write!(line, " workers {workers}"),
        _ => Ok(()),
    }
}

#[tactic(auto, unfolding(crate::specs::Stops::key_text))]
pub(crate) fn push_key(line: &mut String, key: &ConnKey) -> Result<(), AllocError>
    ensures { OnOk result (string_bytes line.new ≡ string_bytes line.old ++ key_text key.now) }
{
    let query = key.query;
    let motion = key.motion;
    let from = key.from.number();
    let to = key.to.number();
    write!(line, " query {query} motion {motion} from {from} to {to}")
}

#[tactic(auto, unfolding(crate::specs::Stops::unfinished_text))]
pub(crate) fn push_unfinished(
    line: &mut String,
    query: usize,
    rounds: u64,
) -> Result<(), AllocError>
    ensures { OnOk result (string_bytes line.new ≡ string_bytes line.old ++ unfinished_text query rounds) }
{
    write!(line, "{query} rounds {rounds}\n")
}

#[tactic(auto, unfolding(crate::specs::Stops::tries_text))]
pub(crate) fn push_tries(line: &mut String, seq: u32, tries: u32) -> Result<(), AllocError>
    ensures { OnOk result (string_bytes line.new ≡ string_bytes line.old ++ tries_text seq tries) }
{
    write!(line, " seq {seq} tries {tries}\n")
}
