// The text of one line.
ghost use Rattle.std.specs.Prelude.{◌≡◌, ◌++◌, ℕ, List, [], OnOk, string_bytes, codes};
ghost use Rattle.serde_json.specs.Data.{string};
ghost use Rattle.serde_json.specs.Written.{compact_text};
ghost use Rattle.icq_top.specs.Stops.{error_text, fault_text};
ghost use Rattle.icq_top.specs.Text.{row_text, value_text, tally_ends, tally_counts, tally_text, end_text};

use crate::stop::{
    Stop, push_key, push_measure, push_tries, push_unfinished, push_unread, push_unsound,
};
use gd_sim::{FirstNo, Tally};
use ic_row::{Row, Value};
use serde_json::Value as Json;
use std::alloc::AllocError;

/// What has a line of its own.
pub trait Line {
    /// The line, with its line feed.
    ghost text: { Self → List ℕ };

    /// Puts the line at the end of an empty text.
    fn push_line(&self, line: &mut String) -> Result<(), AllocError>
        requires { string_bytes line.old ≡ [] }
        ensures { OnOk result (string_bytes line.new ≡ text self.now) };
}

impl Line for Row {
    ghost text = { row_text };

    fn push_line(&self, line: &mut String) -> Result<(), AllocError> {
        push_row(line, self.as_slice())
    }
}

impl Line for Tally {
    ghost text = { tally_text };

    fn push_line(&self, line: &mut String) -> Result<(), AllocError> {
        push_ends(line, self)?;
        push_counts(line, self)?;
        line.push_str(end_name(self.whole))?;
        line.push_str("\n")
    }
}

impl Line for Stop {
    ghost text = { error_text };

    fn push_line(&self, line: &mut String) -> Result<(), AllocError> {
        match self {
            Stop::Usage => line.push_str("error 1 usage\n"),
            Stop::ReadFault => line.push_str("error 4 read\n"),
            Stop::TooLong => line.push_str("error 11 input too long\n"),
            Stop::Unread(fault) => {
                line.push_str("error 2 document code ")?;
                push_unread(line, fault)
            }
            Stop::Unsound { query, fault } => {
                line.push_str("error 3 plan query ")?;
                push_unsound(line, *query, fault)?;
                push_measure(line, fault.rule)?;
                line.push_str("\n")
            }
            Stop::NotBuilt => line.push_str("error 15 not built\n"),
            Stop::Memory => line.push_str("error 10 memory\n"),
        }
    }
}

/// Why the query of this number, from 1, isn't over.
#[derive(Clone, Copy)]
pub(crate) struct Broken {
    pub query: usize,
    pub fault: FirstNo,
}

impl Line for Broken {
    ghost text = { λ b. fault_text b.query b.fault };

    fn push_line(&self, line: &mut String) -> Result<(), AllocError> {
        match &self.fault {
            FirstNo::Unfinished(rounds) => {
                line.push_str("error 9 unfinished query ")?;
                push_unfinished(line, self.query, *rounds)
            }
            FirstNo::Spent { key, seq, tries } => {
                line.push_str("error 8 spent")?;
                push_key(line, key)?;
                push_tries(line, *seq, *tries)
            }
            FirstNo::TooLong(key) => {
                line.push_str("error 12 stream too long")?;
                push_key(line, key)?;
                line.push_str("\n")
            }
        }
    }
}

fn push_row(line: &mut String, row: &[Value]) -> Result<(), AllocError>
    requires { string_bytes line.old ≡ [] }
    ensures { OnOk result (string_bytes line.new ≡ row_text row.now) }
{
    let Some((first, rest)) = row.split_first() else {
        return line.push_str("[]\n");
    };
    line.push_str("[")?;
    push_value(line, first)?;
    for value in rest {
        line.push_str(",")?;
        push_value(line, value)?;
    }
    line.push_str("]\n")
}

fn push_value(line: &mut String, value: &Value) -> Result<(), AllocError>
    ensures { OnOk result (string_bytes line.new ≡ string_bytes line.old ++ value_text value.now) }
{
    match value {
        Value::Null => line.push_str("null"),
        Value::Int(n) => write!(line, "{n}"),
        Value::Wide(n) => write!(line, "{n}"),
        Value::Chars(text) => push_text(line, text.as_str()),
    }
}

// Takes memory for the text and for its JSON, and gives both back.
fn push_text(line: &mut String, text: &str) -> Result<(), AllocError>
    ensures { OnOk result (string_bytes line.new ≡ string_bytes line.old ++ compact_text (string text.now)) }
{
    let alloc = *line.allocator();
    let quoted = Json::String(String::from_str(alloc, text)?).to_string(alloc)?;
    line.push_str(quoted.as_str())
}

fn end_name(whole: bool) -> &'static str
    ensures { result.now ≡ end_text whole }
{
    if whole { "whole" } else { "stopped" }
}

#[tactic(auto, unfolding(crate::specs::Text::tally_ends))]
fn push_ends(line: &mut String, tally: &Tally) -> Result<(), AllocError>
    ensures { OnOk result (string_bytes line.new ≡ string_bytes line.old ++ tally_ends tally.now) }
{
    let query = tally.key.query;
    let motion = tally.key.motion;
    let from = tally.key.from.number();
    let to = tally.key.to.number();
    write!(line, "# {query} {motion} {from} {to}")
}

#[tactic(auto, unfolding(crate::specs::Text::tally_counts))]
fn push_counts(line: &mut String, tally: &Tally) -> Result<(), AllocError>
    ensures { OnOk result (string_bytes line.new ≡ string_bytes line.old ++ tally_counts tally.now) }
{
    let sent = tally.sent;
    let taken = tally.taken;
    let packets = tally.packets;
    let resent = tally.resent;
    write!(line, " {sent} {taken} {packets} {resent} ")
}
