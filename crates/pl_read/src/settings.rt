// Settings.
ghost use Rattle.std.specs.Prelude.{◌≡◌};
ghost use Rattle.serde_json.specs.View.{view};
ghost use Rattle.pl_read.specs.Paths.{path_of};
ghost use Rattle.pl_read.specs.Faults.{Gives};
ghost use Rattle.pl_read.specs.Settings as spec;

use crate::fault::{DocNo, Flaw};
use crate::member::{object_at, only};
use crate::place::Place;
use crate::value::{number_at, text_at};
use ic_base::{Flow, Settings};
use serde_json::Value;
use std::alloc::Global;

// The member of this name, a whole number from `least` to `greatest`, and else the default.
fn number_or(
    alloc: Global,
    place: Place<'_>,
    object: &Value,
    name: &str,
    least: u32,
    greatest: u32,
    default: u32,
) -> Result<u32, DocNo>
    ensures { Gives (λ n. n) result
        (spec.number_or least greatest default (path_of place.entry) name.now (view object.now)) }
{
    let (least, greatest) = (u64::from(least), u64::from(greatest));
    match object.get(name) {
        Some(value) => Ok(number_at(alloc, place.member(name), value, least, greatest)? as u32),
        None => Ok(default),
    }
}

fn flow_at(alloc: Global, place: Place<'_>, value: &Value) -> Result<Flow, DocNo>
    ensures { Gives (λ x. x) result (spec.flow_at (path_of place.entry) (view value.now)) }
{
    match text_at(alloc, place, value)? {
        "loss" => Ok(Flow::Loss),
        "capacity" => Ok(Flow::Capacity),
        _ => Err(place.no(alloc, Flaw::Kind)),
    }
}

fn flow_in(alloc: Global, place: Place<'_>, object: &Value) -> Result<Flow, DocNo>
    ensures { Gives (λ x. x) result (spec.flow_in (path_of place.entry) (view object.now)) }
{
    match object.get("flow") {
        Some(value) => flow_at(alloc, place.member("flow"), value),
        None => Ok(Settings::DEFAULT.flow),
    }
}

fn settings_at(alloc: Global, place: Place<'_>, value: &Value) -> Result<Settings, DocNo>
    ensures { Gives (λ x. x) result (spec.settings_at (path_of place.entry) (view value.now)) }
{
    let members = object_at(alloc, place, value)?;
    only(
        alloc,
        place,
        members,
        &["packet", "receive_depth", "send_depth", "retries", "flow"],
    )?;
    Ok(Settings {
        packet: number_or(alloc, place, value, "packet", 128, 65507, 8192)?,
        receive_depth: number_or(alloc, place, value, "receive_depth", 1, 256, 4)?,
        send_depth: number_or(alloc, place, value, "send_depth", 1, 256, 2)?,
        retries: number_or(alloc, place, value, "retries", 1, 1000, 20)?,
        flow: flow_in(alloc, place, value)?,
    })
}

/// The settings of a document, each of which has a default.
pub(crate) fn settings_in(
    alloc: Global,
    place: Place<'_>,
    document: &Value,
) -> Result<Settings, DocNo>
    ensures { Gives (λ x. x) result (spec.settings_in (path_of place.entry) (view document.now)) }
{
    match document.get("settings") {
        Some(value) => settings_at(alloc, place.member("settings"), value),
        None => Ok(Settings::DEFAULT),
    }
}
