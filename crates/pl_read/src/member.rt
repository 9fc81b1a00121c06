// Objects and their members.
ghost use Rattle.std.specs.Prelude.{◌≡◌, ◌<◌, map, option_map, IfOk};
ghost use Rattle.std.specs.List.{list_any};
ghost use Rattle.std.specs.Str.{bytes_eq};
ghost use Rattle.serde_json.specs.Data.{depth};
ghost use Rattle.serde_json.specs.Find.{get_member};
ghost use Rattle.serde_json.specs.View.{view, members_view};
ghost use Rattle.pl_read.specs.Paths.{path_of};
ghost use Rattle.pl_read.specs.Faults.{Gives};
ghost use Rattle.pl_read.specs.Members.{is_among, object_at, only, required};

use crate::fault::{DocNo, Flaw};
use crate::place::Place;
use serde_json::{Map, Value};
use std::alloc::Global;

/// The members of an object.
pub(crate) fn object_at<'v>(
    alloc: Global,
    place: Place<'_>,
    value: &'v Value,
) -> Result<&'v Map<String, Value>, DocNo>
    ensures { Gives (λ members. members_view members.now.entries) result
        (object_at (path_of place.entry) (view value.now)) }
{
    match value.as_object() {
        Some(members) => Ok(members),
        None => Err(place.no(alloc, Flaw::Kind)),
    }
}

fn is_one_of(name: &str, names: &[&str]) -> bool
    ensures { result ≡ list_any (λ known. bytes_eq known.now name.now) names.now }
{
    names.iter().any(|known| *known == name)
}

/// Whether the name is one of the names.
#[tactic(auto, using(crate::proofs::NameLemmas::among_views))]
pub(crate) fn is_among(name: &str, names: &[&str]) -> bool
    ensures { result ≡ is_among name.now (map (λ known. known.now) names.now) }
{
    is_one_of(name, names)
}

/// Refuses a member that has none of these names.
pub(crate) fn only(
    alloc: Global,
    place: Place<'_>,
    members: &Map<String, Value>,
    names: &[&str],
) -> Result<(), DocNo>
    ensures { Gives (λ _. tt) result
        (only (path_of place.entry) (map (λ name. name.now) names.now) (members_view members.now.entries)) }
{
    for (name, _) in members.iter() {
        if !is_among(name.as_str(), names) {
            return Err(place.member(name.as_str()).no(alloc, Flaw::Unknown));
        }
    }
    Ok(())
}

/// The member of this name.
#[tactic(auto, using(crate::proofs::DepthLemmas::get_is_shallower))]
pub(crate) fn required<'v>(
    alloc: Global,
    place: Place<'_>,
    object: &'v Value,
    name: &str,
) -> Result<&'v Value, DocNo>
    ensures exact { Gives (λ value. view value.now) result (required (path_of place.entry) name.now (view object.now)) }
    // It nests less deep than the object.
    ensures shallower { IfOk result (λ value. depth (view value.now) < depth (view object.now)) }
{
    match object.get(name) {
        Some(value) => Ok(value),
        None => Err(place.member(name).no(alloc, Flaw::Missing)),
    }
}

fn removed(members: Map<String, Value>, name: &str) -> Option<Value>
    ensures { option_map view result ≡ get_member name.now (members_view members.entries) }
{
    let mut members = members;
    members.remove(name)
}

/// The member of this name out of the object, whose other members are freed.
pub(crate) fn taken(
    alloc: Global,
    place: Place<'_>,
    object: Value,
    name: &str,
) -> Result<Value, DocNo>
    ensures { Gives view result (required (path_of place.entry) name.now (view object)) }
{
    let Value::Object(members) = object else {
        return Err(place.member(name).no(alloc, Flaw::Missing));
    };
    match removed(members, name) {
        Some(value) => Ok(value),
        None => Err(place.member(name).no(alloc, Flaw::Missing)),
    }
}
