// Numbers, texts and arrays.
ghost use Rattle.std.specs.Prelude.{◌≡◌, ◌≤◌, option_map, IfOk};
ghost use Rattle.serde_json.specs.Find.{as_array};
ghost use Rattle.serde_json.specs.View.{view, number_view, items_view};
ghost use Rattle.pl_read.specs.Paths.{path_of};
ghost use Rattle.pl_read.specs.Faults.{Gives};
ghost use Rattle.pl_read.specs.Members.{needed};
ghost use Rattle.pl_read.specs.Values as spec;

use crate::fault::{DocNo, Flaw};
use crate::member::required;
use crate::place::Place;
use serde_json::{Number, Value};
use std::alloc::Global;

/// The greatest position that a plan can name.
const LAST_POSITION: u64 = 65535;

#[tactic(auto)]
fn natural(
    alloc: Global,
    place: Place<'_>,
    number: &Number,
    least: u64,
    greatest: u64,
) -> Result<u64, DocNo>
    ensures exact { Gives (λ n. n) result (spec.natural least greatest (path_of place.entry) (number_view number.now)) }
    ensures greatest { IfOk result (λ n. n ≤ greatest) }
{
    match number.as_u64() {
        Some(n) if least <= n && n <= greatest => Ok(n),
        Some(_) => Err(place.no(alloc, Flaw::Range)),
        None => {
            if number.is_f64() {
                Err(place.no(alloc, Flaw::Kind))
            } else {
                Err(place.no(alloc, Flaw::Range))
            }
        }
    }
}

/// A whole number from `least` to `greatest`.
pub(crate) fn number_at(
    alloc: Global,
    place: Place<'_>,
    value: &Value,
    least: u64,
    greatest: u64,
) -> Result<u64, DocNo>
    ensures exact { Gives (λ n. n) result (spec.number_at least greatest (path_of place.entry) (view value.now)) }
    ensures greatest { IfOk result (λ n. n ≤ greatest) }
{
    match value.as_number() {
        Some(number) => natural(alloc, place, number, least, greatest),
        None => Err(place.no(alloc, Flaw::Kind)),
    }
}

/// A text, in place.
pub(crate) fn text_at<'v>(
    alloc: Global,
    place: Place<'_>,
    value: &'v Value,
) -> Result<&'v str, DocNo>
    ensures { Gives (λ text. text.now) result (spec.text_at (path_of place.entry) (view value.now)) }
{
    match value.as_str() {
        Some(text) => Ok(text),
        None => Err(place.no(alloc, Flaw::Kind)),
    }
}

/// The member of this name, a whole number from `least` to `greatest`.
pub(crate) fn number_in(
    alloc: Global,
    place: Place<'_>,
    object: &Value,
    name: &str,
    least: u64,
    greatest: u64,
) -> Result<u64, DocNo>
    ensures exact { Gives (λ n. n) result
        (needed (spec.number_at least greatest) (path_of place.entry) name.now (view object.now)) }
    ensures greatest { IfOk result (λ n. n ≤ greatest) }
{
    let value = required(alloc, place, object, name)?;
    number_at(alloc, place.member(name), value, least, greatest)
}

/// A position of a column.
pub(crate) fn position_at(alloc: Global, place: Place<'_>, value: &Value) -> Result<u32, DocNo>
    ensures { Gives (λ n. n) result (spec.position_at (path_of place.entry) (view value.now)) }
{
    Ok(number_at(alloc, place, value, 0, LAST_POSITION)? as u32)
}

/// The items of an array that has so many.
#[tactic(auto, using(crate::proofs::NumberLemmas::length_of_items))]
pub(crate) fn array_at<'v>(
    alloc: Global,
    place: Place<'_>,
    value: &'v Value,
    least: usize,
    greatest: usize,
) -> Result<&'v [Value], DocNo>
    ensures { Gives (λ items. items_view items.now) result
        (spec.array_at least greatest (path_of place.entry) (view value.now)) }
{
    match value.as_array() {
        Some(items) if least <= items.len() && items.len() <= greatest => Ok(items.as_slice()),
        Some(_) => Err(place.no(alloc, Flaw::Range)),
        None => Err(place.no(alloc, Flaw::Kind)),
    }
}

/// The items of an array, out of the value.
pub(crate) fn array_of(value: Value) -> Option<Vec<Value>>
    ensures { option_map (λ items. items_view items.items) result ≡ as_array (view value) }
{
    if let Value::Array(items) = value {
        Some(items)
    } else {
        None
    }
}

/// The items of an array that has so many, out of the value.
#[tactic(auto, using(crate::proofs::NumberLemmas::length_of_items))]
pub(crate) fn items_of(
    alloc: Global,
    place: Place<'_>,
    value: Value,
    least: usize,
    greatest: usize,
) -> Result<Vec<Value>, DocNo>
    ensures { Gives (λ items. items_view items.items) result
        (spec.array_at least greatest (path_of place.entry) (view value)) }
{
    match array_of(value) {
        Some(items) if least <= items.len() && items.len() <= greatest => Ok(items),
        Some(_) => Err(place.no(alloc, Flaw::Range)),
        None => Err(place.no(alloc, Flaw::Kind)),
    }
}

#[tactic(auto, using(crate::proofs::NumberLemmas::two_none))]
fn two_of<'v>(
    alloc: Global,
    place: Place<'_>,
    items: &'v [Value],
) -> Result<(&'v Value, &'v Value), DocNo>
    ensures { Gives (λ pair. (view pair.0.now, view pair.1.now)) result
        (spec.two_of (path_of place.entry) (items_view items.now)) }
{
    let [first, second] = items else {
        return Err(place.no(alloc, Flaw::Range));
    };
    Ok((first, second))
}

/// The items of an array of two.
pub(crate) fn pair_at<'v>(
    alloc: Global,
    place: Place<'_>,
    value: &'v Value,
) -> Result<(&'v Value, &'v Value), DocNo>
    ensures { Gives (λ pair. (view pair.0.now, view pair.1.now)) result
        (spec.pair_at (path_of place.entry) (view value.now)) }
{
    match value.as_array() {
        Some(items) => two_of(alloc, place, items.as_slice()),
        None => Err(place.no(alloc, Flaw::Kind)),
    }
}
