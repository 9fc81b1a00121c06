// Lists of a plan.
ghost use Rattle.std.specs.Prelude.{◌≡◌, List, Result};
ghost use Rattle.serde_json.specs.Data.{Data};
ghost use Rattle.serde_json.specs.View.{view, items_view};
ghost use Rattle.pl_read.specs.declared.fault.DocFault.{DocFault};
ghost use Rattle.pl_read.specs.Paths.{Step, path_of};
ghost use Rattle.pl_read.specs.Faults.{Gives};
ghost use Rattle.pl_read.specs.Values as values;
ghost use Rattle.pl_read.specs.Lists as spec;

use crate::fault::{DocNo, Flaw};
use crate::member::required;
use crate::place::Place;
use crate::value::{array_at, pair_at, position_at, text_at};
use ic_row::Key;
use pl_tree::{Call, Pair};
use serde_json::Value;
use sqlite_items::Items;
use std::alloc::Global;

/// The most elements of a list.
const LONGEST_LIST: usize = 1024;

/// What a list of a plan is made of.
pub(crate) trait Element: Drop {
    /// What a value reads as that stands after these steps.
    ghost reading: { List Step → Data → Result Self DocFault };

    fn element_at(alloc: Global, place: Place<'_>, value: &Value) -> Result<Self, DocNo>
        ensures { Gives (λ x. x) result (reading (path_of place.entry) (view value.now)) };
}

/// An array of so many elements, each read at its place.
pub(crate) fn list_at<T: Element>(
    alloc: Global,
    place: Place<'_>,
    value: &Value,
    least: usize,
    greatest: usize,
) -> Result<Items<T>, DocNo>
    ensures { Gives (λ x. x) result (values.list_at T.reading least greatest (path_of place.entry) (view value.now)) }
{
    let values = array_at(alloc, place, value, least, greatest)?;
    let mut elements = Items::new(alloc);
    for (at, value) in values.iter().enumerate() {
        elements.push(T::element_at(alloc, place.item(at), value)?)?;
    }
    Ok(elements)
}

/// The list of this name, of `least` to 1024 elements.
pub(crate) fn list_in<T: Element>(
    alloc: Global,
    place: Place<'_>,
    object: &Value,
    name: &str,
    least: usize,
) -> Result<Items<T>, DocNo>
    ensures { Gives (λ x. x) result (spec.list_in T.reading least (path_of place.entry) name.now (view object.now)) }
{
    let value = required(alloc, place, object, name)?;
    list_at(alloc, place.member(name), value, least, LONGEST_LIST)
}

/// The list of this name, if there is one.
pub(crate) fn list_if_there<T: Element>(
    alloc: Global,
    place: Place<'_>,
    object: &Value,
    name: &str,
    least: usize,
) -> Result<Option<Items<T>>, DocNo>
    ensures { Gives (λ x. x) result
        (spec.list_if_there T.reading least (path_of place.entry) name.now (view object.now)) }
{
    match object.get(name) {
        Some(value) => Ok(Some(list_at(alloc, place.member(name), value, least, LONGEST_LIST)?)),
        None => Ok(None),
    }
}

/// The position of a column.
impl Element for u32 {
    ghost reading = { values.position_at };

    fn element_at(alloc: Global, place: Place<'_>, value: &Value) -> Result<u32, DocNo> {
        position_at(alloc, place, value)
    }
}

fn direction_at(alloc: Global, place: Place<'_>, value: &Value) -> Result<bool, DocNo>
    ensures { Gives (λ x. x) result (spec.direction_at (path_of place.entry) (view value.now)) }
{
    match text_at(alloc, place, value)? {
        "asc" => Ok(false),
        "desc" => Ok(true),
        _ => Err(place.no(alloc, Flaw::Kind)),
    }
}

/// `[position, "asc"]` or `[position, "desc"]`.
impl Element for Key {
    ghost reading = { spec.key_at };

    fn element_at(alloc: Global, place: Place<'_>, value: &Value) -> Result<Key, DocNo> {
        let (column, direction) = pair_at(alloc, place, value)?;
        Ok(Key {
            column: position_at(alloc, place.item(0), column)?,
            down: direction_at(alloc, place.item(1), direction)?,
        })
    }
}

/// `[left position, right position]`.
impl Element for Pair {
    ghost reading = { spec.columns_at };

    fn element_at(alloc: Global, place: Place<'_>, value: &Value) -> Result<Pair, DocNo> {
        let (left, right) = pair_at(alloc, place, value)?;
        Ok(Pair {
            left: position_at(alloc, place.item(0), left)?,
            right: position_at(alloc, place.item(1), right)?,
        })
    }
}

/// The word in front of a call.
#[derive(Clone, Copy, Debug, PartialEq, Eq)]
pub(crate) enum Function {
    Count,
    Sum,
    Min,
    Max,
}

fn function_at(alloc: Global, place: Place<'_>, value: &Value) -> Result<Function, DocNo>
    ensures { Gives (λ x. x) result (spec.function_at (path_of place.entry) (view value.now)) }
{
    match text_at(alloc, place, value)? {
        "count" => Ok(Function::Count),
        "sum" => Ok(Function::Sum),
        "min" => Ok(Function::Min),
        "max" => Ok(Function::Max),
        _ => Err(place.no(alloc, Flaw::Kind)),
    }
}

fn call_of(function: Function, column: u32) -> Call
    ensures { result ≡ spec.call_of function column }
{
    match function {
        Function::Count => Call::CountOf(column),
        Function::Sum => Call::Sum(column),
        Function::Min => Call::Min(column),
        Function::Max => Call::Max(column),
    }
}

fn bare_at(alloc: Global, place: Place<'_>, function: Function) -> Result<Call, DocNo>
    ensures { Gives (λ x. x) result (spec.bare_at function (path_of place.entry)) }
{
    match function {
        Function::Count => Ok(Call::Count),
        Function::Sum | Function::Min | Function::Max => Err(place.no(alloc, Flaw::Range)),
    }
}

// The call of a function whose column, if any, stands after its word.
#[tactic(auto, using(crate::proofs::ListLemmas::called_long))]
fn called_at(
    alloc: Global,
    place: Place<'_>,
    function: Function,
    columns: &[Value],
) -> Result<Call, DocNo>
    ensures { Gives (λ x. x) result (spec.called_at function (path_of place.entry) (items_view columns.now)) }
{
    match columns {
        [] => bare_at(alloc, place, function),
        [column] => Ok(call_of(function, position_at(alloc, place.item(1), column)?)),
        _ => Err(place.no(alloc, Flaw::Range)),
    }
}

/// `["count"]`, or `[word, position]`.
impl Element for Call {
    ghost reading = { spec.call_at };

    fn element_at(alloc: Global, place: Place<'_>, value: &Value) -> Result<Call, DocNo> {
        let Some(items) = value.as_array() else {
            return Err(place.no(alloc, Flaw::Kind));
        };
        let Some((word, columns)) = items.as_slice().split_first() else {
            return Err(place.no(alloc, Flaw::Range));
        };
        let function = function_at(alloc, place.item(0), word)?;
        called_at(alloc, place, function, columns)
    }
}
