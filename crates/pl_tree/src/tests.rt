use super::*;
use ic_base::Text;
use ic_row::{Key, Kind};
use sqlite_items::Items;
use std::alloc::{AllocError, Global};
use std::test::*;

fn text(alloc: Global, words: &str) -> Result<Text, AllocError> {
    Ok(Text::from_string(String::from_str(alloc, words)?))
}

fn is_hashed(locus: &Locus, wanted: &[u32]) -> bool {
    match locus {
        Locus::Hashed(columns) => columns.as_slice() == wanted,
        _ => false,
    }
}

#[test]
fn columns_move_to_their_first_places(rt: HostRuntime) -> Result<(), Fail> {
    let both = hashed(rt.alloc(), &[2, 0])?;
    let moved = moved_to(rt.alloc(), &[0, 2, 0, 2], &both)?;
    assert!(rt; is_hashed(&moved, &[1, 0]));
    Ok(())
}

#[test]
fn the_right_key_of_a_join_moves_after_the_left_columns(rt: HostRuntime) -> Result<(), Fail> {
    let right = hashed(rt.alloc(), &[1])?;
    let moved = joined_locus(rt.alloc(), 2, &Locus::Replicated, &right)?;
    assert!(rt; is_hashed(&moved, &[3]));
    Ok(())
}

#[test]
fn an_order_ends_at_the_first_dropped_key(rt: HostRuntime) -> Result<(), Fail> {
    let keys = [2, 0, 1].map(|column| Key {
        column,
        down: column == 0,
    });
    let kept = kept_order(rt.alloc(), &[0, 2], &keys)?;
    let wanted = [
        Key {
            column: 1,
            down: false,
        },
        Key {
            column: 0,
            down: true,
        },
    ];
    assert_eq!(rt; kept.as_slice(), wanted.as_slice());
    Ok(())
}

#[test]
fn an_aggregate_gives_its_group_and_its_calls(rt: HostRuntime) -> Result<(), Fail> {
    let kinds = [Kind::Int, Kind::Chars];
    let calls = [
        Call::Count,
        Call::CountOf(1),
        Call::Sum(0),
        Call::Min(1),
        Call::Max(0),
    ];
    let given = aggregate_kinds(rt.alloc(), &kinds, &[1], &calls)?;
    let wanted = [
        Kind::Chars,
        Kind::Int,
        Kind::Int,
        Kind::Wide,
        Kind::Chars,
        Kind::Int,
    ];
    assert_eq!(rt; given.as_slice(), wanted.as_slice());
    Ok(())
}

/// A table of one int, which is its key.
fn table(alloc: Global, name: &str) -> Result<Schema, AllocError> {
    Ok(Schema {
        name: text(alloc, name)?,
        kinds: copy_kinds(alloc, &[Kind::Int])?,
        place: Placing::Keyed(Items::from_slice(alloc, &[0])?),
    })
}

#[test]
fn a_copied_table_is_placed_by_its_key(rt: HostRuntime) -> Result<(), Fail> {
    let table = table(rt.alloc(), "t")?;
    let copies = copy_schemas(rt.alloc(), &[table])?;
    let found = schema_named(&text(rt.alloc(), "t")?, copies.as_slice()).ok_or("t")?;
    let locus = placed(rt.alloc(), &found.place)?.copy(rt.alloc())?;
    assert!(rt; is_hashed(&locus, &[0]));
    Ok(())
}
