ghost use Rattle.std.specs.Prelude.{◌≡◌, ◌<◌, ◌*◌, ◌∷◌, [], length, IfSome};
ghost use Rattle.std.specs.Thread.{IsSync};
ghost use Rattle.ic_turn.specs.Parts.{entries_by};
ghost use Rattle.ic_turn.specs.Passes.{Adds, Grows, giver, given, opening_pass};
ghost use Rattle.ic_turn.specs.Many.{HaveBoth, HaveAll};

use super::*;
use std::alloc::Global;
use std::sync::Wait;
use std::test::Fail;
use std::thread::{Threads, join};

/// A turn over a counter without a limit.
fn begun(alloc: Global, passes: u32) -> Option<(Turn<Counter>, Pass<Counter>)>
    requires { 0 < passes }
    ensures { IfSome result (λ t. (t.0.passes ≡ passes) × (t.1 ≡ opening_pass t.0)) }
{
    Turn::new(alloc, Counter::new(u64::MAX), passes).ok()
}

/// Asks once, if nobody else does.
fn ask(turn: &Turn<Counter>, mut pass: Pass<Counter>, much: u64) -> Option<(Counted, Pass<Counter>)>
    requires { pass.turn ≡ turn.now }
    ensures { IfSome result (λ r. Adds pass much r.0 r.1) }
{
    match turn.try_call(&mut pass, much) {
        Ok(reply) => Some((reply, pass)),
        Err(_busy) => None,
    }
}

/// The one pass of a turn isn't split, and its ask is the list.
fn alone(alloc: Global) -> Option<(Counted, Closed<Counter>)>
    ensures entries { IfSome result (λ r. entries_by 0 r.1 ≡ record { ask = 5; reply = r.0 } ∷ []) }
    ensures total { IfSome result (λ r. length r.1 ≡ 1) }
{
    let Some((turn, pass)) = begun(alloc, 1) else {
        return None;
    };
    let Err(mut pass) = turn.split(pass) else {
        unreachable!()
    };
    let Ok(reply) = turn.try_call(&mut pass, 5) else {
        unreachable!()
    };
    let (_, list) = turn.close(pass);
    Some((reply, list))
}

/// The first of two passes asks for 2, and then the second for 3 and 4.
fn apart(alloc: Global) -> Option<(Counted, Counted, Counted, Closed<Counter>)>
    ensures first { IfSome result (λ r. entries_by 0 r.3 ≡ record { ask = 2; reply = r.0 } ∷ []) }
    ensures second { IfSome result (λ r. entries_by 1 r.3 ≡ record { ask = 3; reply = r.1 } ∷ record { ask = 4; reply = r.2 } ∷ []) }
    ensures total { IfSome result (λ r. length r.3 ≡ 3) }
{
    let Some((turn, pass)) = begun(alloc, 2) else {
        return None;
    };
    let Ok((first, second)) = turn.split(pass) else {
        return None;
    };
    let Some((two, first)) = ask(&turn, first, 2) else {
        return None;
    };
    let Some((three, second)) = ask(&turn, second, 3) else {
        return None;
    };
    let Some((four, second)) = ask(&turn, second, 4) else {
        return None;
    };
    let pass = turn.join(first, second);
    let (_, list) = turn.close(pass);
    Some((two, three, four, list))
}

/// So many asks for one.
fn ask_often<R: Wait>(
    rt: &R,
    turn: &Turn<Counter>,
    pass: Pass<Counter>,
    often: u32,
) -> Pass<Counter>
    requires { pass.turn ≡ turn.now }
    ensures { Grows often pass result }
{
    let mut pass = pass;
    for _ in 0..often {
        turn.call(rt, &mut pass, 1);
    }
    pass
}

/// Two passes ask 1,000 times each, beside each other.
fn both_ask<R: Threads + Wait + Sync>(
    rt: &R,
    turn: &Turn<Counter>,
    a: Pass<Counter>,
    b: Pass<Counter>,
) -> Pass<Counter>
    requires { (a.turn ≡ turn.now) × (b.turn ≡ turn.now) }
    ensures { HaveBoth 1000 a b result }
{
    let (a, b) = join(
        rt,
        move || -> Pass<Counter>
            requires { a.turn ≡ turn.now }
            ensures { Grows 1000 a result }
        { ask_often(rt, turn, a, 1000) },
        move || -> Pass<Counter>
            requires { b.turn ≡ turn.now }
            ensures { Grows 1000 b result }
        { ask_often(rt, turn, b, 1000) },
    );
    turn.join(a, b)
}

/// Two and two passes ask 1,000 times each, beside each other.
fn all_ask<R: Threads + Wait + Sync>(
    rt: &R,
    turn: &Turn<Counter>,
    first: (Pass<Counter>, Pass<Counter>),
    second: (Pass<Counter>, Pass<Counter>),
) -> Pass<Counter>
    requires first { (first.0.turn ≡ turn.now) × (first.1.turn ≡ turn.now) }
    requires second { (second.0.turn ≡ turn.now) × (second.1.turn ≡ turn.now) }
    ensures { HaveAll 1000 first second result }
{
    let (a, b) = first;
    let (c, d) = second;
    let (first, second) = join(
        rt,
        move || -> Pass<Counter>
            requires { IsSync R.row × (a.turn ≡ turn.now) × (b.turn ≡ turn.now) }
            ensures { HaveBoth 1000 a b result }
        { both_ask(rt, turn, a, b) },
        move || -> Pass<Counter>
            requires { IsSync R.row × (c.turn ≡ turn.now) × (d.turn ≡ turn.now) }
            ensures { HaveBoth 1000 c d result }
        { both_ask(rt, turn, c, d) },
    );
    turn.join(first, second)
}

/// The passes of the numbers from 0 to 3.
fn quarters(
    turn: &Turn<Counter>,
    pass: Pass<Counter>,
) -> Option<(Pass<Counter>, Pass<Counter>, Pass<Counter>, Pass<Counter>)>
    requires { pass ≡ opening_pass turn.now }
    ensures ab { IfSome result (λ r. (r.0 ≡ giver (giver (giver pass))) × (r.1 ≡ given (giver (giver pass)))) }
    ensures cd { IfSome result (λ r. (r.2 ≡ given (giver pass)) × (r.3 ≡ given pass)) }
{
    let Ok((pass, d)) = turn.split(pass) else {
        return None;
    };
    let Ok((pass, c)) = turn.split(pass) else {
        return None;
    };
    match turn.split(pass) {
        Ok((a, b)) => Some((a, b, c, d)),
        Err(_pass) => None,
    }
}

/// Four passes ask 1,000 times each, beside each other.
fn four_ask<R: Threads + Wait + Sync>(rt: &R, alloc: Global) -> Option<(Counter, Closed<Counter>)>
    ensures total { IfSome result (λ r. length r.1 ≡ 4000) }
{
    let Some((turn, pass)) = begun(alloc, 4) else {
        return None;
    };
    let Some((a, b, c, d)) = quarters(&turn, pass) else {
        return None;
    };
    let pass = all_ask(rt, &turn, (a, b), (c, d));
    Some(turn.close(pass))
}

#[test]
fn a_turn_of_one_pass_is_never_busy(rt: HostRuntime) -> Result<(), Fail> {
    let Some((reply, _list)) = alone(rt.alloc()) else {
        return Err("there is room for a table".into());
    };
    assert_eq!(rt; reply, Counted::Sum(5));
    Ok(())
}

#[test]
fn two_passes_ask_one_counter(rt: HostRuntime) -> Result<(), Fail> {
    let Some((two, three, four, _list)) = apart(rt.alloc()) else {
        return Err("nobody else asks".into());
    };
    assert_eq!(rt;
        (two, three, four),
        (Counted::Sum(2), Counted::Sum(5), Counted::Sum(9))
    );
    Ok(())
}

#[test]
fn four_threads_are_counted_to_the_end(rt: HostRuntime) -> Result<(), Fail> {
    let Some((counter, _list)) = four_ask(&rt, rt.alloc()) else {
        return Err("there is room for a table".into());
    };
    assert_eq!(rt; counter.sum(), 4000);
    Ok(())
}

#[test]
fn there_is_a_pass_for_each_number(rt: HostRuntime) -> Result<(), Fail> {
    let Some((turn, pass)) = begun(rt.alloc(), 3) else {
        return Err("there is room for a table".into());
    };
    let Ok(passes) = split_all(rt.alloc(), &turn, pass) else {
        return Err("there is room for three passes".into());
    };
    assert_eq!(rt; passes.len(), 3);
    Ok(())
}

#[test]
fn asks_are_served_in_their_order(rt: HostRuntime) -> Result<(), Fail> {
    let mut counter = Counter::new(10);
    let asks = vec![in rt.alloc(); 4, 7, 6, 0]?;
    let Ok(replies) = act_all(&mut counter, rt.alloc(), asks) else {
        return Err("there is room for four replies".into());
    };
    let wanted = [
        Counted::Sum(4),
        Counted::Over,
        Counted::Sum(10),
        Counted::Sum(10),
    ];
    assert_eq!(rt; replies.as_slice(), wanted.as_slice());
    Ok(())
}
