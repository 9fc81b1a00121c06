// What may go to another thread.
use crate::machine::Machine;
use crate::pass::Pass;
use crate::turn::Turn;

fn sent<T: Send>(x: T) -> T {
    x
}

fn shared<T: Sync>(x: &T) -> &T {
    x
}

/// A pass may go to another thread if the machine may.
fn pass_crosses<M: Machine + Send>(pass: Pass<M>) -> Pass<M> {
    sent(pass)
}

/// So may a turn.
fn turn_crosses<M: Machine + Send>(turn: Turn<M>) -> Turn<M> {
    sent(turn)
}

/// A turn may be shared, too, even if the machine may not.
fn turn_is_shared<M: Machine + Send>(turn: &Turn<M>) -> &Turn<M> {
    shared(turn)
}
