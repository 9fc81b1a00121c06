// What serves asks.
ghost use Rattle.std.specs.Prelude.{◌≡◌, List, [], ◌∷◌};
ghost use Rattle.ic_turn.specs.declared.entry.Entry.{Entry};
ghost use Rattle.ic_turn.specs.Entries.{StandsWith};

use std::alloc::Global;

/// What serves asks one at a time, and answers each at once.
///
/// A machine keeps no list of what it was asked. Contracts speak of such lists all the same: it *stands* for a list of
/// entries, each an ask with its reply, if its state is one that they can have led to. Whoever drives it shows that
/// it stands for no entries at the beginning, and has the list of all entries at the end, which is then lawful.
pub trait Machine {
    type Ask;

    /// If an ask can find no memory, a variant says so.
    type Reply;

    /// Plain data that no `act` changes. It is there for contracts alone: no value of it need ever be made.
    type Kept;

    /// The machine as plain data. It is there for contracts alone, too.
    type State;

    ghost kept: { Self → Self.Kept };

    /// The machine as it is now.
    ghost state: { Self → Self.State };

    /// A machine that keeps this may answer this ask so, whatever came before.
    ghost answers: { Self.Kept → Self.Ask → Self.Reply → Type 0 };

    /// The entries of a machine that keeps this may be these.
    ghost lawful: { Self.Kept → List (Entry Self.Ask Self.Reply) → Type 0 };

    /// These entries can have led a machine that keeps this to this state.
    ghost stands: { Self.Kept → Self.State → List (Entry Self.Ask Self.Reply) → Type 0 };

    /// Answers an ask. What memory it takes is of `alloc`.
    fn act(&mut self, alloc: Global, ask: Self::Ask) -> Self::Reply
        ensures kept { kept self.new ≡ kept self.old }
        ensures answers { answers (kept self.old) ask result }
        ensures stands { StandsWith (stands (kept self.old) (state self.old)) (stands (kept self.new) (state self.new)) (record { ask = ask; reply = result } ∷ []) };

    /// What a machine stands for is lawful.
    ghost stands_lawful: { (k : Self.Kept) (s : Self.State) (entries : List (Entry Self.Ask Self.Reply)) → stands k s entries → lawful k entries };
}
