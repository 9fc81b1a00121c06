// Laws of sessions and their queries. Each is the contract of a function with an empty body.
ghost use Rattle.gd_law.specs.Laws.{WholeWasFinished, PutsAgree, TakesAgree, PlayedIsAnswered, PlayedStays};

/// If the network delivers only what was emitted, and each hub obeys its law, then an end of stream that was taken had
/// been put.
pub fn whole_was_finished()
    ensures { WholeWasFinished }
{}

/// What the history says of a connection at its sending end agrees with the log of the worker there.
pub fn puts_agree()
    ensures { PutsAgree }
{}

/// What the history says was taken of a connection agrees with the log of the worker that took it.
pub fn takes_agree()
    ensures { TakesAgree }
{}

/// A query whose workers are done is answered: its rows are those of all its parts, in some order, and each of its
/// connections was served whole.
pub fn played_is_answered()
    ensures { PlayedIsAnswered }
{}

/// A query whose workers are done stays so while the workers of other queries make calls.
pub fn played_stays()
    ensures { PlayedStays }
{}
