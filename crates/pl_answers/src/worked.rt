// Worked rules, each carried by a function that has nothing to run.
ghost use Rattle.pl_answers.specs.Worked.{GathersWait, LimitsKeepTheLeast};

/// Does nothing. Its clause: what an ordered gather gave, while the head of one sender isn't known, is the front of a lawful
/// answer.
pub fn a_gather_waits_for_heads()
    ensures { GathersWait }
{}

/// Does nothing. Its clause: the first rows of a merge are a lawful answer under a limit.
pub fn a_limit_keeps_the_least()
    ensures { LimitsKeepTheLeast }
{}
