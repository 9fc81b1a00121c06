// Laws of runs, carried by functions that have nothing to run.
ghost use Rattle.pl_answers.specs.Growing.{OutputsGrow};
ghost use Rattle.pl_answers.specs.Laws.{RootsGoOn, AnswersAreLawful};

/// Does nothing. Its clause: what a node gave is the front of what it gives once more was taken, and all of it if it had
/// ended.
pub fn outputs_grow()
    ensures { OutputsGrow }
{}

/// Does nothing. Its clauses: of a sound plan over loaded tables, what the root gave so far is the front of a lawful answer;
/// and if the root's output has ended, its rows are one.
pub fn answers_are_lawful()
    ensures goes_on { RootsGoOn }
    ensures over { AnswersAreLawful }
{
    pl_parts::the_root_part_is_the_meaning();
}
