// The query theorem, carried by functions that have nothing to run.
ghost use Rattle.gd_answer.specs.Laws.{RunsGoOn, RunsAreLawful, RunsThatAreOverAreLawful};

/// Does nothing. Its clause: whatever the workers of a query did so far, the rows that slice 0 let out are the front of a
/// lawful answer.
pub fn runs_go_on()
    ensures { RunsGoOn }
{
    ic_law::streams_follow();
    gd_law::whole_was_finished();
    pl_answers::outputs_grow();
    pl_answers::answers_are_lawful();
}

/// Does nothing. Its clauses: once slice 0 is done, the rows that it let out are a lawful answer; so they are if the whole
/// run is over.
pub fn runs_are_lawful()
    ensures done { RunsAreLawful }
    ensures over { RunsThatAreOverAreLawful }
{
    ic_law::streams_follow();
    gd_law::whole_was_finished();
    pl_answers::outputs_grow();
    pl_answers::answers_are_lawful();
}
