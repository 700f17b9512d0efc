ghost use Rattle.rt_plain.specs.Runs.{RunsAreOne, ScriptsRun};

/// Each script has a run, whatever its schedule and its settings: each of its drains comes to its
/// end.
pub fn scripts_run()
    ensures { ScriptsRun }
{}

/// A script has one run at most, so how it ends and in which world is decided.
pub fn runs_are_one()
    ensures { RunsAreOne }
{}
