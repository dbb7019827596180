//! Each law is a function that does nothing and promises it.
ghost use Rattle.generated_runs.specs.Laws.{GeneratedIsDone, GeneratedSucceeds};

/// One thread performs the whole generated script: no command of it is refused and no stream is left undrained, so its
/// books tell status 0.
pub fn the_generated_script_is_done()
    ensures refused { GeneratedIsDone }
    ensures status { GeneratedSucceeds }
{}
