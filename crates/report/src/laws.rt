//! What a replay keeps of the recorded run, and prints.

ghost use Rattle.report.specs.Follows.{FollowsLaw, FullLaw};

/// Under the trace of a recorded run each process of a replay makes a front of its events, accepts a
/// front of its letters, stands after each event as it stood in the recorded run, and prints a front of
/// its output; and the counts of the replay are a consistent cut of the recorded run.
pub fn follows_law()
    ensures { FollowsLaw }
{}

/// A replay that came to all recorded counts prints the blocks and the summary of the recorded run.
pub fn full_law()
    ensures { FullLaw }
{}
