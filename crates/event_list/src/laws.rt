//! The theorems on runs. Each function does nothing; its contract is the theorem.

ghost use Rattle.event_list.specs.Example.{ExampleLaw};
ghost use Rattle.event_list.specs.Worked.{WorkedLaw};
ghost use Rattle.event_list.specs.WorkedOrder.{WorkedOrderLaw};
ghost use Rattle.event_list.specs.Laws.{SoundLaw, RaceLaw, PrefixLaw, ClockLaw, StampLaw, TurnLaw, FinishLaw, ProgressLaw, WitnessLaw, ProjectionLaw, FullReplayLaw, LoggedLaw, TraceLaw, MessageLaw, ChannelLaw, FirstLaw, CutLaw, CutRunLaw, MaskLaw, FirstPickLaw, NeedLaw, RuleLaw, OrderLaw, FrontLaw, StepLaw, NotesLaw, PrintLaw, RoomLaw, CarryLaw, FormedLaw, LeastLaw, CheckLaw};

/// Every run of lawful scripts is sound.
pub fn sound_law()
    ensures { SoundLaw }
{}

/// A receive that could have taken a letter races with it exactly where it did not happen before its send.
pub fn race_law()
    ensures { RaceLaw }
{}

/// A replay makes a prefix of what was recorded.
pub fn prefix_law()
    ensures { PrefixLaw }
{}

/// Clocks and timestamps count pasts.
pub fn clock_law()
    ensures { ClockLaw }
{}

/// A receive is before a send exactly where the timestamp counts it.
pub fn stamp_law()
    ensures { StampLaw }
{}

/// A schedule makes a run, and under a trace a replay.
pub fn turn_law()
    ensures { TurnLaw }
{}

/// Finishing ends.
pub fn finish_law()
    ensures { FinishLaw }
{}

/// A replay of a recorded run can go on to the recorded counts.
pub fn progress_law()
    ensures { ProgressLaw }
{}

/// A logged letter has one witness in the run's order.
pub fn witness_law()
    ensures { WitnessLaw }
{}

/// What is said of a list depends on each process's entries alone.
pub fn projection_law()
    ensures { ProjectionLaw }
{}

/// A full replay has the recorded entries and the recorded trace.
pub fn full_replay_law()
    ensures { FullReplayLaw }
{}

/// A letter's timestamp decides whether it is logged.
pub fn logged_law()
    ensures { LoggedLaw }
{}

/// Each sound list has one trace.
pub fn trace_law()
    ensures { TraceLaw }
{}

/// A replay's processes accept a prefix of the recorded letters.
pub fn message_law()
    ensures { MessageLaw }
{}

/// In a run each letter is on a channel from 0 to 31.
pub fn channel_law()
    ensures { ChannelLaw }
{}

/// To be first among rivals by number is to be first by place.
pub fn first_law()
    ensures { FirstLaw }
{}

/// Least and greatest cuts.
pub fn cut_law()
    ensures { CutLaw }
{}

/// The entries of a consistent cut are a run.
pub fn cut_run_law()
    ensures { CutRunLaw }
{}

/// Fewer ordered channels allow more.
pub fn mask_law()
    ensures { MaskLaw }
{}

/// A replay made with pick 0, its finishing and its consistent cuts are made so again.
pub fn first_pick_law()
    ensures { FirstPickLaw }
{}

/// An entry whose earlier receive has no note is needed.
pub fn need_law()
    ensures { NeedLaw }
{}

/// A turn under the rule of a trace is a turn under the trace.
pub fn rule_law()
    ensures { RuleLaw }
{}

/// On an ordered channel letters are received in the order of their sends.
pub fn order_law()
    ensures { OrderLaw }
{}

/// The first turns make a front of what all turns make.
pub fn front_law()
    ensures { FrontLaw }
{}

/// A replay goes on by what its turns make, and its fronts are replays.
pub fn step_law()
    ensures { StepLaw }
{}

/// As a list grows its notes stay.
pub fn notes_law()
    ensures { NotesLaw }
{}

/// Lists with the same entries show the same.
pub fn print_law()
    ensures { PrintLaw }
{}

/// A replay that is to go on has room below the sum of the counts.
pub fn room_law()
    ensures { RoomLaw }
{}

/// A run's own moves make it again, and what is carried out is a run.
pub fn carry_law()
    ensures { CarryLaw }
{}

/// The trace of few events is well formed.
pub fn formed_law()
    ensures { FormedLaw }
{}

/// The least cut that meets a condition on each process alone is reached step by step.
pub fn least_law()
    ensures { LeastLaw }
{}

/// A run that keeps both pasts, by its counts, is a witness.
pub fn check_law()
    ensures { CheckLaw }
{}

/// Two senders and a receiver: the letter that comes second is logged.
pub fn example_law()
    ensures { ExampleLaw }
{}

/// Worked runs: their clocks and timestamps, a replay under another schedule, and the finishing.
pub fn worked_law()
    ensures { WorkedLaw }
{}

/// Worked runs under a mask: letters of one sender that overtake each other, and that don't.
pub fn worked_order_law()
    ensures { WorkedOrderLaw }
{}
