//! The laws of what a program does.

ghost use Rattle.c_tree.specs.Laws.{AbleGoesOn, FirstEventsAgree, HistoriesArePlayed, LaterLettersChangeNothing, ScriptsAreLawful};

/// The events with at most k made are the first k of those with at most k + 1 made.
pub fn first_events_law()
    ensures { FirstEventsAgree }
{}

/// Letters that come after the k-th event change nothing before it.
pub fn later_letters_law()
    ensures { LaterLettersChangeNothing }
{}

/// The histories of a process are what it plays, and one that is able goes on with an event. Its
/// script keeps the laws of scripts: it makes no receive by itself, its sends are numbered from 0 in
/// order, each has a channel from 0 to 31 and 1 to 8 words, and nothing follows its last event.
pub fn script_law()
    ensures played { HistoriesArePlayed }
    ensures able { AbleGoesOn }
    ensures lawful { ScriptsAreLawful }
{}
