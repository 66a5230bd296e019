//! Lines that go back, or to a cut of the finished replay.

ghost use Rattle.std.specs.Prelude.{◌≡◌, ◌<◌, ◌≤◌, ◌&&◌, [], List, map, length, take, All, Contains, None, IfOk, OnOk};
ghost use Rattle.c_tree.specs.declared.program.Program.{Program};
ghost use Rattle.nm_outside.specs.Causes.{BelongsTo};
ghost use Rattle.event_list.specs.declared.Event.{Event};
ghost use Rattle.event_list.specs.Runs.{Sound};
ghost use Rattle.event_list.specs.Cuts.{IsLeastCut, IsGreatestCut};
ghost use Rattle.causal_stop.specs.Stops.{HasEntry, Holds, IsEntry, Lacks, StandsIn, cut_of};
ghost use Rattle.checkpoints.specs.Kept.{last, up_to};
ghost use Rattle.stack_code.specs.Code.{Code as CodeSeen};
ghost use Rattle.trace_file.specs.Content.{Content};
ghost use Rattle.replay_core.specs.Gates.{seen_trace};
ghost use Rattle.report.specs.Printing.{Prints};
ghost use Rattle.report.specs.Replies.{notice_line};
ghost use Rattle.watchers.specs.Watched.{Watched};
ghost use Rattle.debugger.specs.Lines as lines;
ghost use Rattle.debugger.specs.Sessions.{Session as Defined, is_recorded, order_notice};
ghost use Rattle.debugger.specs.Sittings.{HasReplied, IsKept, IsReplayAt, IsSameSitting, IsSessionOf, Replies};
ghost use Rattle.debugger.specs.Faults.{is_write};
ghost use Rattle.debugger.specs.private.Making.{with_run};
ghost use Rattle.debugger.specs.private.Moving.{CanGoTo, HasMade, HasMoved, IsCutOfFull, IsFinished, IsNextOf, events_in, moved_text};

use crate::beginning::new_replay;
use crate::fault::SessionFault;
use crate::forward::{make_turn, note};
use crate::session::Session;
use c_process::{CProc, seats_of};
use causal_stop::{Order, avoid_at, order_of, stop_at};
use checkpoints::Checkpoints;
use event_list::EventList;
use mailboxes::Mail;
use nm_base::{ProcNo, WantOfMemory};
use nm_outside::{Failed, Sink};
use replay_core::{Replay, ReplayFault};
use report::{Notice, at_line, notice_line};
use std::alloc::Global;
use std::mem::replace;
use watchers::Watcher;
use world::{Turned, World};

/// `back K`: the run with K events fewer.
pub(crate) fn back<'c, M: Mail, W: Watcher, O: Sink>(
    session: &mut Session<'c, M>,
    alloc: Global,
    k: u32,
    watch: &Vec<W>,
    out: &mut O,
) -> Result<(), SessionFault>
    ensures replied { (p : Program) (s : Defined) → IsSessionOf session.old p s
        → HasReplied (lines.Back k) p s (map W.watched watch.now.items) session.new
        (map W.watched watch.now.items) (O.given out.old) (O.given out.new) result }
    ensures cause { BelongsTo (is_write result) (O.faults out.old) (O.faults out.new) }
    ensures same { IsSameSitting session.old session.new }
{
    let refused = back_by(session, alloc, k)?;
    put_moved(session, refused, out)?;
    Ok(())
}

// Goes back by so many events; or says why it doesn't.
fn back_by<'c, M: Mail>(
    session: &mut Session<'c, M>,
    alloc: Global,
    k: u32,
) -> Result<Option<Notice>, WantOfMemory>
    ensures replies { IfOk result (λ refused. (p : Program) (s : Defined) (watch : List Watched)
        → IsSessionOf session.old p s
        → Replies (lines.Back k) p s watch session.new watch (moved_text session.new.replay.events refused)) }
    ensures same { IsSameSitting session.old session.new }
{
    let made = session.replay.events().len();
    if made < k {
        return Ok(Some(Notice::NoEvent));
    }
    go_back(session, alloc, made - k)?;
    Ok(None)
}

// Says why a session didn't move, or how many events its run has now.
fn put_moved<'c, M: Mail, O: Sink>(
    session: &Session<'c, M>,
    refused: Option<Notice>,
    out: &mut O,
) -> Result<(), Failed>
    ensures { Prints (O.given out.old) (O.given out.new) (O.faults out.old) (O.faults out.new)
        (moved_text session.now.replay.events refused) result }
{
    match refused {
        Some(why) => notice_line(out, why),
        None => at_line(out, session.replay.events().len()),
    }
}

// Goes back to the first events of the run.
fn go_back<'c, M: Mail>(
    session: &mut Session<'c, M>,
    alloc: Global,
    to: u32,
) -> Result<(), WantOfMemory>
    requires within { to ≤ length session.old.replay.events }
    ensures back { OnOk result ((p : Program) (s : Defined) → IsSessionOf session.old p s
        → IsSessionOf session.new p (with_run s (take to s.run))) }
    ensures same { IsSameSitting session.old session.new }
{
    let from = world_before(session, alloc, to)?;
    session.replay.go_back(alloc, from, to)
}

// A world after some of the first `to` events of the run: a copy of the last kept one that has no more, or one
// before the first event. Kept worlds of more events are dropped.
fn world_before<'c, M: Mail>(
    session: &mut Session<'c, M>,
    alloc: Global,
    to: u32,
) -> Result<World<CProc<'c>, M>, WantOfMemory>
    ensures world { IfOk result (λ w. (p : Program) (s : Defined) → IsSessionOf session.new p s
        → IsKept session.new.code p session.new.trace s.run w) }
    ensures reached { IfOk result (λ w. w.events ≤ to) }
    ensures nearest { IfOk result (λ w. w.events ≡ events_in (last (up_to to session.old.kept))) }
    ensures kept { OnOk result (All (λ w. w.events ≤ to) session.new.kept) }
    ensures still { (p : Program) (s : Defined) → IsSessionOf session.old p s → IsSessionOf session.new p s }
    ensures replay { session.new.replay ≡ session.old.replay }
    ensures same { IsSameSitting session.old session.new }
{
    match session.kept.back_to(alloc, to)? {
        Some(world) => Ok(world),
        None => first_world(session, alloc),
    }
}

// The world before the first event.
fn first_world<'c, M: Mail>(
    session: &Session<'c, M>,
    alloc: Global,
) -> Result<World<CProc<'c>, M>, WantOfMemory>
    ensures first { IfOk result (λ w. (p : Program) (s : Defined) → IsSessionOf session.now p s
        → IsKept session.now.code p session.now.trace s.run w) }
    ensures none { IfOk result (λ w. w.events ≡ 0) }
{
    let seats = seats_of(alloc, session.code, session.trace.n())?;
    let world = World::new(alloc, seats, session.trace.mask())?;
    Ok(world)
}

/// `stop P K`: the entries in the least cut with an event.
pub(crate) fn stop<'c, M: Mail, W: Watcher, O: Sink>(
    session: &mut Session<'c, M>,
    alloc: Global,
    q: ProcNo,
    k: u32,
    watch: &mut Vec<W>,
    out: &mut O,
) -> Result<(), SessionFault>
    ensures replied { (p : Program) (s : Defined) → IsSessionOf session.old p s
        → HasReplied (lines.Stop q.no k) p s (map W.watched watch.old.items) session.new
        (map W.watched watch.new.items) (O.given out.old) (O.given out.new) result }
    ensures cause { BelongsTo (is_write result) (O.faults out.old) (O.faults out.new) }
    ensures same { IsSameSitting session.old session.new }
{
    let refused = stop_before(session, alloc, q, k, watch)?;
    put_moved(session, refused, out)?;
    Ok(())
}

// Goes to the least cut with an event; or says why it doesn't.
fn stop_before<'c, M: Mail, W: Watcher>(
    session: &mut Session<'c, M>,
    alloc: Global,
    q: ProcNo,
    k: u32,
    watch: &mut Vec<W>,
) -> Result<Option<Notice>, WantOfMemory>
    ensures replies { IfOk result (λ refused. (p : Program) (s : Defined) → IsSessionOf session.old p s
        → Replies (lines.Stop q.no k) p s (map W.watched watch.old.items) session.new (map W.watched watch.new.items)
        (moved_text session.new.replay.events refused)) }
    ensures same { IsSameSitting session.old session.new }
{
    let recorded = is_recorded(session, q, k);
    if !recorded {
        return Ok(Some(Notice::NoEvent));
    }
    let mut replay = new_replay::<M>(alloc, session.code, session.trace)?;
    let reached = finish_all(&mut replay, alloc)?;
    if !reached {
        return Ok(Some(Notice::Stuck));
    }
    go_to_least(session, alloc, replay.events(), q, k, watch)?;
    Ok(None)
}

// Goes to the least cut of the finished replay with an event that is recorded.
fn go_to_least<'c, M: Mail, W: Watcher>(
    session: &mut Session<'c, M>,
    alloc: Global,
    events: &EventList,
    q: ProcNo,
    k: u32,
    watch: &mut Vec<W>,
) -> Result<(), WantOfMemory>
    requires sound { Sound 0 events.now.events }
    requires entry { HasEntry events.now.events q.no k }
    ensures gone { OnOk result ((p : Program) (s : Defined) → IsSessionOf session.old p s
        → CanGoTo p session.old.trace events.now.events q.no k
        → Replies (lines.Stop q.no k) p s (map W.watched watch.old.items) session.new (map W.watched watch.new.items)
        (moved_text session.new.replay.events None)) }
    ensures same { IsSameSitting session.old session.new }
{
    let cut = cut_with(events, q, k);
    go_to(session, alloc, events, &cut, watch)?;
    Ok(())
}

/// `avoid P K`: the entries in the greatest cut without an event.
pub(crate) fn avoid<'c, M: Mail, W: Watcher, O: Sink>(
    session: &mut Session<'c, M>,
    alloc: Global,
    q: ProcNo,
    k: u32,
    watch: &mut Vec<W>,
    out: &mut O,
) -> Result<(), SessionFault>
    ensures replied { (p : Program) (s : Defined) → IsSessionOf session.old p s
        → HasReplied (lines.Avoid q.no k) p s (map W.watched watch.old.items) session.new
        (map W.watched watch.new.items) (O.given out.old) (O.given out.new) result }
    ensures cause { BelongsTo (is_write result) (O.faults out.old) (O.faults out.new) }
    ensures same { IsSameSitting session.old session.new }
{
    let refused = stay_without(session, alloc, q, k, watch)?;
    put_moved(session, refused, out)?;
    Ok(())
}

// Goes to the greatest cut without an event; or says why it doesn't.
fn stay_without<'c, M: Mail, W: Watcher>(
    session: &mut Session<'c, M>,
    alloc: Global,
    q: ProcNo,
    k: u32,
    watch: &mut Vec<W>,
) -> Result<Option<Notice>, WantOfMemory>
    ensures replies { IfOk result (λ refused. (p : Program) (s : Defined) → IsSessionOf session.old p s
        → Replies (lines.Avoid q.no k) p s (map W.watched watch.old.items) session.new (map W.watched watch.new.items)
        (moved_text session.new.replay.events refused)) }
    ensures same { IsSameSitting session.old session.new }
{
    let recorded = is_recorded(session, q, k);
    if !recorded {
        return Ok(Some(Notice::NoEvent));
    }
    let mut replay = new_replay::<M>(alloc, session.code, session.trace)?;
    let reached = finish_all(&mut replay, alloc)?;
    if !reached {
        return Ok(Some(Notice::Stuck));
    }
    go_to_greatest(session, alloc, replay.events(), q, k, watch)?;
    Ok(None)
}

// Goes to the greatest cut of the finished replay without an event that is recorded.
fn go_to_greatest<'c, M: Mail, W: Watcher>(
    session: &mut Session<'c, M>,
    alloc: Global,
    events: &EventList,
    q: ProcNo,
    k: u32,
    watch: &mut Vec<W>,
) -> Result<(), WantOfMemory>
    requires sound { Sound 0 events.now.events }
    requires entry { HasEntry events.now.events q.no k }
    ensures gone { OnOk result ((p : Program) (s : Defined) → IsSessionOf session.old p s
        → CanGoTo p session.old.trace events.now.events q.no k
        → Replies (lines.Avoid q.no k) p s (map W.watched watch.old.items) session.new (map W.watched watch.new.items)
        (moved_text session.new.replay.events None)) }
    ensures same { IsSameSitting session.old session.new }
{
    let cut = cut_without(events, q, k);
    go_to(session, alloc, events, &cut, watch)?;
    Ok(())
}

/// `order P K Q J`: how two events stand to each other.
pub(crate) fn order<'c, M: Mail, W: Watcher, O: Sink>(
    session: &Session<'c, M>,
    alloc: Global,
    a: (ProcNo, u32),
    b: (ProcNo, u32),
    watch: &Vec<W>,
    out: &mut O,
) -> Result<(), SessionFault>
    ensures replied { (p : Program) (s : Defined) → IsSessionOf session.now p s
        → HasReplied (lines.Compare a.0.no a.1 b.0.no b.1) p s (map W.watched watch.now.items) session.now
        (map W.watched watch.now.items) (O.given out.old) (O.given out.new) result }
    ensures cause { BelongsTo (is_write result) (O.faults out.old) (O.faults out.new) }
{
    let notice = compare(session, alloc, a, b)?;
    notice_line(out, notice)?;
    Ok(())
}

// What is said of two events.
fn compare<'c, M: Mail>(
    session: &Session<'c, M>,
    alloc: Global,
    a: (ProcNo, u32),
    b: (ProcNo, u32),
) -> Result<Notice, WantOfMemory>
    ensures { IfOk result (λ what. (p : Program) (s : Defined) (watch : List Watched) → IsSessionOf session.now p s
        → Replies (lines.Compare a.0.no a.1 b.0.no b.1) p s watch session.now watch (notice_line what)) }
{
    let recorded = are_recorded(session, a, b);
    if !recorded {
        return Ok(Notice::NoEvent);
    }
    let mut replay = new_replay::<M>(alloc, session.code, session.trace)?;
    let reached = finish_all(&mut replay, alloc)?;
    if !reached {
        return Ok(Notice::Stuck);
    }
    let order = standing(replay.events(), a.0, a.1, b.0, b.1);
    Ok(order_notice(order))
}

// What is said of how two events stand to each other.
fn order_notice(order: Order) -> Notice
    ensures { result ≡ order_notice order }
{
    match order {
        Order::Same => Notice::Same,
        Order::Before => Notice::Before,
        Order::After => Notice::After,
        Order::Unordered => Notice::Unordered,
    }
}

// Whether the recording has an event of this number of the process.
fn is_recorded<'c, M: Mail>(session: &Session<'c, M>, q: ProcNo, k: u32) -> bool
    ensures { (p : Program) → result ≡ is_recorded p (seen_trace session.now.trace) q.no k }
{
    if session.trace.n() <= q.no {
        return false;
    }
    1 <= k && k <= session.trace.count(q)
}

// Whether the recording has both events.
fn are_recorded<'c, M: Mail>(session: &Session<'c, M>, a: (ProcNo, u32), b: (ProcNo, u32)) -> bool
    ensures { (p : Program) → result ≡ (is_recorded p (seen_trace session.now.trace) a.0.no a.1
        && is_recorded p (seen_trace session.now.trace) b.0.no b.1) }
{
    is_recorded(session, a.0, a.1) && is_recorded(session, b.0, b.1)
}

// Finishes a replay from before its first event; and says whether it reaches all recorded counts.
fn finish_all<'c, M: Mail>(
    replay: &mut Replay<CProc<'c>, M>,
    alloc: Global,
) -> Result<bool, WantOfMemory>
    ensures { IfOk result (λ reached. (code : CodeSeen) (p : Program) (t : Content) → IsReplayAt code p t replay.old []
        → IsFinished code p t replay.new reached) }
{
    match replay.finish(alloc) {
        Ok(_) => Ok(true),
        Err(ReplayFault::Stuck { .. }) => Ok(false),
        Err(ReplayFault::Memory) => Err(WantOfMemory),
    }
}

// The numbers of the least cut with an event of the list.
fn cut_with(events: &EventList, q: ProcNo, k: u32) -> [u32; 32]
    requires sound { Sound 0 events.now.events }
    requires entry { HasEntry events.now.events q.no k }
    ensures { IsLeastCut events.now.events (Holds q.no k) (cut_of result) }
{
    match stop_at(events, q, k) {
        Some(cut) => cut,
        None => [0; 32],
    }
}

// The numbers of the greatest cut without an event of the list.
fn cut_without(events: &EventList, q: ProcNo, k: u32) -> [u32; 32]
    requires sound { Sound 0 events.now.events }
    requires entry { HasEntry events.now.events q.no k }
    ensures { IsGreatestCut events.now.events (Lacks q.no k) (cut_of result) }
{
    match avoid_at(events, q, k) {
        Some(cut) => cut,
        None => [0; 32],
    }
}

// How two events of the list stand to each other.
fn standing(events: &EventList, q: ProcNo, k: u32, r: ProcNo, j: u32) -> Order
    requires sound { Sound 0 events.now.events }
    requires first { HasEntry events.now.events q.no k }
    requires second { HasEntry events.now.events r.no j }
    ensures { (a b : Event) → IsEntry events.now.events q.no k a → IsEntry events.now.events r.no j b
        → StandsIn events.now.events a b result }
{
    match order_of(events, q, k, r, j) {
        Some(order) => order,
        None => Order::Unordered,
    }
}

// Begins anew, without kept worlds, and makes the entries in a cut of the finished replay, in its order.
fn go_to<'c, M: Mail, W: Watcher>(
    session: &mut Session<'c, M>,
    alloc: Global,
    events: &EventList,
    cut: &[u32; 32],
    watch: &mut Vec<W>,
) -> Result<(), WantOfMemory>
    ensures moved { OnOk result ((p : Program) (s : Defined) → IsSessionOf session.old p s
        → IsCutOfFull p session.old.trace events.now.events (cut_of cut.now)
        → HasMoved p s (map W.watched watch.old.items) events.now.events (cut_of cut.now) session.new
        (map W.watched watch.new.items)) }
    ensures same { IsSameSitting session.old session.new }
{
    begin_anew(session, alloc)?;
    for i in 0..events.len() {
        let event = events.at(i);
        if cut[event.proc.no as usize] < event.number {
            continue;
        }
        make_again(session, alloc, event.proc, watch)?;
    }
    Ok(())
}

// Undoes all events of the run, and keeps no world.
fn begin_anew<'c, M: Mail>(session: &mut Session<'c, M>, alloc: Global) -> Result<(), WantOfMemory>
    ensures anew { OnOk result ((p : Program) (s : Defined) → IsSessionOf session.old p s
        → IsSessionOf session.new p (with_run s [])) }
    ensures same { IsSameSitting session.old session.new }
{
    let replay = new_replay(alloc, session.code, session.trace)?;
    let kept = Checkpoints::new(alloc)?;
    drop(replace(&mut session.replay, replay));
    drop(replace(&mut session.kept, kept));
    Ok(())
}

// Makes the next event of the process, and tells it.
fn make_again<'c, M: Mail, W: Watcher>(
    session: &mut Session<'c, M>,
    alloc: Global,
    q: ProcNo,
    watch: &mut Vec<W>,
) -> Result<(), WantOfMemory>
    ensures made { OnOk result ((p : Program) (s : Defined) (e : Event) → IsSessionOf session.old p s
        → IsNextOf p session.old.trace s.run q.no e
        → HasMade p s (map W.watched watch.old.items) e session.new (map W.watched watch.new.items)) }
    ensures same { IsSameSitting session.old session.new }
{
    if session.trace.n() <= q.no {
        return Ok(());
    }
    match make_turn(session, alloc, q)? {
        Turned::Went { event, .. } => note(session, alloc, &event, watch),
        Turned::Idle(_) => Ok(()),
    }
}
