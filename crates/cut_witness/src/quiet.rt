//! Letters that a few walks through a list tell not to be logged: all but few of those that don't race.

ghost use Rattle.std.specs.Prelude.{◌≡◌, ◌==◌, ◌<◌, ◌≤◌, max, ℕ, List, Some, true, IfOk, OnOk, IfSome, Contains, slice_get, take, if◌then◌else◌};
ghost use Rattle.indexmap.specs.IndexMap.{get};
ghost use Rattle.indexmap.specs.IndexSet.{contains};
ghost use Rattle.nm_base.specs.Message.{same_name};
ghost use Rattle.vector_clocks.specs.Parts.{part, part_of};
ghost use Rattle.event_list.specs.declared.Event.{Event};
ghost use Rattle.event_list.specs.Runs.{Sound};
ghost use Rattle.cut_witness.specs.declared.quiet.Lane.{Lane};
ghost use Rattle.cut_witness.specs.private.Posts.{ArePosts};
ghost use Rattle.cut_witness.specs.private.Queries.{is_naming};
ghost use Rattle.cut_witness.specs.private.Quiet.{AreQuiet, AreLast, AreTaken, TellsQuiet, IsLow, same_lane, lane_of as lane_name, if_before as number_before, behind as number_behind};

use crate::earlier::name_at;
use crate::held::add_held;
use crate::kept::taken_at;
use crate::lookups::add_found;
use crate::posts::{Post, post_of, posts_of};
use crate::query::names;
use event_list::{Event, EventList};
use indexmap::{IndexMap, IndexSet};
use nm_base::{LetterId, ProcNo, Stamp, WantOfMemory, has_channel};
use std::alloc::Global;
use vector_clocks::Clocks;

/// The letters of one process to another on one channel.
#[derive(Clone, Copy, Debug, PartialEq, Eq, Hash)]
pub struct Lane {
    pub sender: ProcNo,
    pub dest: ProcNo,
    pub chan: u8,
}

/// The number of a letter among its sender's, and that of the event that received it.
#[derive(Clone, Copy)]
pub struct Taken {
    pub letter: u32,
    pub event: u32,
}

/// Letters of the list that aren't logged.
pub fn quiet_of(
    alloc: Global,
    events: &EventList,
    mask: u32,
) -> Result<IndexSet<LetterId>, WantOfMemory>
    requires { Sound mask events.now.events }
    ensures { IfOk result (λ quiet. AreQuiet mask events.now.events (contains same_name quiet)) }
{
    let posts = posts_of(alloc, events)?;
    let mut quiet = IndexSet::new(alloc);
    add_low(alloc, events, mask, &posts, &mut quiet)?;
    add_held(alloc, events, mask, &posts, &mut quiet)?;
    Ok(quiet)
}

/// Adds the letters that no receive comes late enough to race with.
fn add_low(
    alloc: Global,
    events: &EventList,
    mask: u32,
    posts: &IndexMap<LetterId, Post>,
    quiet: &mut IndexSet<LetterId>,
) -> Result<(), WantOfMemory>
    requires posts { ArePosts events.now.events (get same_name posts.now) }
    requires sound { Sound mask events.now.events }
    ensures { OnOk result (AreQuiet mask events.now.events (contains same_name quiet.old)
        → AreQuiet mask events.now.events (contains same_name quiet.new)) }
{
    let mut last = Clocks::new(32);
    let mut lanes = IndexMap::new(alloc);
    for i in 0..events.len() {
        let e = events.at(i);
        add_found(quiet, quiet_taken(mask, &last, &lanes, posts, e))?;
        last.merge(e.proc, &named_by(e));
        add_taken(&mut lanes, posts, e)?;
    }
    add_low_sent(events, mask, posts, &last, &lanes, quiet)?;
    Ok(())
}

/// Adds the letters with which no receive at all races.
fn add_low_sent(
    events: &EventList,
    mask: u32,
    posts: &IndexMap<LetterId, Post>,
    last: &Clocks,
    lanes: &IndexMap<Lane, Taken>,
    quiet: &mut IndexSet<LetterId>,
) -> Result<(), WantOfMemory>
    requires posts { ArePosts events.now.events (get same_name posts.now) }
    requires sound { Sound mask events.now.events }
    requires last { AreLast events.now.events (part_of last.now) }
    requires taken { AreTaken events.now.events (get same_lane lanes.now) }
    ensures { OnOk result (AreQuiet mask events.now.events (contains same_name quiet.old)
        → AreQuiet mask events.now.events (contains same_name quiet.new)) }
{
    for i in 0..events.len() {
        let e = events.at(i);
        add_found(quiet, quiet_sent(mask, last, lanes, posts, e))?;
    }
    Ok(())
}

/// The letter that the event accepts, if the receives before it tell that it isn't logged.
fn quiet_taken(
    mask: u32,
    last: &Clocks,
    lanes: &IndexMap<Lane, Taken>,
    posts: &IndexMap<LetterId, Post>,
    e: &Event,
) -> Option<LetterId>
    ensures { (E : List Event) (i : ℕ) → Sound mask E → slice_get E i ≡ Some e.now
        → ArePosts E (get same_name posts.now) → AreLast (take i E) (part_of last.now)
        → AreTaken E (get same_lane lanes.now) → TellsQuiet mask E result }
{
    let id = taken_at(e)?;
    let post = post_of(posts, id)?;
    if !goes_to(&post, e.proc) {
        return None;
    }
    low_letter(mask, last, lanes, id, &post)
}

fn goes_to(post: &Post, p: ProcNo) -> bool
    ensures { result ≡ (post.now.dest.no == p.no) }
{
    post.dest.no == p.no
}

/// The letter that the event sends, if all receives tell that it isn't logged.
fn quiet_sent(
    mask: u32,
    last: &Clocks,
    lanes: &IndexMap<Lane, Taken>,
    posts: &IndexMap<LetterId, Post>,
    e: &Event,
) -> Option<LetterId>
    ensures { (E : List Event) → Sound mask E → ArePosts E (get same_name posts.now) → AreLast E (part_of last.now)
        → AreTaken E (get same_lane lanes.now) → TellsQuiet mask E result }
{
    let id = name_at(e)?;
    let post = post_of(posts, id)?;
    low_letter(mask, last, lanes, id, &post)
}

/// The letter, if no receive comes late enough to race with it.
fn low_letter(
    mask: u32,
    last: &Clocks,
    lanes: &IndexMap<Lane, Taken>,
    id: LetterId,
    post: &Post,
) -> Option<LetterId>
    ensures { IfSome result (λ found. (found ≡ id)
        × IsLow mask (part_of last.now) (get same_lane lanes.now) id post.now) }
{
    if !is_low(mask, last, lanes, id, post) {
        return None;
    }
    Some(id)
}

fn is_low(
    mask: u32,
    last: &Clocks,
    lanes: &IndexMap<Lane, Taken>,
    id: LetterId,
    post: &Post,
) -> bool
    ensures low { result ≡ true → IsLow mask (part_of last.now) (get same_lane lanes.now) id post.now }
    ensures all { IsLow mask (part_of last.now) (get same_lane lanes.now) id post.now → post.now.dest.no < 32
        → result ≡ true }
{
    if post.dest.no >= 32 || post.chan >= 32 {
        return false;
    }
    let behind = behind(mask, lanes, id, post);
    is_at_most(last, post, behind)
}

/// Whether the process's last receive that names the channel comes no later than the letter's past, or than the event
/// of this number.
fn is_at_most(last: &Clocks, post: &Post, number: u32) -> bool
    requires process { post.now.dest.no < 32 }
    requires channel { post.now.chan < 32 }
    ensures low { result ≡ true → part_of last.now post.now.dest.no post.now.chan
        ≤ max (part post.now.past post.now.dest.no) number }
    ensures all { part_of last.now post.now.dest.no post.now.chan
        ≤ max (part post.now.past post.now.dest.no) number → result ≡ true }
{
    let limit = post.past.parts[post.dest.no as usize].max(number);
    last.stamp(post.dest).parts[post.chan as usize] <= limit
}

/// After which receive one could have taken the letter, as far as is known.
fn behind(mask: u32, lanes: &IndexMap<Lane, Taken>, id: LetterId, post: &Post) -> u32
    ensures { result ≡ number_behind mask (get same_lane lanes.now) id post.now }
{
    if has_channel(mask, post.chan) {
        number_before(id.number, taken_on(lanes, lane_of(id, post)))
    } else {
        0
    }
}

fn number_before(number: u32, taken: Option<Taken>) -> u32
    ensures { result ≡ number_before number taken }
{
    match taken {
        Some(taken) if taken.letter < number => taken.event,
        _ => 0,
    }
}

pub fn lane_of(id: LetterId, post: &Post) -> Lane
    ensures { result ≡ lane_name id post.now }
{
    Lane {
        sender: id.sender,
        dest: post.dest,
        chan: post.chan,
    }
}

fn taken_on(lanes: &IndexMap<Lane, Taken>, lane: Lane) -> Option<Taken>
    ensures { result ≡ get same_lane lanes.now lane }
{
    lanes.get(&lane).copied()
}

/// The event's number for each channel that it names.
fn named_by(e: &Event) -> Stamp
    ensures { (chan : ℕ) → chan < 32
        → part result chan ≡ (if is_naming e.now.kind chan then e.now.number else 0) }
{
    let mut parts = [0; 32];
    for chan in 0..32u8 {
        if names(e, chan) {
            parts[chan as usize] = e.number;
        }
    }
    Stamp { parts }
}

/// Takes in the receive of a letter as the last on its lane.
fn add_taken(
    lanes: &mut IndexMap<Lane, Taken>,
    posts: &IndexMap<LetterId, Post>,
    e: &Event,
) -> Result<(), WantOfMemory>
    ensures { OnOk result ((E : List Event) → Contains E e.now → ArePosts E (get same_name posts.now)
        → AreTaken E (get same_lane lanes.old) → AreTaken E (get same_lane lanes.new)) }
{
    let Some(id) = taken_at(e) else {
        return Ok(());
    };
    let Some(post) = post_of(posts, id) else {
        return Ok(());
    };
    let taken = Taken {
        letter: id.number,
        event: e.number,
    };
    put_taken(lanes, lane_of(id, &post), taken)?;
    Ok(())
}

fn put_taken(
    lanes: &mut IndexMap<Lane, Taken>,
    lane: Lane,
    taken: Taken,
) -> Result<(), WantOfMemory>
    ensures { OnOk result ((q : Lane) → get same_lane lanes.new q
        ≡ (if same_lane lane q then Some taken else get same_lane lanes.old q)) }
{
    match lanes.insert(lane, taken) {
        Ok(_) => Ok(()),
        Err(_) => Err(WantOfMemory),
    }
}
