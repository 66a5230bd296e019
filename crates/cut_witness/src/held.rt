//! Letters that wait on an ordered channel behind another that waits.

ghost use Rattle.std.specs.Prelude.{◌≡◌, List, Some, true, OnOk, IfOk, if◌then◌else◌};
ghost use Rattle.indexmap.specs.IndexMap.{get};
ghost use Rattle.indexmap.specs.IndexSet.{contains};
ghost use Rattle.nm_base.specs.Message.{same_name};
ghost use Rattle.event_list.specs.declared.Event.{Event};
ghost use Rattle.event_list.specs.Runs.{Sound};
ghost use Rattle.cut_witness.specs.declared.quiet.Lane.{Lane};
ghost use Rattle.cut_witness.specs.private.Held.{AreReceived, AreHeld, IsBehind};
ghost use Rattle.cut_witness.specs.private.Posts.{ArePosts};
ghost use Rattle.cut_witness.specs.private.Quiet.{AreQuiet, TellsQuiet, same_lane};

use crate::earlier::name_at;
use crate::kept::taken_at;
use crate::lookups::add_found;
use crate::posts::{Post, post_of};
use crate::quiet::{Lane, lane_of};
use event_list::{Event, EventList};
use indexmap::{IndexMap, IndexSet};
use nm_base::{LetterId, WantOfMemory, has_channel};
use std::alloc::Global;

/// Adds the letters that wait on an ordered channel behind another that waits.
pub fn add_held(
    alloc: Global,
    events: &EventList,
    mask: u32,
    posts: &IndexMap<LetterId, Post>,
    quiet: &mut IndexSet<LetterId>,
) -> Result<(), WantOfMemory>
    requires posts { ArePosts events.now.events (get same_name posts.now) }
    requires sound { Sound mask events.now.events }
    ensures { OnOk result (AreQuiet mask events.now.events (contains same_name quiet.old)
        → AreQuiet mask events.now.events (contains same_name quiet.new)) }
{
    let received = received_in(alloc, events)?;
    let mut held = IndexMap::new(alloc);
    for i in 0..events.len() {
        let e = events.at(i);
        add_found(quiet, quiet_behind(mask, &held, posts, e))?;
        hold(&mut held, &received, posts, e)?;
    }
    Ok(())
}

/// The names of the letters that were received.
fn received_in(alloc: Global, events: &EventList) -> Result<IndexSet<LetterId>, WantOfMemory>
    ensures { IfOk result (λ received. AreReceived events.now.events (contains same_name received)) }
{
    let mut received = IndexSet::new(alloc);
    for i in 0..events.len() {
        add_found(&mut received, taken_at(events.at(i)))?;
    }
    Ok(received)
}

/// The letter that the event sends, if another waits before it on an ordered channel.
fn quiet_behind(
    mask: u32,
    held: &IndexMap<Lane, u32>,
    posts: &IndexMap<LetterId, Post>,
    e: &Event,
) -> Option<LetterId>
    ensures { (E : List Event) → Sound mask E → ArePosts E (get same_name posts.now)
        → AreHeld E (get same_lane held.now) → TellsQuiet mask E result }
{
    let id = name_at(e)?;
    let post = post_of(posts, id)?;
    if !is_behind(mask, held, id, &post) {
        return None;
    }
    Some(id)
}

fn is_behind(mask: u32, held: &IndexMap<Lane, u32>, id: LetterId, post: &Post) -> bool
    ensures { result ≡ true → IsBehind mask (get same_lane held.now) id post.now }
{
    if !has_channel(mask, post.chan) {
        return false;
    }
    match held_on(held, lane_of(id, post)) {
        Some(first) => first < id.number,
        None => false,
    }
}

fn held_on(held: &IndexMap<Lane, u32>, lane: Lane) -> Option<u32>
    ensures { result ≡ get same_lane held.now lane }
{
    held.get(&lane).copied()
}

/// Takes in the letter that the event sends, if it was never received and no other is held on its lane.
fn hold(
    held: &mut IndexMap<Lane, u32>,
    received: &IndexSet<LetterId>,
    posts: &IndexMap<LetterId, Post>,
    e: &Event,
) -> Result<(), WantOfMemory>
    ensures { OnOk result ((E : List Event) → ArePosts E (get same_name posts.now)
        → AreReceived E (contains same_name received.now)
        → AreHeld E (get same_lane held.old) → AreHeld E (get same_lane held.new)) }
{
    let Some(id) = name_at(e) else {
        return Ok(());
    };
    let Some(post) = post_of(posts, id) else {
        return Ok(());
    };
    if received.contains(&id) {
        return Ok(());
    }
    let lane = lane_of(id, &post);
    if held_on(held, lane).is_some() {
        return Ok(());
    }
    put_held(held, lane, id.number)?;
    Ok(())
}

fn put_held(held: &mut IndexMap<Lane, u32>, lane: Lane, number: u32) -> Result<(), WantOfMemory>
    ensures { OnOk result ((q : Lane) → get same_lane held.new q
        ≡ (if same_lane lane q then Some number else get same_lane held.old q)) }
{
    match held.insert(lane, number) {
        Ok(_) => Ok(()),
        Err(_) => Err(WantOfMemory),
    }
}
