//! What happened before the send of each letter.

ghost use Rattle.std.specs.Prelude.{◌≡◌, ℕ, ◌<◌, Some, IfOk, OnOk, if◌then◌else◌};
ghost use Rattle.indexmap.specs.IndexMap.{get};
ghost use Rattle.nm_base.specs.declared.letter.LetterId.{LetterId};
ghost use Rattle.nm_base.specs.Message.{same_name};
ghost use Rattle.vector_clocks.specs.Parts.{part};
ghost use Rattle.event_list.specs.Events.{letter_of, taken_of};
ghost use Rattle.event_list.specs.Runs.{Sound};
ghost use Rattle.cut_witness.specs.private.Posts.{ArePosts, posted, added, taken_post as post_taken, brought as part_brought, own_part};

use crate::kept::taken_at;
use event_list::{Event, EventList};
use indexmap::IndexMap;
use nm_base::{Kind, LetterId, ProcNo, Stamp, WantOfMemory};
use std::alloc::Global;
use vector_clocks::Clocks;

/// Where a letter goes, and how many events of each process are known to have happened before its send.
#[derive(Clone, Copy)]
pub struct Post {
    pub dest: ProcNo,
    pub chan: u8,
    pub past: Stamp,
}

/// The posts of the letters that are sent, by their names.
pub fn posts_of(alloc: Global, events: &EventList) -> Result<IndexMap<LetterId, Post>, WantOfMemory>
    requires { Sound 0 events.now.events }
    ensures { IfOk result (λ posts. ArePosts events.now.events (get same_name posts)) }
{
    let mut clocks = Clocks::new(32);
    let mut posts = IndexMap::new(alloc);
    for i in 0..events.len() {
        let e = events.at(i);
        add_post(&mut posts, e, clocks.stamp(e.proc))?;
        clocks.merge(e.proc, &brought(&posts, e));
        clocks.merge(e.proc, &own(e.proc, e.number));
    }
    Ok(posts)
}

/// Adds the post of the letter that the event sends.
fn add_post(
    posts: &mut IndexMap<LetterId, Post>,
    e: &Event,
    past: &Stamp,
) -> Result<(), WantOfMemory>
    ensures { OnOk result ((q : LetterId) → get same_name posts.new q
        ≡ added (posted past.now (letter_of e.now)) q (get same_name posts.old q)) }
{
    match post_at(e, past) {
        Some((id, post)) => insert_post(posts, id, post),
        None => Ok(()),
    }
}

fn post_at(e: &Event, past: &Stamp) -> Option<(LetterId, Post)>
    ensures { result ≡ posted past.now (letter_of e.now) }
{
    match e.kind {
        Kind::Sent {
            number,
            dest,
            chan,
            ..
        } => Some((
            LetterId {
                sender: e.proc,
                number,
            },
            Post {
                dest,
                chan,
                past: *past,
            },
        )),
        _ => None,
    }
}

fn insert_post(
    posts: &mut IndexMap<LetterId, Post>,
    id: LetterId,
    post: Post,
) -> Result<(), WantOfMemory>
    ensures { OnOk result ((q : LetterId) → get same_name posts.new q
        ≡ (if same_name id q then Some post else get same_name posts.old q)) }
{
    match posts.insert(id, post) {
        Ok(_) => Ok(()),
        Err(_) => Err(WantOfMemory),
    }
}

/// What the event's process learns from the letter that it accepts.
fn brought(posts: &IndexMap<LetterId, Post>, e: &Event) -> Stamp
    ensures { (q : ℕ) → part result q ≡ part_brought (post_taken (get same_name posts.now) (taken_of e.now)) q }
{
    match taken_post(posts, e) {
        Some(post) => post.past,
        None => Stamp { parts: [0; 32] },
    }
}

/// The post of the letter that the event accepts.
fn taken_post(posts: &IndexMap<LetterId, Post>, e: &Event) -> Option<Post>
    ensures { result ≡ post_taken (get same_name posts.now) (taken_of e.now) }
{
    let id = taken_at(e)?;
    post_of(posts, id)
}

/// The post of the letter of this name.
pub fn post_of(posts: &IndexMap<LetterId, Post>, id: LetterId) -> Option<Post>
    ensures { result ≡ get same_name posts.now id }
{
    posts.get(&id).copied()
}

/// A timestamp that counts the process's events up to a number.
fn own(p: ProcNo, number: u32) -> Stamp
    requires { p.no < 32 }
    ensures { (q : ℕ) → part result q ≡ own_part p.no number q }
{
    let mut parts = [0; 32];
    parts[p.no as usize] = number;
    Stamp { parts }
}
