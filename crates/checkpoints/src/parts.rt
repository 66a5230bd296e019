//! Steps over lists of worlds.

ghost use Rattle.std.specs.Prelude.{◌≡◌, ◌≤◌, ◌<◌, length, take, [], ◌∷◌, ◌++◌, IfOk, OnOk};
ghost use Rattle.std.specs.Vec.{vec_len, vec_capacity};
ghost use Rattle.checkpoints.specs.Kept.{AreKept, IsCopyOf, evens, thinned, up_to, last};

use crate::kept::MOST_KEPT;
use mailboxes::Mail;
use nm_base::WantOfMemory;
use processes::Proc;
use std::alloc::Global;
use world::World;

/// Makes room in memory for one more.
pub(crate) fn make_room<P: Proc, M: Mail>(worlds: &mut Vec<World<P, M>>) -> Result<(), WantOfMemory>
    ensures same { worlds.new.items ≡ worlds.old.items }
    ensures room { OnOk result (vec_len worlds.new < vec_capacity worlds.new) }
{
    worlds.reserve(1).map_err(|_| WantOfMemory)
}

/// Puts a world last, where there is room in memory.
pub(crate) fn put_last<P: Proc, M: Mail>(worlds: &mut Vec<World<P, M>>, world: World<P, M>)
    requires room { vec_len worlds.old < vec_capacity worlds.old }
    ensures { worlds.new.items ≡ worlds.old.items ++ world ∷ [] }
{
    match worlds.push(world) {
        Ok(()) => {}
        Err(_) => unreachable!(),
    }
}

/// Makes room among 16: where 16 are kept, those at the places 1, 3, .., 15 go.
pub(crate) fn thin<P: Proc, M: Mail>(worlds: &mut Vec<World<P, M>>)
    ensures thinned { worlds.new.items ≡ thinned worlds.old.items }
    ensures len { vec_len worlds.new ≤ vec_len worlds.old }
    ensures capacity { vec_capacity worlds.new ≡ vec_capacity worlds.old }
{
    if worlds.len() < MOST_KEPT as usize {
        return;
    }
    drop_odd(worlds);
}

/// Drops those at the places 1, 3, 5, .. Each of the others moves once, to the front.
fn drop_odd<P: Proc, M: Mail>(worlds: &mut Vec<World<P, M>>)
    ensures evens { worlds.new.items ≡ evens worlds.old.items }
    ensures len { vec_len worlds.new ≤ vec_len worlds.old }
    ensures capacity { vec_capacity worlds.new ≡ vec_capacity worlds.old }
{
    let mut kept = 0;
    let mut from = 0;
    while from < worlds.len() {
        worlds.swap(kept, from);
        kept += 1;
        from += 2;
    }
    worlds.truncate(kept);
}

/// How many have at most k events.
pub(crate) fn count_up_to<P: Proc, M: Mail>(worlds: &[World<P, M>], k: u32) -> usize
    requires kept { AreKept worlds.now }
    ensures within { result ≤ length worlds.now }
    ensures front { take result worlds.now ≡ up_to k worlds.now }
{
    let mut n = 0;
    while n < worlds.len() {
        if worlds[n].events() > k {
            return n;
        }
        n += 1;
    }
    n
}

/// A copy of the last of these, if there is one.
pub(crate) fn copy_of_last<P: Proc, M: Mail>(
    alloc: Global,
    worlds: &[World<P, M>],
) -> Result<Option<World<P, M>>, WantOfMemory>
    ensures { IfOk result (λ w. IsCopyOf P.stands_for P.origin_of (last worlds.now) w) }
{
    let Some(last) = worlds.last() else {
        return Ok(None);
    };
    let copy = last.copy(alloc)?;
    Ok(Some(copy))
}
