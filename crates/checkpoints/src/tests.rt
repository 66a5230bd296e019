//! Worlds of one process that goes through lines, kept and gone back to.

ghost use Rattle.std.specs.Prelude.{◌≡◌, ◌<◌, true, replicate, IfOk};
ghost use Rattle.nm_base.specs.declared.kind.Kind.TheVariants.{Line};
ghost use Rattle.checkpoints.specs.Kept.{AreBelow};

use crate::Checkpoints;
use mailboxes::{FreeGate, ListMail};
use nm_base::{Kind, MAX_EVENTS, ProcNo, WantOfMemory};
use processes::{Listed, Seat};
use schedules::Turn;
use std::alloc::Global;
use std::test::Fail;
use world::World;

/// 128 lines.
fn lines(alloc: Global) -> Result<Vec<Kind>, WantOfMemory>
    ensures { IfOk result (λ v. v.items ≡ replicate 128 (Line 3)) }
{
    Ok(Vec::from_slice(alloc, &[Kind::Line { line: 3 }; 128])?)
}

/// One process before its first line.
fn beginning(alloc: Global) -> Result<World<Listed, ListMail>, WantOfMemory> {
    let process = Listed::new(ProcNo { no: 0 }, lines(alloc)?);
    let seat = Seat::begin(process);
    let mut seats = Vec::new(alloc);
    match seats.push(seat) {
        Ok(()) => {}
        Err(_) => return Err(WantOfMemory),
    }
    World::new(alloc, seats, 0)
}

/// Goes on until there are so many events, or none comes.
fn go_on(
    world: &mut World<Listed, ListMail>,
    alloc: Global,
    events: u32,
) -> Result<(), WantOfMemory> {
    let t = Turn {
        proc: ProcNo { no: 0 },
        pick: 0,
    };
    for _ in world.events()..events {
        if world.n() == 0 || world.events() >= MAX_EVENTS {
            return Err(WantOfMemory);
        }
        world.turn(alloc, t, &FreeGate)?;
    }
    Ok(())
}

/// Whether all that are kept have fewer events.
fn is_longer(kept: &Checkpoints<Listed, ListMail>, events: u32) -> bool
    ensures { result ≡ true → AreBelow events kept.now }
{
    match kept.longest() {
        None => true,
        Some(longest) => longest < events,
    }
}

/// Keeps a world at each multiple of `each` up to `most`.
fn kept_each(
    alloc: Global,
    each: u32,
    most: u32,
) -> Result<Checkpoints<Listed, ListMail>, WantOfMemory>
    requires { 0 < each }
{
    let mut kept = Checkpoints::new(alloc)?;
    let mut world = beginning(alloc)?;
    for events in 1..=most {
        go_on(&mut world, alloc, events)?;
        if events % each == 0 && is_longer(&kept, world.events()) {
            kept.keep(alloc, &world)?;
        }
    }
    Ok(kept)
}

/// What going back gives, as a number of events, and the longest that is kept then.
fn goes_back(
    kept: &mut Checkpoints<Listed, ListMail>,
    alloc: Global,
    k: u32,
) -> Result<(Option<u32>, Option<u32>), WantOfMemory> {
    let world = kept.back_to(alloc, k)?;
    Ok((world.map(|w| w.events()), kept.longest()))
}

/// Each call on its own, with worlds of 64 and 128 events kept; and a copy goes on from where it is.
#[test]
fn goes_back_to_the_last(rt: HostRuntime) -> Result<(), Fail> {
    let alloc = rt.alloc();
    for (k, given, longest) in [
        (63, None, None),
        (64, Some(64), Some(64)),
        (127, Some(64), Some(64)),
        (128, Some(128), Some(128)),
    ] {
        let mut kept = kept_each(alloc, 64, 128)?;
        assert_eq!(rt; goes_back(&mut kept, alloc, k)?, (given, longest));
    }
    let mut kept = kept_each(alloc, 64, 128)?;
    let Some(mut world) = kept.back_to(alloc, 100)? else {
        return Err("no world")?;
    };
    go_on(&mut world, alloc, 128)?;
    assert_eq!(rt; world.events(), 128);
    Ok(())
}

/// When the seventeenth is kept, those at the places 1, 3, .., 15 are dropped.
#[test]
fn thins_what_is_kept(rt: HostRuntime) -> Result<(), Fail> {
    let alloc = rt.alloc();
    let mut kept = kept_each(alloc, 1, 16)?;
    assert_eq!(rt; goes_back(&mut kept, alloc, 16)?, (Some(16), Some(16)));
    assert_eq!(rt; goes_back(&mut kept, alloc, 14)?, (Some(14), Some(14)));
    let mut kept = kept_each(alloc, 1, 18)?;
    for (k, given) in [
        (18, Some(18)),
        (17, Some(17)),
        (16, Some(15)),
        (14, Some(13)),
        (2, Some(1)),
        (0, None),
    ] {
        assert_eq!(rt; goes_back(&mut kept, alloc, k)?, (given, given));
    }
    Ok(())
}
