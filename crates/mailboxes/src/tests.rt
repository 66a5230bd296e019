//! One letter in a mail, through the traits.

ghost use Rattle.std.specs.Prelude.{◌≡◌, ◌+◌, ◌<◌, ◌^◌, [], ◌∷◌, IfOk, IfSome, Contains, true};
ghost use Rattle.nm_base.specs.declared.letter.Letter.{Letter};
ghost use Rattle.mailboxes.specs.Letters.{is_named};
ghost use Rattle.mailboxes.specs.Numbered.{AreBelow};

use crate::{FreeGate, Gate, ListMail, Mail, OrderedMail};
use nm_base::{Letter, LetterId, ProcNo, Stamp, WantOfMemory};
use std::alloc::Global;
use std::process::Abort;
use std::test::Fail;

/// A gate that lets nothing through.
struct Closed;

impl Gate for Closed {
    ghost use Rattle.std.specs.Prelude.{false};

    ghost lets = { λ g p receive id. false };

    ghost lets_go = { λ g p count. false };

    fn allows(&self, _p: ProcNo, _receive: u32, _id: LetterId) -> bool {
        false
    }

    fn may_go(&self, _p: ProcNo, _count: u32) -> bool {
        false
    }
}

/// A mail with this letter alone.
fn mail_of<M: Mail>(alloc: Global, letter: Letter) -> Result<M, WantOfMemory>
    requires { letter.posted + 1 < 2 ^ 32 }
    ensures { IfOk result (λ m. M.letters m ≡ letter ∷ []) }
{
    let mut mail = M::empty(alloc, 0)?;
    mail.reserve(alloc)?;
    match mail.post(alloc, letter) {
        Ok(()) => Ok(mail),
        Err(_) => Err(WantOfMemory),
    }
}

/// The letter is counted for its process, on its channel, where the gate lets it through; it is
/// found by its number of posting, and taken out of the mail but not of its copy.
fn holds<M: Mail>(rt: &impl Abort, alloc: Global, letter: Letter) -> Result<(), Fail>
    requires { letter.posted + 1 < 2 ^ 32 }
{
    let [zero, one] = [ProcNo { no: 0 }, ProcNo { no: 1 }];
    let id = letter.id;
    let mut mail: M = mail_of(alloc, letter)?;
    for (dest, set, count) in [(zero, 32, 1), (zero, 31, 0), (one, 32, 0)] {
        assert_eq!(rt; mail.count(dest, set, 0, &FreeGate), count);
        assert_eq!(rt; mail.count(dest, set, 0, &Closed), 0);
    }
    if mail.count(zero, 63, 0, &FreeGate) > 0 {
        assert_eq!(rt; mail.kth(zero, 63, 0, &FreeGate, 0), id);
    }
    assert_eq!(rt; mail.next_from(3).map(|l| l.id), Some(id));
    assert_eq!(rt; mail.next_from(4).map(|l| l.id), None);
    let copy = mail.copy(alloc)?;
    assert_eq!(rt; mail.take(id), letter);
    assert_eq!(rt; mail.count(zero, 32, 0, &FreeGate), 0);
    assert_eq!(rt; copy.count(zero, 32, 0, &FreeGate), 1);
    Ok(())
}

/// A letter to process 0 on channel 5, posted at 3.
#[test]
fn holds_a_letter(rt: HostRuntime) -> Result<(), Fail> {
    let letter = Letter {
        id: LetterId {
            sender: ProcNo { no: 1 },
            number: 0,
        },
        dest: ProcNo { no: 0 },
        chan: 5,
        len: 1,
        words: [7, 0, 0, 0, 0, 0, 0, 0],
        posted: 3,
        stamp: Stamp { parts: [0; 32] },
    };
    holds::<ListMail>(&rt, rt.alloc(), letter)?;
    holds::<OrderedMail>(&rt, rt.alloc(), letter)
}

/// Refuses each third letter by its number, except at later receives.
struct Thirds;

impl Gate for Thirds {
    ghost use Rattle.std.specs.Prelude.{true, nat_le, nat_lt, ◌%◌, ◌||◌};

    ghost lets = { λ g p receive id. nat_lt 0 (id.number % 3) || nat_le 200 receive };

    ghost lets_go = { λ g p count. true };

    fn allows(&self, _p: ProcNo, receive: u32, id: LetterId) -> bool {
        0 < id.number % 3 || 200 <= receive
    }

    fn may_go(&self, _p: ProcNo, _count: u32) -> bool {
        true
    }
}

/// The next number of a generator.
fn next_random(x: u32) -> u32 {
    x.wrapping_mul(1664525).wrapping_add(1013904223)
}

/// A letter between two of three processes, on one of three channels.
fn random_letter(number: u32, x: u32) -> Letter
    ensures number { result.id.number ≡ number }
    ensures posted { result.posted ≡ number }
{
    Letter {
        id: LetterId {
            sender: ProcNo {
                no: (x >> 8 & 1) as u8,
            },
            number,
        },
        dest: ProcNo {
            no: (x >> 12 & 1) as u8,
        },
        chan: (x >> 16 & 1) as u8,
        len: 1,
        words: [x, 0, 0, 0, 0, 0, 0, 0],
        posted: number,
        stamp: Stamp { parts: [0; 32] },
    }
}

/// Posts the letter, which is numbered by its posting.
fn put<M: Mail>(mail: &mut M, alloc: Global, l: Letter) -> Result<(), WantOfMemory>
    requires below { AreBelow (M.letters mail.old) l.posted }
    requires number { l.id.number ≡ l.posted }
    requires fits { l.posted + 1 < 2 ^ 32 }
    ensures { AreBelow (M.letters mail.new) (l.posted + 1) }
{
    mail.reserve(alloc)?;
    match mail.post(alloc, l) {
        Ok(()) => Ok(()),
        Err((_, want)) => Err(want),
    }
}

/// Takes the letter of this name, and says whether it was first.
fn taken<M: Mail>(mail: &mut M, id: LetterId, next: u32) -> (Letter, bool)
    requires below { AreBelow (M.letters mail.old) next }
    requires waits { (w : Letter) × Contains (M.letters mail.old) w × (is_named id w ≡ true) }
    ensures { AreBelow (M.letters mail.new) next }
{
    let first = mail.is_first(id);
    (mail.take(id), first)
}

/// The name of the letter at the place of the pick among the allowed ones.
fn picked<M: Mail, G: Gate>(mail: &M, x: u32, gate: &G) -> Option<LetterId>
    ensures { IfSome result (λ id. (w : Letter) × Contains (M.letters mail.now) w × (is_named id w ≡ true)) }
{
    let dest = ProcNo {
        no: (x >> 12 & 1) as u8,
    };
    let set = x >> 20 & 3;
    let receive = x >> 4 & 255;
    let first = mail.first_allowed(dest, set, receive, gate);
    let count = mail.count(dest, set, receive, gate);
    if x & 8 == 0 || count == 0 {
        return first;
    }
    let id = mail.kth(dest, set, receive, gate, (x >> 24) % count);
    Some(id)
}

/// Takes that letter, if there is one, and says whether it was first.
fn accept<M: Mail, G: Gate>(mail: &mut M, x: u32, gate: &G, next: u32) -> Option<(Letter, bool)>
    requires { AreBelow (M.letters mail.old) next }
    ensures { AreBelow (M.letters mail.new) next }
{
    let id = picked(mail, x, gate)?;
    Some(taken(mail, id, next))
}

/// A random post, or a random receive and what it took.
fn change<M: Mail>(
    mail: &mut M,
    alloc: Global,
    x: u32,
    step: u32,
) -> Result<Option<(Letter, bool)>, WantOfMemory>
    requires below { AreBelow (M.letters mail.old) step }
    requires fits { step + 1 < 2 ^ 32 }
    ensures { AreBelow (M.letters mail.new) (step + 1) }
{
    if x >> 28 < 9 {
        let letter = random_letter(step, x);
        put(mail, alloc, letter)?;
        return Ok(None);
    }
    let taken = accept(mail, x, &Thirds, step);
    Ok(taken)
}

/// The plain mail and the ordered one answer alike, over random posts and receives.
fn are_alike(rt: &impl Abort, alloc: Global, mask: u32) -> Result<(), Fail> {
    let mut plain = ListMail::empty(alloc, mask)?;
    let mut ordered = OrderedMail::empty(alloc, mask)?;
    let mut x = mask;
    let mut taken = 0;
    for step in 0..600 {
        x = next_random(x);
        let one = change(&mut plain, alloc, x, step)?;
        let other = change(&mut ordered, alloc, x, step)?;
        assert_eq!(rt; one, other);
        if one.is_some() {
            taken = step;
        }
        let from = x % 600;
        assert_eq!(rt;
            plain.next_from(from).copied(),
            ordered.next_from(from).copied()
        );
    }
    assert!(rt; taken > 500);
    Ok(())
}

/// Without ordered channels, with one and with all.
#[test]
fn mails_are_alike(rt: HostRuntime) -> Result<(), Fail> {
    are_alike(&rt, rt.alloc(), 0)?;
    are_alike(&rt, rt.alloc(), 1)?;
    are_alike(&rt, rt.alloc(), u32::MAX)
}
