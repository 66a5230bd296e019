//! A process that goes through a list of events: the plain one, for tests of what runs processes.

ghost use Rattle.std.specs.Prelude.{◌≡◌, true};
ghost use Rattle.processes.specs.Listed.{are_proper};
ghost use Rattle.nm_base.specs.Scripts.{letter_made};

use crate::proc::{Look, Proc};
use nm_base::{Kind, Letter, LetterId, ProcNo, Stamp, WantOfMemory};
use std::alloc::Global;

/// Goes through a list of kinds of events, whatever letters it accepts. An Accepted in it stands for a receive
/// with its set, of any letter.
#[derive(Drop)]
pub struct Listed {
    me: ProcNo,
    events: u32,
    kinds: Vec<Kind>,
    ghost proper: { are_proper 0 kinds.items ≡ true },
}

impl Listed {
    ghost use Rattle.std.specs.Prelude.{◌≡◌, true, []};
    ghost use Rattle.processes.specs.Listed.{are_proper, listed};

    /// The process of this number before the first of these events. They keep the laws of scripts:
    /// sends are numbered from 0 in order, each with a channel from 0 to 31 and 1 to 8 words, and
    /// nothing follows an Ended or a Faulted.
    pub fn new(me: ProcNo, kinds: Vec<Kind>) -> Listed
        requires { are_proper 0 kinds.items ≡ true }
        ensures stands { ⟦<Listed as Proc>⟧.stands_for result (listed kinds.items) [] 0 }
        ensures name { ⟦<Listed as Proc>⟧.name_of result ≡ me }
        ensures count { ⟦<Listed as Proc>⟧.count_of result ≡ 0 }
    {
        Listed {
            me,
            events: 0,
            kinds,
        }
    }
}

/// The letter of an event of this process, if it is a send.
fn letter_made(me: ProcNo, kind: Kind) -> Option<Letter>
    ensures { result ≡ letter_made me kind }
{
    let Kind::Sent {
        number,
        dest,
        chan,
        len,
        words,
    } = kind
    else {
        return None;
    };
    Some(Letter {
        id: LetterId { sender: me, number },
        dest,
        chan,
        len,
        words,
        posted: 0,
        stamp: Stamp { parts: [0; 32] },
    })
}

impl Proc for Listed {
    ghost use Rattle.std.specs.Prelude.{◌≡◌, List, slice_get};
    ghost use Rattle.nm_base.specs.declared.kind.Kind.{Kind};
    ghost use Rattle.processes.specs.Listed.{listed, look_of};
    ghost use Rattle.processes.specs.ListedFacts.{lawful_at, listed_shows};

    ghost stands_for = { λ x s letters k. (s ≡ listed x.kinds.items) × (k ≡ x.events) };

    ghost Origin = { List Kind };

    ghost origin_of = { λ x. x.kinds.items };

    ghost name_of = { λ x. x.me };

    ghost count_of = { λ x. x.events };

    ghost look_of = { λ x. look_of (slice_get x.kinds.items x.events) };

    fn me(&self) -> ProcNo {
        self.me
    }

    fn count(&self) -> u32 {
        self.events
    }

    fn look(&self) -> Look {
        match self.kinds.get(self.events as usize) {
            None => Look::Ended { value: 0 },
            Some(Kind::Accepted { set, .. }) => Look::Waiting { set: *set },
            Some(_) => Look::Able,
        }
    }

    fn step(&mut self, _alloc: Global) -> Result<(Kind, Option<Letter>), WantOfMemory> {
        let Some(kind) = self.kinds.get(self.events as usize) else {
            unreachable!()
        };
        let kind = *kind;
        self.events += 1;
        Ok((kind, letter_made(self.me, kind)))
    }

    fn give(&mut self, letter: Letter) -> Kind {
        let Look::Waiting { set } = self.look() else {
            unreachable!()
        };
        self.events += 1;
        Kind::Accepted { set, id: letter.id }
    }

    fn copy(&self, alloc: Global) -> Result<Self, WantOfMemory> {
        Ok(Listed {
            me: self.me,
            events: self.events,
            kinds: Vec::from_slice(alloc, self.kinds.as_slice())?,
        })
    }

    ghost lawful = { λ x s letters k h. lawful_at s x.kinds.items h.0 x.proper };

    ghost shows = { λ x s letters k h. listed_shows s letters k x.events x.kinds.items h.0 h.1 };

    ghost counts = { λ x s letters k h. h.1 };
}
