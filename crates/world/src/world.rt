//! A world and its turns.

ghost use Rattle.std.specs.Prelude.{◌≡◌, ℕ, ◌+◌, ◌%◌, ◌<◌, ◌≤◌, List, [], ◌∷◌, ◌++◌, length, true, false, Some, slice_get, map, option_map, IfOk, OnErr, Contains};
ghost use Rattle.std.specs.Option.{option_to_list};
ghost use Rattle.nm_base.specs.declared.limits.TheConstants.{MAX_EVENTS};
ghost use Rattle.processes.specs.declared.proc.Look.{Look};
ghost use Rattle.nm_base.specs.Scripts.{Script};
ghost use Rattle.processes.specs.Seats.{process_in};
ghost use Rattle.mailboxes.specs.Letters.{is_named, allowed};
ghost use Rattle.nm_base.specs.declared.letter.Letter.{Letter};
ghost use Rattle.event_list.specs.declared.Event.{Event};
ghost use Rattle.event_list.specs.Events.{count, receives};
ghost use Rattle.event_list.specs.Clocks.{clocks};
ghost use Rattle.vector_clocks.specs.Parts.{part, part_of};
ghost use Rattle.world.specs.Moves.{stamped};
ghost use Rattle.world.specs.Worlds.{IsWorldOf, StandsForAll, AreNumbered};
ghost use Rattle.world.specs.Outcomes.{HasTurned, HasMade, HasAccepted, Begins};

use crate::seats::Seats;
use event_list::Event;
use mailboxes::{Gate, Mail};
use nm_base::{Letter, LetterId, ProcNo, Stamp, WantOfMemory};
use processes::{Look, Proc, Seat};
use schedules::Turn;
use std::alloc::Global;
use std::marker::Model;
use vector_clocks::Clocks;

/// Why a turn changed nothing.
#[derive(Clone, Copy, Debug, PartialEq, Eq)]
pub enum Idle {
    /// The process is over.
    Over,
    /// The gate lets it go no further.
    AtCount,
    /// It waits, and no letter is allowed.
    NoLetter,
}

/// What a turn did. The letter is the one that was sent or accepted.
#[derive(Clone, Copy, Debug)]
pub enum Turned {
    Idle(Idle),
    Went {
        event: Event,
        letter: Option<Letter>,
    },
}

/// The processes of a run, with the letters on their way. It stands for scripts and a list of events.
#[derive(Drop)]
pub struct World<P: Proc, M: Mail> {
    seats: Seats<P>,
    mail: M,
    clocks: Clocks,
    receives: [u32; 32],
    sent: u32,
    accepted: u32,
    events: u32,
}

impl<P: Proc, M: Mail> Model for World<P, M> {
    ghost use Rattle.world.specs.Worlds.{Parts, IsWorld};

    ghost Value = { Parts P M };

    ghost view = { λ w. record {
      processes = w.seats;
      mail = w.mail;
      letters = M.letters w.mail;
      mask = M.ordered w.mail;
      clocks = w.clocks;
      receives = w.receives;
      sent = w.sent;
      accepted = w.accepted;
      events = w.events;
    } };

    ghost invariant = { λ w. IsWorld P.stands_for P.name_of (record {
      processes = w.seats;
      mail = w.mail;
      letters = M.letters w.mail;
      mask = M.ordered w.mail;
      clocks = w.clocks;
      receives = w.receives;
      sent = w.sent;
      accepted = w.accepted;
      events = w.events;
    }) };
}

impl<P: Proc, M: Mail> World<P, M> {
    /// A world before its first event: 1 to 32 processes, the i-th with number i, each of which
    /// made no event and accepted no letter. The channels of the mask are ordered: bit c stands for
    /// channel c.
    pub fn new(alloc: Global, seats: Vec<Seat<P>>, mask: u32) -> Result<World<P, M>, WantOfMemory>
        requires some { 0 < length seats.items }
        requires few { length seats.items ≤ 32 }
        requires names { AreNumbered P.name_of (map process_in seats.items) }
        requires begins { (p : ℕ) (x : P) → slice_get (map process_in seats.items) p ≡ Some x
            → (s : Script) × P.stands_for x s [] 0 }
        ensures processes { IfOk result (λ w. w.processes ≡ map process_in seats.items) }
        ensures mask { IfOk result (λ w. w.mask ≡ mask) }
        ensures stands { IfOk result (λ w. (s : ℕ → Script) → Begins P.stands_for (map process_in seats.items) s
            → IsWorldOf P.stands_for w s []) }
    {
        let mail = M::empty(alloc, mask)?;
        let clocks = Clocks::new(seats.len() as u8);
        Ok(World {
            seats: Seats::new(seats),
            mail,
            clocks,
            receives: [0; 32],
            sent: 0,
            accepted: 0,
            events: 0,
        })
    }

    /// One turn, of the process and with the pick that it names: at most one event. It needs that
    /// fewer than 1,000,000 events happened, or that the gate lets the process go no further. Where
    /// memory is refused no event happened, and the world stands for the same run.
    #[inline(always)]
    pub fn turn<G: Gate>(
        &mut self,
        alloc: Global,
        t: Turn,
        gate: &G,
    ) -> Result<Turned, WantOfMemory>
        requires process { t.proc.no < length self.old.processes }
        requires room { (x : P) → slice_get self.old.processes t.proc.no ≡ Some x
            → G.lets_go gate.now t.proc.no (P.count_of x) ≡ true → self.old.events < MAX_EVENTS }
        ensures turned { IfOk result (λ what. (s : ℕ → Script) (E : List Event) → IsWorldOf P.stands_for self.old s E
            → HasTurned P.stands_for self.old.mask (record { lets = G.lets gate.now; lets_go = G.lets_go gate.now })
            self.new s E (record { proc = t.proc.no; pick = t.pick }) what) }
        ensures refused { OnErr result (StandsForAll P.stands_for self.old self.new) }
        ensures size { length self.new.processes ≡ length self.old.processes }
        ensures origins { map P.origin_of self.new.processes ≡ map P.origin_of self.old.processes }
        ensures mask { self.new.mask ≡ self.old.mask }
    {
        let process = self.seat(t.proc).process();
        let look = process.look();
        let may_go = gate.may_go(t.proc, process.count());
        match look {
            Look::Ended { .. } => Ok(Turned::Idle(Idle::Over)),
            Look::Faulted { .. } => Ok(Turned::Idle(Idle::Over)),
            Look::Able if may_go => self.make(alloc, t.proc),
            Look::Able => Ok(Turned::Idle(Idle::AtCount)),
            Look::Waiting { set } if may_go => Ok(self.accept(t, set, gate)),
            Look::Waiting { .. } => Ok(Turned::Idle(Idle::AtCount)),
        }
    }

    /// The process of this number, in its seat.
    pub fn seat(&self, p: ProcNo) -> &Seat<P>
        requires { p.no < length self.now.processes }
        ensures process { slice_get self.now.processes p.no ≡ Some (process_in result.now) }
        ensures name { P.name_of (process_in result.now) ≡ record { no = p.no } }
    {
        self.seats.at(p.no as usize)
    }

    /// The letters that were sent and not accepted.
    pub fn mail(&self) -> &M
        ensures mail { result.now ≡ self.now.mail }
        ensures letters { M.letters result.now ≡ self.now.letters }
    {
        &self.mail
    }

    /// The set of the ordered channels: bit c stands for channel c.
    pub fn mask(&self) -> u32
        ensures { result ≡ self.now.mask }
    {
        self.mail.order()
    }

    /// A world that stands for whatever this one stands for.
    pub fn copy(&self, alloc: Global) -> Result<World<P, M>, WantOfMemory>
        ensures same { IfOk result (λ w. StandsForAll P.stands_for self.now w) }
        ensures size { IfOk result (λ w. length w.processes ≡ length self.now.processes) }
        ensures origins { IfOk result (λ w. map P.origin_of w.processes ≡ map P.origin_of self.now.processes) }
        ensures letters { IfOk result (λ w. w.letters ≡ self.now.letters) }
        ensures mask { IfOk result (λ w. w.mask ≡ self.now.mask) }
        ensures events { IfOk result (λ w. w.events ≡ self.now.events) }
    {
        let seats = self.seats.copy(alloc)?;
        let mail = self.mail.copy(alloc)?;
        Ok(World {
            seats,
            mail,
            clocks: self.clocks.copy(),
            receives: self.receives,
            sent: self.sent,
            accepted: self.accepted,
            events: self.events,
        })
    }

    /// The clock of the process: it counts the past of its last event.
    pub fn clock(&self, p: ProcNo) -> &Stamp
        requires { p.no < length self.now.processes }
        ensures { (s : ℕ → Script) (E : List Event) → IsWorldOf P.stands_for self.now s E → (q : ℕ)
            → part result.now q ≡ (clocks E).clock p.no q }
    {
        self.clocks.stamp(p)
    }

    /// The number of its events.
    pub fn count(&self, p: ProcNo) -> u32
        requires { p.no < length self.now.processes }
        ensures { (s : ℕ → Script) (E : List Event) → IsWorldOf P.stands_for self.now s E → result ≡ count E p.no }
    {
        self.seat(p).process().count()
    }

    /// The number of its receives.
    pub fn receives(&self, p: ProcNo) -> u32
        requires { p.no < length self.now.processes }
        ensures { (s : ℕ → Script) (E : List Event) → IsWorldOf P.stands_for self.now s E → result ≡ receives E p.no }
    {
        self.receives[p.no as usize]
    }

    /// The number of processes.
    pub fn n(&self) -> u8
        ensures { result ≡ length self.now.processes }
    {
        self.seats.len() as u8
    }

    /// The number of events that happened.
    pub fn events(&self) -> u32
        ensures { result ≡ self.now.events }
    {
        self.events
    }

    /// The number of letters that were sent.
    pub fn sent(&self) -> u32
        ensures { result ≡ self.now.sent }
    {
        self.sent
    }

    /// The number of letters that were accepted.
    pub fn accepted(&self) -> u32
        ensures { result ≡ self.now.accepted }
    {
        self.accepted
    }

    /// A process that is able makes its next event.
    #[inline(always)]
    fn make(&mut self, alloc: Global, p: ProcNo) -> Result<Turned, WantOfMemory>
        requires process { p.no < length self.old.processes }
        requires able { (x : P) → slice_get self.old.processes p.no ≡ Some x → P.look_of x ≡ Look.Able }
        requires room { self.old.events < MAX_EVENTS }
        ensures made { IfOk result (λ what. (s : ℕ → Script) (E : List Event) → IsWorldOf P.stands_for self.old s E
            → HasMade P.stands_for self.new s E p.no what) }
        ensures refused { OnErr result (StandsForAll P.stands_for self.old self.new) }
        ensures size { length self.new.processes ≡ length self.old.processes }
        ensures origins { map P.origin_of self.new.processes ≡ map P.origin_of self.old.processes }
        ensures mask { self.new.mask ≡ self.old.mask }
    {
        self.mail.reserve(alloc)?;
        let (kind, letter) = self.seats.step(alloc, p.no as usize)?;
        self.clocks.tick(p);
        let stamp = self.clocks.stamp(p);
        let (letter, sent) = post(&mut self.mail, alloc, letter, self.sent, stamp);
        self.sent = sent;
        self.events += 1;
        let event = Event {
            proc: p,
            number: self.seats.at(p.no as usize).process().count(),
            kind,
        };
        Ok(Turned::Went { event, letter })
    }

    /// A process that wants a letter accepts the one that the pick names, if any is allowed.
    #[inline(always)]
    fn accept<G: Gate>(&mut self, t: Turn, set: u32, gate: &G) -> Turned
        requires process { t.proc.no < length self.old.processes }
        requires waiting { (x : P) → slice_get self.old.processes t.proc.no ≡ Some x → P.look_of x ≡ Look.Waiting set }
        requires room { self.old.events < MAX_EVENTS }
        ensures accepted { (s : ℕ → Script) (E : List Event) → IsWorldOf P.stands_for self.old s E
            → HasAccepted P.stands_for self.old.mask (record { lets = G.lets gate.now; lets_go = G.lets_go gate.now })
            self.new s E t.proc.no set t.pick result }
        ensures size { length self.new.processes ≡ length self.old.processes }
        ensures origins { map P.origin_of self.new.processes ≡ map P.origin_of self.old.processes }
        ensures mask { self.new.mask ≡ self.old.mask }
    {
        let p = t.proc;
        let receive = self.receives[p.no as usize];
        let Some(id) = chosen(&self.mail, t, set, receive, gate) else {
            return Turned::Idle(Idle::NoLetter);
        };
        let letter = self.mail.take(id);
        let kind = self.seats.give(p.no as usize, letter);
        self.clocks.tick(p);
        self.clocks.merge(p, &letter.stamp);
        self.receives[p.no as usize] += 1;
        self.accepted += 1;
        self.events += 1;
        let event = Event {
            proc: p,
            number: self.seats.at(p.no as usize).process().count(),
            kind,
        };
        Turned::Went {
            event,
            letter: Some(letter),
        }
    }
}

/// The name of the letter that the turn's pick names among those that the receive may accept, if
/// there is any.
fn chosen<M: Mail, G: Gate>(mail: &M, t: Turn, set: u32, receive: u32, gate: &G) -> Option<LetterId>
    ensures { let lets = G.lets gate.now t.proc.no receive in
        let mine = allowed (M.ordered mail.now) lets t.proc.no set (M.letters mail.now) in
        slice_get (map (λ l. l.id) mine) (t.pick % length mine) ≡ result }
{
    if t.pick == 0 {
        return mail.first_allowed(t.proc, set, receive, gate);
    }
    let count = mail.count(t.proc, set, receive, gate);
    if count == 0 {
        return None;
    }
    Some(mail.kth(t.proc, set, receive, gate, t.pick % count))
}

/// Posts a letter, if there is one, and counts it.
fn post<M: Mail>(
    mail: &mut M,
    alloc: Global,
    letter: Option<Letter>,
    sent: u32,
    stamp: &Stamp,
) -> (Option<Letter>, u32)
    requires room { 0 < M.spare mail.old }
    requires last { (w : Letter) → Contains (M.letters mail.old) w → w.posted < sent }
    requires few { sent < MAX_EVENTS }
    requires unnamed { (l : Letter) → letter ≡ Some l → (w : Letter) → Contains (M.letters mail.old) w
        → is_named l.id w ≡ false }
    ensures letter { result.0 ≡ option_map (stamped sent stamp.now) letter }
    ensures posted { M.letters mail.new ≡ M.letters mail.old ++ option_to_list result.0 }
    ensures order { M.ordered mail.new ≡ M.ordered mail.old }
    ensures sent { result.1 ≡ sent + length (option_to_list letter) }
{
    match letter {
        None => (None, sent),
        Some(letter) => {
            let posted = Letter {
                posted: sent,
                stamp: *stamp,
                ..letter
            };
            match mail.post(alloc, posted) {
                Ok(()) => (Some(posted), sent + 1),
                Err(_) => unreachable!(),
            }
        }
    }
}
