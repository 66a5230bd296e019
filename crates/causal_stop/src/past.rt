//! A walk back through a list of events, which finds what happened before one of them.

ghost use Rattle.std.specs.Prelude.{◌≡◌, ℕ, ◌<◌, ◌==◌, slice_index, if◌then◌else◌};
ghost use Rattle.nm_base.specs.declared.limits.TheConstants.{MAX_PROCESSES};
ghost use Rattle.event_list.specs.Events.{letter_of, taken_of};
ghost use Rattle.causal_stop.specs.private.Walks.{IsFromProcess, is_among, is_needed, events_with, letters_with};

use event_list::Event;
use nm_base::{Kind, ProcNo};

/// What is needed so far: each process's first so many events, and its first so many letters, whose
/// sends are still to come.
#[derive(Clone, Copy)]
pub struct Needs {
    pub events: [u32; 32],
    pub letters: [u64; 32],
}

impl Needs {
    /// The process's event of this number is needed.
    pub fn of(p: ProcNo, number: u32) -> Needs
        requires { p.no < MAX_PROCESSES }
        ensures events { (q : ℕ) → slice_index result.events q ≡ (if q == p.no then number else 0) }
        ensures letters { (q : ℕ) → slice_index result.letters q ≡ 0 }
    {
        let mut events = [0; 32];
        events[p.no as usize] = number;
        Needs {
            events,
            letters: [0; 32],
        }
    }

    /// Takes in the event that stands before those so far.
    pub fn take_in(&mut self, e: &Event)
        requires process { e.now.proc.no < MAX_PROCESSES }
        requires sender { IsFromProcess (taken_of e.now) }
        ensures events { (q : ℕ)
            → let needed = is_needed (slice_index self.old.events) (slice_index self.old.letters) e.now in
            slice_index self.new.events q ≡ events_with needed (slice_index self.old.events) e.now q }
        ensures letters { (q : ℕ)
            → let needed = is_needed (slice_index self.old.events) (slice_index self.old.letters) e.now in
            slice_index self.new.letters q ≡ letters_with needed (slice_index self.old.letters) (taken_of e.now) q }
    {
        if !self.needs(e) {
            return;
        }
        let p = e.proc.no as usize;
        self.events[p] = self.events[p].max(e.number);
        if let Kind::Accepted { id, .. } = e.kind {
            let sender = id.sender.no as usize;
            self.letters[sender] = self.letters[sender].max(u64::from(id.number) + 1);
        }
    }

    /// Whether the event is needed.
    fn needs(&self, e: &Event) -> bool
        requires { e.now.proc.no < MAX_PROCESSES }
        ensures { result ≡ is_needed (slice_index self.now.events) (slice_index self.now.letters) e.now }
    {
        let p = e.proc.no as usize;
        e.number <= self.events[p] || self.needs_letter(e)
    }

    /// Whether the event sends a letter that is needed.
    fn needs_letter(&self, e: &Event) -> bool
        requires { e.now.proc.no < MAX_PROCESSES }
        ensures { result ≡ is_among (slice_index self.now.letters) (letter_of e.now) }
    {
        match e.kind {
            Kind::Sent { number, .. } => u64::from(number) < self.letters[e.proc.no as usize],
            _ => false,
        }
    }
}
