//! A walk through a list of events, which finds what an event didn't happen before.

ghost use Rattle.std.specs.Prelude.{◌≡◌, ℕ, ◌<◌, slice_index};
ghost use Rattle.nm_base.specs.declared.limits.TheConstants.{MAX_PROCESSES};
ghost use Rattle.event_list.specs.Events.{letter_of, taken_of};
ghost use Rattle.causal_stop.specs.private.Walks.{IsFromProcess, is_name_among, is_free, events_with, letters_sent};

use event_list::Event;
use nm_base::Kind;

/// What is free so far of the event that is left out: each process's first so many events, and its first
/// so many letters.
#[derive(Clone, Copy)]
pub struct Free {
    pub events: [u32; 32],
    pub letters: [u64; 32],
}

impl Free {
    /// Before the first event.
    pub fn new() -> Free
        ensures events { (q : ℕ) → slice_index result.events q ≡ 0 }
        ensures letters { (q : ℕ) → slice_index result.letters q ≡ 0 }
    {
        Free {
            events: [0; 32],
            letters: [0; 32],
        }
    }

    /// Takes in the next event, which isn't the one that is left out.
    pub fn take_in(&mut self, e: &Event)
        requires process { e.now.proc.no < MAX_PROCESSES }
        requires sender { IsFromProcess (taken_of e.now) }
        ensures events { (q : ℕ)
            → let free = is_free (slice_index self.old.events) (slice_index self.old.letters) e.now in
            slice_index self.new.events q ≡ events_with free (slice_index self.old.events) e.now q }
        ensures letters { (q : ℕ)
            → let free = is_free (slice_index self.old.events) (slice_index self.old.letters) e.now in
            slice_index self.new.letters q ≡ letters_sent free (slice_index self.old.letters) (letter_of e.now) q }
    {
        if !self.has_free(e) {
            return;
        }
        let p = e.proc.no as usize;
        self.events[p] = self.events[p].max(e.number);
        if let Kind::Sent { number, .. } = e.kind {
            self.letters[p] = self.letters[p].max(u64::from(number) + 1);
        }
    }

    /// Whether the event is free.
    fn has_free(&self, e: &Event) -> bool
        requires process { e.now.proc.no < MAX_PROCESSES }
        requires sender { IsFromProcess (taken_of e.now) }
        ensures { result ≡ is_free (slice_index self.now.events) (slice_index self.now.letters) e.now }
    {
        u64::from(self.events[e.proc.no as usize]) + 1 == u64::from(e.number) && self.has_letter(e)
    }

    /// Whether the event is no receive, or accepts a letter that is free.
    fn has_letter(&self, e: &Event) -> bool
        requires { IsFromProcess (taken_of e.now) }
        ensures { result ≡ is_name_among (slice_index self.now.letters) (taken_of e.now) }
    {
        match e.kind {
            Kind::Accepted { id, .. } => u64::from(id.number) < self.letters[id.sender.no as usize],
            _ => true,
        }
    }
}
