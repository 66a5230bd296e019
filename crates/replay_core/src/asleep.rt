//! The processes that are known to have idle turns only.

ghost use Rattle.std.specs.Prelude.{◌≡◌, ◌<◌, ℕ, true, false, get_or};
ghost use Rattle.event_list.specs.Turns.{Idle, Stays};
ghost use Rattle.world.specs.Outcomes.{outcome};
ghost use Rattle.replay_core.specs.private.Sleeping.{IsMarked, IsUnmoved, StaysAsleep};

use nm_base::{Kind, ProcNo};
use world::Turned;

/// The processes whose last turn was idle, and to which no letter was sent since. Their next turn is
/// idle, too, so nobody has to ask them.
#[derive(Drop)]
pub struct Asleep {
    pub marks: [bool; 32],
}

impl Asleep {
    /// None of them.
    pub fn none() -> Asleep
        ensures { (p : ℕ) → get_or result.marks p false ≡ false }
    {
        Asleep { marks: [false; 32] }
    }

    /// Whether the process is one of them.
    pub fn has(&self, p: u8) -> bool
        ensures { result ≡ get_or self.now.marks p false }
    {
        match self.marks.get(p as usize) {
            Some(mark) => *mark,
            None => false,
        }
    }

    /// Takes in what a turn of the process did.
    pub fn note(&mut self, p: ProcNo, turned: &Turned)
        ensures stays { (q : ℕ) → get_or self.new.marks q false ≡ true
            → StaysAsleep self.old.marks p.no (outcome turned.now) q }
        // An idle turn puts its process to sleep.
        ensures sleeps { (why : Idle) → outcome turned.now ≡ Stays why → p.no < 32
            → get_or self.new.marks p.no false ≡ true }
    {
        match turned {
            Turned::Idle(_) => self.mark(p, true),
            Turned::Went { event, .. } => self.wake(event.kind),
        }
    }

    /// Wakes the process to which an event of this kind sends a letter.
    fn wake(&mut self, kind: Kind)
        ensures { (q : ℕ) → get_or self.new.marks q false ≡ true → IsUnmoved self.old.marks kind q }
    {
        match kind {
            Kind::Sent { dest, .. } => self.mark(dest, false),
            _ => {}
        }
    }

    /// Marks the process, or takes its mark away.
    fn mark(&mut self, p: ProcNo, asleep: bool)
        ensures others { (q : ℕ) → get_or self.new.marks q false ≡ true → IsMarked self.old.marks p.no asleep q }
        ensures marked { p.no < 32 → get_or self.new.marks p.no false ≡ asleep }
    {
        let place = p.no as usize;
        if place < 32 {
            self.marks[place] = asleep;
        }
    }
}
