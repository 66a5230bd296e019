//! Vector clocks (Fidge, Mattern): part q of the clock of process p is the number of q's events
//! that p's last event is or that happened before it.
#![tactic(auto)]

ghost use Rattle.std.specs.Prelude.{◌≡◌, ℕ, ◌+◌, ◌^◌, ◌<◌, ◌==◌, max, if◌then◌else◌};
ghost use Rattle.vector_clocks.specs.Parts.{part, part_of, ticked_part, merged_part};

#[cfg(test)]
mod tests;

use nm_base::{ProcNo, Stamp};
use std::marker::Model;

/// The clock of each process. Contracts see the list of the clocks, by the processes' numbers.
#[derive(Drop)]
pub struct Clocks {
    stamps: [Stamp; 32],
}

impl Model for Clocks {
    ghost use Rattle.std.specs.Prelude.{List};
    ghost use Rattle.nm_base.specs.declared.letter.Stamp.{Stamp};

    ghost Value = { List Stamp };

    ghost view = { λ c. c.stamps };
}

impl Clocks {
    /// The clocks of n processes before their first events: all parts are 0. The number tells the
    /// reader of a call how many processes there are, and nothing is made by it: there are 32 clocks
    /// of 32 parts whatever n is, and the parts from n on stay 0 as long as nothing else is brought
    /// to them.
    pub fn new(_n: u8) -> Clocks
        ensures { (p q : ℕ) → part_of result p q ≡ 0 }
    {
        Clocks {
            stamps: [Stamp { parts: [0; 32] }; 32],
        }
    }

    /// Clocks with the same parts.
    pub fn copy(&self) -> Clocks
        ensures { result ≡ self.now }
    {
        Clocks {
            stamps: self.stamps,
        }
    }

    /// Counts one more event of the process in its own clock. That part must be below 4,294,967,295.
    pub fn tick(&mut self, p: ProcNo)
        requires process { p.no < 32 }
        requires room { part_of self.old p.no p.no + 1 < 2 ^ 32 }
        ensures { (r q : ℕ) → part_of self.new r q ≡ ticked_part (part_of self.old) p.no r q }
    {
        self.stamps[p.no as usize] = counted(&self.stamps[p.no as usize], p);
    }

    /// The process's clock.
    pub fn stamp(&self, p: ProcNo) -> &Stamp
        requires { p.no < 32 }
        ensures { (q : ℕ) → part result.now q ≡ part_of self.now p.no q }
    {
        &self.stamps[p.no as usize]
    }

    /// Takes the greater of each part of the process's clock and of a timestamp.
    pub fn merge(&mut self, p: ProcNo, s: &Stamp)
        requires { p.no < 32 }
        ensures { (r q : ℕ) → part_of self.new r q ≡ merged_part (part_of self.old) p.no (part s.now) r q }
    {
        self.stamps[p.no as usize] = greater(&self.stamps[p.no as usize], s);
    }
}

/// One more in the part of the process.
fn counted(s: &Stamp, p: ProcNo) -> Stamp
    requires process { p.no < 32 }
    requires room { part s.now p.no + 1 < 2 ^ 32 }
    ensures { (q : ℕ) → part result q ≡ (if q == p.no then part s.now q + 1 else part s.now q) }
{
    let mut parts = s.parts;
    parts[p.no as usize] += 1;
    Stamp { parts }
}

/// The greater of each part.
fn greater(a: &Stamp, b: &Stamp) -> Stamp
    ensures { (q : ℕ) → part result q ≡ max (part a.now q) (part b.now q) }
{
    let mut parts = a.parts;
    for i in 0..32 {
        parts[i] = parts[i].max(b.parts[i]);
    }
    Stamp { parts }
}
