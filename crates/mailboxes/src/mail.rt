//! The trait of a mail.

use crate::gate::Gate;
use nm_base::{Letter, LetterId, ProcNo, WantOfMemory};
use std::alloc::Global;

/// The waiting letters of all processes, seen as one list in the order of their posting. The
/// numbers of posting rise, and no two letters have one name. On an ordered channel the letters of
/// one sender to one process are accepted in this order: a letter there is free where it is first
/// of them, and on every other channel each letter is free.
pub trait Mail: Sized + Drop {
    ghost use Rattle.std.specs.Prelude.{◌≡◌, ℕ, ◌+◌, ◌^◌, ◌<◌, List, [], ◌∷◌, ◌++◌, length, map, slice_get, Contains, find, Some, IfOk, OnOk, OnErr, IsOk, IfErr, option_copied, nat_le, true, false};
    ghost use Rattle.nm_base.specs.declared.letter.Letter.{Letter};
    ghost use Rattle.nm_base.specs.declared.letter.LetterId.{LetterId};
    ghost use Rattle.std.specs.List.{IsDistinct};
    ghost use Rattle.mailboxes.specs.Letters.{Rises, same_letter, allowed, is_first, is_named, Leaves};

    ghost letters: { Self → List Letter };

    // The set of the ordered channels: bit c stands for channel c.
    ghost ordered: { Self → ℕ };

    /// How many letters it takes in without memory.
    ghost spare: { Self → ℕ };

    /// A mail without letters, in which the channels of the mask are ordered: bit c stands for
    /// channel c.
    fn empty(alloc: Global, mask: u32) -> Result<Self, WantOfMemory>
        ensures none { IfOk result (λ m. letters m ≡ []) }
        ensures order { IfOk result (λ m. ordered m ≡ mask) };

    /// The set of the ordered channels.
    fn order(&self) -> u32
        ensures { result ≡ ordered self.now };

    /// Makes room for one more letter. Where memory is refused the letters are as before.
    fn reserve(&mut self, alloc: Global) -> Result<(), WantOfMemory>
        ensures same { letters self.new ≡ letters self.old }
        ensures order { ordered self.new ≡ ordered self.old }
        ensures room { OnOk result (0 < spare self.new) };

    /// Puts a letter last: it was posted after all that wait, at a number below 4,294,967,295, and
    /// none of them has its name. It takes no memory where there is room. Where memory is refused
    /// the letter comes back, and the letters are as before.
    fn post(&mut self, alloc: Global, l: Letter) -> Result<(), (Letter, WantOfMemory)>
        requires last { (w : Letter) → Contains (letters self.old) w → w.posted < l.posted }
        requires fits { l.posted + 1 < 2 ^ 32 }
        requires unnamed { (w : Letter) → Contains (letters self.old) w → is_named l.id w ≡ false }
        ensures posted { OnOk result (letters self.new ≡ letters self.old ++ l ∷ []) }
        ensures refused { OnErr result (letters self.new ≡ letters self.old) }
        ensures order { ordered self.new ≡ ordered self.old }
        ensures handed { IfErr result (λ e. e.0 ≡ l) }
        ensures room { 0 < spare self.old → IsOk result };

    /// The number of free letters that wait for this process and that its receive of this number,
    /// from 0, with this set of channels may accept.
    fn count<G: Gate>(&self, dest: ProcNo, set: u32, receive: u32, gate: &G) -> u32
        ensures { result ≡ length
            (allowed (ordered self.now) (G.lets gate.now dest.no receive) dest.no set (letters self.now)) };

    /// The name of the k-th of these letters, from 0, in the order of posting.
    fn kth<G: Gate>(&self, dest: ProcNo, set: u32, receive: u32, gate: &G, k: u32) -> LetterId
        requires { k < length
            (allowed (ordered self.now) (G.lets gate.now dest.no receive) dest.no set (letters self.now)) }
        ensures { let mine = allowed (ordered self.now) (G.lets gate.now dest.no receive) dest.no set
            (letters self.now) in
            slice_get (map (λ l. l.id) mine) k ≡ Some result };

    /// The name of the first of these letters, if there is one. It needs no count.
    fn first_allowed<G: Gate>(
        &self,
        dest: ProcNo,
        set: u32,
        receive: u32,
        gate: &G,
    ) -> Option<LetterId>
        ensures { let mine = allowed (ordered self.now) (G.lets gate.now dest.no receive) dest.no set
            (letters self.now) in
            slice_get (map (λ l. l.id) mine) 0 ≡ result };

    /// Whether no letter of the same sender, to the same process on the same channel, waits before
    /// the waiting letter of this name.
    fn is_first(&self, id: LetterId) -> bool
        requires { (w : Letter) × Contains (letters self.now) w × (is_named id w ≡ true) }
        ensures { (w : Letter) → Contains (letters self.now) w → is_named id w ≡ true
            → result ≡ is_first (letters self.now) w };

    /// Takes out the waiting letter of this name.
    fn take(&mut self, id: LetterId) -> Letter
        requires { (w : Letter) × Contains (letters self.old) w × (is_named id w ≡ true) }
        ensures name { result.id ≡ id }
        ensures order { ordered self.new ≡ ordered self.old }
        ensures taken { Leaves (letters self.old) result (letters self.new) };

    /// The first letter that was posted at this number or later.
    fn next_from(&self, posted: u32) -> Option<&Letter>
        ensures { option_copied result ≡ find (λ l. nat_le posted l.posted) (letters self.now) };

    /// A mail with the same letters and the same ordered channels.
    fn copy(&self, alloc: Global) -> Result<Self, WantOfMemory>
        ensures same { IfOk result (λ m. letters m ≡ letters self.now) }
        ensures order { IfOk result (λ m. ordered m ≡ ordered self.now) };

    /// The numbers of posting rise.
    ghost rises: { (m : Self) → Rises 0 (letters m) };

    /// No two letters have one name.
    ghost distinct: { (m : Self) → IsDistinct same_letter (letters m) };
}
