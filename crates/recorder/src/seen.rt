//! Which channels had a letter already, as the waiting letters are gone through.

ghost use Rattle.std.specs.Prelude.{◌≡◌, ℕ, List, [], ◌∷◌, ◌++◌, not, true};
ghost use Rattle.std.specs.List.{list_any};
ghost use Rattle.nm_base.specs.declared.letter.Letter.{Letter};
ghost use Rattle.mailboxes.specs.Letters.{are_rivals};
ghost use Rattle.recorder.specs.private.Seen.{has_place, Holds};

use nm_base::{Letter, MAX_PROCESSES, has_channel};

/// How many sets there are: one for each sender and receiver, 32 of each.
const SETS: usize = 1024;

/// The channels of the letters that were gone through: a set for each sender and receiver, in which bit c
/// stands for channel c. It takes no memory of its own.
#[derive(Drop)]
pub(crate) struct SeenChannels {
    of: [u32; 1024],
}

/// Whether the letter's sender, receiver and channel are numbers below 32.
pub(crate) fn has_place(letter: &Letter) -> bool
    ensures { result ≡ has_place letter.now }
{
    letter.dest.no < MAX_PROCESSES && letter.id.sender.no < MAX_PROCESSES && letter.chan < 32
}

impl SeenChannels {
    /// The sets before the first letter.
    pub(crate) fn new() -> SeenChannels
        ensures { Holds result.of [] }
    {
        SeenChannels { of: [0; SETS] }
    }

    /// Whether no letter that was gone through has this one's sender, receiver and channel. From now on the
    /// letter is one of these.
    pub(crate) fn see(&mut self, letter: &Letter) -> bool
        ensures first { has_place letter.now ≡ true → (gone : List Letter) → Holds self.old.of gone
            → result ≡ not (list_any (λ k. are_rivals k letter.now) gone) }
        ensures seen { (gone : List Letter) → Holds self.old.of gone → Holds self.new.of (gone ++ letter.now ∷ []) }
    {
        if !has_place(letter) {
            return false;
        }
        let place = letter.id.sender.no as usize * 32 + letter.dest.no as usize;
        let set = self.of[place];
        self.of[place] = set | 1 << letter.chan;
        !has_channel(set, letter.chan)
    }
}
