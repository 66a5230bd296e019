//! The tables of a tracer, and what they decide.

ghost use Rattle.std.specs.Prelude.{◌≡◌, ℕ, ◌<◌, ◌&&◌, nat_lt, not, max, slice_index, if◌then◌else◌};
ghost use Rattle.nm_base.specs.Channels.{has_channel};
ghost use Rattle.vector_clocks.specs.Parts.{part};
ghost use Rattle.race_tracer.specs.Tracing.{place};
ghost use Rattle.race_tracer.specs.private.Deciding.{has_place, since_of};

use nm_base::{Letter, MAX_PROCESSES, ProcNo, has_channel};

/// A number for each channel.
pub type ByChannel = [u32; 32];

/// How many numbers there are by sender, process and channel: 32 of each.
pub const PLACES: usize = 32_768;

/// Whether there is a place for the process, and for the letter's sender and channel.
pub fn in_range(p: ProcNo, letter: &Letter) -> bool
    ensures { result ≡ has_place p.no letter.now }
{
    p.no < MAX_PROCESSES && letter.id.sender.no < MAX_PROCESSES && letter.chan < 32
}

/// Where the number of the process's last receive stands that took a letter of this one's sender on its channel.
pub fn place_of(p: ProcNo, letter: &Letter) -> usize
    requires process { p.no < MAX_PROCESSES }
    requires sender { letter.now.id.sender.no < MAX_PROCESSES }
    requires channel { letter.now.chan < 32 }
    ensures at { result ≡ place letter.now.id.sender.no p.no letter.now.chan }
    ensures below { result < PLACES }
{
    (letter.id.sender.no as usize * 32 + p.no as usize) * 32 + letter.chan as usize
}

/// After which receive one could have taken the letter, if `taken` is the receive of its last predecessor.
pub fn since(mask: u32, letter: &Letter, taken: u32) -> u32
    requires { letter.now.chan < 32 }
    ensures { result ≡ since_of mask letter.now.chan taken }
{
    if has_channel(mask, letter.chan) {
        taken
    } else {
        0
    }
}

/// Whether a letter that waits on an ordered channel has to wait for an earlier one.
pub fn is_held(mask: u32, letter: &Letter, first: bool) -> bool
    ensures { result ≡ (has_channel mask letter.now.chan && not first) }
{
    has_channel(mask, letter.chan) && !first
}

/// Whether the last of the process's receives that names the letter's channel comes after the receive of
/// this number and after what the letter's timestamp counts.
pub fn is_late(last: &ByChannel, since: u32, p: ProcNo, letter: &Letter) -> bool
    requires process { p.no < MAX_PROCESSES }
    requires channel { letter.now.chan < 32 }
    ensures { result ≡ nat_lt (max since (part letter.now.stamp p.no)) (slice_index last.now letter.now.chan) }
{
    since.max(letter.stamp.parts[p.no as usize]) < last[letter.chan as usize]
}

/// The row after a receive with this set.
pub fn row_after(last: &ByChannel, set: u32, number: u32) -> ByChannel
    ensures { (chan : ℕ) → chan < 32
        → slice_index result chan ≡ (if has_channel set chan then number else slice_index last.now chan) }
{
    let mut row = *last;
    for chan in 0..32u8 {
        if has_channel(set, chan) {
            row[chan as usize] = number;
        }
    }
    row
}
