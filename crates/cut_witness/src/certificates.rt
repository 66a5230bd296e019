//! What a certificate says.

use nm_base::{LetterId, List, ProcNo};

/// One turn of a certificate: a process, and the letter that it accepts, if its event is a receive.
#[derive(Clone, Copy, Debug, PartialEq, Eq)]
pub struct WitnessTurn {
    pub proc: ProcNo,
    pub took: Option<LetterId>,
}

/// The certificate of a logged letter. Its turns, carried out from the start, make a run that ends with
/// the earlier receive taking the letter.
#[derive(Debug, Drop)]
pub struct Witness {
    pub id: LetterId,
    pub dest: ProcNo,
    pub chan: u8,
    /// The number of the receive that took the letter in the list, from 0.
    pub received: Option<u32>,
    /// The number of the last earlier receive that could have taken it, from 0.
    pub earlier_receive: u32,
    /// The number of this receive among its process's events, from 1.
    pub earlier_event: u32,
    /// The channels of this receive.
    pub set: u32,
    pub turns: List<WitnessTurn>,
}
