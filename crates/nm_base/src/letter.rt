//! Processes, and the letters that they send to each other.

/// The number of a process, below 32.
#[derive(Clone, Copy, Debug, PartialEq, Eq, Hash)]
pub struct ProcNo {
    pub no: u8,
}

/// A letter is named by its sender and the number of the send among the sender's, from 0.
#[derive(Clone, Copy, Debug, PartialEq, Eq, Hash)]
pub struct LetterId {
    pub sender: ProcNo,
    pub number: u32,
}

/// A vector timestamp (Fidge, Mattern): part q of the timestamp of an event is the number of
/// q's events that are this event or happen before it.
#[derive(Clone, Copy, Debug, PartialEq, Eq)]
pub struct Stamp {
    pub parts: [u32; 32],
}

/// A letter on its way: 1 to 8 words on a channel from 0 to 31.
#[derive(Clone, Copy, Debug, PartialEq, Eq)]
pub struct Letter {
    pub id: LetterId,
    pub dest: ProcNo,
    pub chan: u8,
    /// How many words it has. Those of `words` past them are 0.
    pub len: u8,
    pub words: [u32; 8],
    /// The number of letters sent in the run before this one.
    pub posted: u32,
    /// The sender's vector timestamp of the send.
    pub stamp: Stamp,
}

/// The receiver's receive of this number, counted from 0, accepted this letter.
#[derive(Clone, Copy, Debug, PartialEq, Eq)]
pub struct AcceptNote {
    pub receiver: ProcNo,
    pub receive: u32,
    pub id: LetterId,
}
