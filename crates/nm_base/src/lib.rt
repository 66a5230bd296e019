//! What every other crate speaks of: processes, letters, kinds of events, lists, want of memory
//! and the arithmetic of 32-bit words. The scripts of processes stand here as definitions.
#![tactic(auto)]

mod arithmetic;
mod bytes;
mod channels;
mod decimal;
mod kind;
mod letter;
mod limits;
mod list;
mod memory;
mod operator;

pub use arithmetic::{
    add_int, add_unsigned, apply_binary, apply_unary, as_int, div_int, div_unsigned, mul_int,
    mul_unsigned, neg_int, rem_int, rem_unsigned, shl_int, shl_unsigned, shr_int, shr_unsigned,
    sub_int, sub_unsigned,
};
pub use bytes::Bytes;
pub use channels::has_channel;
pub use decimal::number;
pub use kind::{FaultCause, Kind};
pub use letter::{AcceptNote, Letter, LetterId, ProcNo, Stamp};
pub use limits::{
    MAX_DATA_WORDS, MAX_EVENTS, MAX_OUTPUT_BYTES, MAX_PROCESSES, MAX_PROGRAM_BYTES,
    MAX_SCHEDULE_BYTES, MAX_TRACE_BYTES, MAX_TURNS,
};
pub use list::List;
pub use memory::WantOfMemory;
pub use operator::{BinaryOp, Ctype, UnaryOp};

#[cfg(test)]
mod tests;
