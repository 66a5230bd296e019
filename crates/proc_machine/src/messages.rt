//! Instructions that send, receive and print.

ghost use Rattle.std.specs.Prelude.{◌≡◌, ◌+◌, ◌-◌, ◌<◌, ◌≤◌, ◌^◌, ◌∷◌, length, nat_lt, ◌&&◌, Some};
ghost use Rattle.stack_code.specs.declared.instr.Instr.TheVariants as instr;
ghost use Rattle.stack_code.specs.Machine.{conversions};
ghost use Rattle.stack_code.specs.View.{seen_code};
ghost use Rattle.proc_machine.specs.private.Ready.{IsReady};
ghost use Rattle.proc_machine.specs.private.AtSetting.{MovesAt};
ghost use Rattle.c_tree.specs.Typing.{is_conversion};

use crate::execution::{Execution, Setting};
use crate::pause::Pause;
use nm_base::{FaultCause, MAX_OUTPUT_BYTES};

/// The most bytes that a process may print.
const OUTPUT_LIMIT: usize = MAX_OUTPUT_BYTES as usize;

impl Execution {
    /// Stands before a send, or before a fault where no process or no channel has the number.
    pub(crate) fn send(&mut self, at: Setting<'_>, words: u32) -> Option<Pause>
        requires { IsReady (seen_code at.code.now) (instr.Send words) self.old }
        ensures { MovesAt at.entry (instr.Send words) self.old self.new result }
    {
        let dest = self.calls.top(words as usize + 1);
        let chan = self.calls.top(words as usize);
        if is_address(dest, chan, at.count) {
            Some(Pause::Send)
        } else {
            Some(Pause::Fault {
                cause: FaultCause::Address,
            })
        }
    }

    /// Stands before a receive on the channels of the topmost operand, or before a fault where it names
    /// none.
    pub(crate) fn receive(&mut self, at: Setting<'_>) -> Option<Pause>
        requires { IsReady (seen_code at.code.now) instr.Receive self.old }
        ensures { MovesAt at.entry instr.Receive self.old self.new result }
    {
        let set = self.calls.top(0) as u32;
        if set == 0 {
            Some(Pause::Fault {
                cause: FaultCause::EmptySet,
            })
        } else {
            Some(Pause::Receive { set })
        }
    }

    /// Stands before a print, or before a fault where the output would pass its limit.
    pub(crate) fn print(&mut self, at: Setting<'_>, text: u32) -> Option<Pause>
        requires { IsReady (seen_code at.code.now) (instr.Print text) self.old }
        ensures { MovesAt at.entry (instr.Print text) self.old self.new result }
    {
        let bytes = at.code.text(text);
        let values = self.calls.last(conversions(bytes));
        let length = self.scratch.printed_length(bytes, values);
        if self.output.len().saturating_add(length) <= OUTPUT_LIMIT {
            Some(Pause::Print)
        } else {
            Some(Pause::Fault {
                cause: FaultCause::OutputFull,
            })
        }
    }
}

/// Whether there is such a process and such a channel.
fn is_address(dest: u64, chan: u64, count: u8) -> bool
    ensures { result ≡ (nat_lt dest count && nat_lt chan 32) }
{
    dest < u64::from(count) && chan < 32
}

/// How many values a format takes.
pub(crate) fn conversions(text: &[u8]) -> usize
    ensures { result ≡ conversions text.now }
{
    let mut after_percent = false;
    let mut count = 0;
    for byte in text {
        if !after_percent {
            after_percent = *byte == b'%';
        } else {
            if *byte != b'%' {
                if !is_conversion(*byte) {
                    return 0;
                }
                count += 1;
            }
            after_percent = false;
        }
    }
    if after_percent { 0 } else { count }
}

fn is_conversion(byte: u8) -> bool
    ensures { result ≡ is_conversion byte }
{
    byte == b'd' || byte == b'u' || byte == b'x' || byte == b'c'
}
