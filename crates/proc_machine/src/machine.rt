//! The machine.

ghost use Rattle.proc_machine.specs.private.Kept.{IsKept};
ghost use Rattle.stack_code.specs.View.{seen_code};

use crate::events::sent_by;
use crate::execution::{Execution, Setting};
use crate::pause::Pause;
use nm_base::{FaultCause, Kind, Letter, ProcNo, WantOfMemory};
use stack_code::{Code, CodePlace};
use std::alloc::Global;

/// A process that runs code, just before an event.
#[derive(Drop)]
pub struct Machine<'c> {
    pub(crate) setting: Setting<'c>,
    pub(crate) execution: Execution,
    /// Whether there was room for a frame of `main`.
    pub(crate) begun: bool,
    pub(crate) next: Pause,
    ghost kept: { ∥ IsKept (seen_code setting.code.now) setting.count setting.me.no execution begun next ∥₁ },
}

/// A frame: the instruction at which it stands, for an outer frame its Call; the place of its slot
/// 0; and the line of its last Line event, before the first that of its function's name.
#[derive(Clone, Copy, Debug, PartialEq, Eq)]
pub struct MachineFrame {
    pub at: CodePlace,
    pub base: u32,
    pub line: u32,
}

impl<'c> Machine<'c> {
    ghost use Rattle.std.specs.Prelude.{◌≡◌, ℕ, ◌+◌, ◌<◌, ◌≤◌, ◌^◌, List, [], ◌∷◌, ◌++◌, length, slice_get, slice_index, Some, IsTrue, true, IfOk, OnOk};
    ghost use Rattle.nm_base.specs.declared.kind.Kind.{Kind};
    ghost use Rattle.nm_base.specs.declared.kind.Kind.TheVariants as kind;
    ghost use Rattle.nm_base.specs.declared.limits.TheConstants.{MAX_PROCESSES};
    ghost use Rattle.nm_base.specs.Message.{Message, message_of};
    ghost use Rattle.nm_base.specs.Scripts.{is_last, letter_made};
    ghost use Rattle.nm_base.specs.Channels.{has_channel};
    ghost use Rattle.stack_code.specs.Seek.{IsPlaceIn};
    ghost use Rattle.proc_machine.specs.declared.pause.Pause.TheVariants as pause;
    ghost use Rattle.proc_machine.specs.Pauses.{pause_of};
    ghost use Rattle.proc_machine.specs.private.Moves.{sent_by};
    ghost use Rattle.proc_machine.specs.Standing.{goes_by_itself};
    ghost use Rattle.proc_machine.specs.Machines.{MachineStandsFor, Expects, MakesNext, IsSame, IsAdvanced, HasAccepted, machine_setting, next_of, state_of, frames_of, spare_output, letters_sent};

    /// A machine that runs the code as process `me` of `n`, just before its first event. It reserves
    /// the memory for data, frames and operands. Conditions: `me` is below `n`, and `n` is 1 to 32.
    pub fn new(
        alloc: Global,
        code: &'c Code,
        me: ProcNo,
        n: u8,
    ) -> Result<Machine<'c>, WantOfMemory>
        requires known { me.no < n }
        requires few { n ≤ MAX_PROCESSES }
        ensures setting { IfOk result
            (λ m. machine_setting m ≡ record { code = seen_code code.entry.now; count = n; me = me }) }
        ensures stands { IfOk result (λ m. MachineStandsFor m [] []) }
        ensures sent { IfOk result (λ m. letters_sent m ≡ 0) }
    {
        let setting = Setting { code, me, count: n };
        let mut execution = Execution::fresh(alloc, code)?;
        if !execution.call_main(code) {
            return Ok(Machine {
                setting,
                execution,
                begun: false,
                next: Pause::Fault {
                    cause: FaultCause::DataFull,
                },
            });
        }
        let next = execution.run(setting);
        Ok(Machine {
            setting,
            execution,
            begun: true,
            next,
        })
    }

    /// What it does next.
    pub fn pending(&self) -> Pause
        ensures same { result ≡ next_of self.now }
        ensures stops { (inputs : List Message) (events : List Kind) → MachineStandsFor self.now inputs events
            → Expects (machine_setting self.now) inputs events result (state_of self.now events) }
        ensures next { (inputs : List Message) (events : List Kind) → MachineStandsFor self.now inputs events
            → MakesNext (machine_setting self.now) inputs events result }
    {
        self.next
    }

    /// The output so far.
    pub fn output(&self) -> &[u8]
        ensures { result.now ≡ (state_of self.now []).output }
    {
        self.execution.output.as_slice()
    }

    /// How many words the globals and the live frames have.
    pub fn words(&self) -> u32
        ensures { result ≡ length (state_of self.now []).words }
    {
        self.execution.words.len() as u32
    }

    /// A word of the globals or of a live frame, by its place.
    pub fn word(&self, place: u32) -> u32
        requires { place < length (state_of self.now []).words }
        ensures { result ≡ slice_index (state_of self.now []).words place }
    {
        self.execution.words.get(u64::from(place))
    }

    /// How many calls haven't returned.
    pub fn frame_count(&self) -> u32
        ensures { result ≡ length (frames_of self.now) }
    {
        if self.begun {
            self.execution.calls.callers() as u32 + 1
        } else {
            0
        }
    }

    /// The frame of that number, 0 the innermost; `i` is below `frame_count`. It stands at an
    /// instruction, also once the process is over.
    pub fn frame(&self, i: u32) -> MachineFrame
        requires { i < length (frames_of self.now) }
        ensures same { slice_get (frames_of self.now) i ≡ Some result }
        ensures placed { IsPlaceIn (machine_setting self.now).code (Some result.at) }
    {
        let frame = if i == 0 {
            self.execution.frame
        } else {
            self.execution.calls.caller(i as usize - 1).frame
        };
        MachineFrame {
            at: CodePlace {
                function: frame.function,
                place: frame.place,
            },
            base: frame.base,
            line: frame.line,
        }
    }

    /// Makes room for what one print adds to the output: 4,096 bytes.
    pub fn reserve_output(&mut self, _alloc: Global) -> Result<(), WantOfMemory>
        ensures ok { OnOk result (4096 ≤ spare_output self.new) }
        ensures same { IsSame self.old self.new }
        ensures stands { (inputs : List Message) (events : List Kind) → MachineStandsFor self.old inputs events
            → MachineStandsFor self.new inputs events }
    {
        self.execution
            .output
            .reserve(4096)
            .map_err(|_| WantOfMemory)
    }

    /// Makes the event before which it stands, and runs on to the next; a Sent comes with its
    /// letter. Conditions: it stands before no receive and isn't done, 4,096 bytes of output are
    /// spare, and it sent fewer than 4,294,967,295 letters.
    #[inline(always)]
    pub fn advance(&mut self) -> (Kind, Option<Letter>)
        requires moves { IsTrue (goes_by_itself (next_of self.old)) }
        requires spare { 4096 ≤ spare_output self.old }
        requires few { letters_sent self.old + 1 < 2 ^ 32 }
        ensures made { IsAdvanced self.old self.new result.0 }
        ensures letter { result.1 ≡ letter_made (machine_setting self.old).me result.0 }
    {
        match self.next {
            Pause::Line { line } => (self.come_to_line(line), None),
            Pause::Send => {
                let letter = self.send();
                (sent_by(&letter), Some(letter))
            }
            Pause::Print => (self.print(), None),
            Pause::End { value } => (self.end(Kind::Ended { value }), None),
            Pause::Fault { cause } => (self.end(Kind::Faulted { cause }), None),
            Pause::Receive { .. } | Pause::Done => unreachable!(),
        }
    }

    /// Accepts a letter, and runs on to the next event. Conditions: it stands before a receive, and
    /// the receive's set names the letter's channel.
    pub fn accept(&mut self, letter: Letter) -> Kind
        requires { (set : ℕ) × (next_of self.old ≡ pause.Receive set) × (has_channel set letter.chan ≡ true) }
        ensures { (set : ℕ) → next_of self.old ≡ pause.Receive set → HasAccepted self.old self.new set letter result }
    {
        match self.next {
            Pause::Receive { set } => self.take(set, letter),
            _ => unreachable!(),
        }
    }

    /// A machine that stands for the same. The memory for data, frames and operands is reserved as
    /// in `new`. Of the output only the bytes are copied: room for a print isn't promised, and
    /// `reserve_output` makes it.
    pub fn copy(&self, alloc: Global) -> Result<Machine<'c>, WantOfMemory>
        ensures same { IfOk result (IsSame self.now) }
        ensures stands { IfOk result
            (λ m. (inputs : List Message) (events : List Kind) → MachineStandsFor self.now inputs events
            → MachineStandsFor m inputs events) }
    {
        let execution = self.execution.copy(alloc)?;
        Ok(Machine {
            setting: self.setting,
            execution,
            begun: self.begun,
            next: self.next,
        })
    }

    fn come_to_line(&mut self, line: u32) -> Kind
        requires { next_of self.old ≡ pause.Line line }
        ensures made { IsAdvanced self.old self.new result }
        ensures kind_is { result ≡ kind.Line line }
    {
        self.next = self.execution.go_past_line(self.setting, line);
        Kind::Line { line }
    }

    fn send(&mut self) -> Letter
        requires waits { next_of self.old ≡ pause.Send }
        requires few { letters_sent self.old + 1 < 2 ^ 32 }
        ensures made { IsAdvanced self.old self.new (sent_by result) }
        ensures letter { Some result ≡ letter_made (machine_setting self.old).me (sent_by result) }
    {
        let words = self.execution.words_to_send(self.setting);
        let (letter, next) = self.execution.go_past_send(self.setting, words);
        self.next = next;
        letter
    }

    fn print(&mut self) -> Kind
        requires waits { next_of self.old ≡ pause.Print }
        requires spare { 4096 ≤ spare_output self.old }
        ensures made { IsAdvanced self.old self.new result }
        ensures kind_is { (bytes : ℕ) × (result ≡ kind.Printed bytes) }
    {
        let text = self.execution.text_to_print(self.setting);
        let (bytes, next) = self.execution.go_past_print(self.setting, text);
        self.next = next;
        Kind::Printed { bytes }
    }

    /// Makes the last event.
    fn end(&mut self, last: Kind) -> Kind
        requires last { IsTrue (is_last last) }
        requires waits { next_of self.old ≡ pause_of last }
        ensures made { IsAdvanced self.old self.new last }
        ensures same { result ≡ last }
    {
        self.next = Pause::Done;
        last
    }

    fn take(&mut self, set: u32, letter: Letter) -> Kind
        requires { next_of self.old ≡ pause.Receive set }
        ensures { HasAccepted self.old self.new set letter result }
    {
        self.next = self.execution.go_past_receive(self.setting, set, letter);
        Kind::Accepted { set, id: letter.id }
    }
}
