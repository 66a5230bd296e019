//! The gate of a trace.

ghost use Rattle.std.specs.Prelude.{◌≡◌, ℕ, ◌∷◌, ◌++◌, [], List, slice_index, Some, None, true, IfOk, OnOk, if◌then◌else◌};
ghost use Rattle.std.specs.Option.{option_or};
ghost use Rattle.indexmap.specs.IndexMap.{get};
ghost use Rattle.indexmap.specs.IndexSet.{contains};
ghost use Rattle.nm_base.specs.Message.{same_name};
ghost use Rattle.nm_base.specs.declared.letter.AcceptNote.{AcceptNote};
ghost use Rattle.nm_base.specs.declared.letter.LetterId.{LetterId};
ghost use Rattle.trace_file.specs.Content.{count_of};
ghost use Rattle.trace_file.specs.Rules.{IsTrace};
ghost use Rattle.event_list.specs.Turns.{sum_below};
ghost use Rattle.replay_core.specs.declared.gate.Receive.{Receive};
ghost use Rattle.replay_core.specs.Gates.{IsGateOf, seen_trace, same_receive};
ghost use Rattle.replay_core.specs.private.Held.{Holds};

use indexmap::{IndexMap, IndexSet};
use mailboxes::Gate;
use nm_base::{AcceptNote, LetterId, ProcNo, WantOfMemory};
use std::alloc::Global;
use std::marker::Model;
use trace_file::Trace;

/// A receive: its process, and its number among the process's receives, from 0.
#[derive(Clone, Copy, Debug, PartialEq, Eq, Hash)]
pub struct Receive {
    pub receiver: ProcNo,
    pub number: u32,
}

/// Lets a receive that the trace has a note for accept the noted letter only, and any other receive
/// no letter that the trace names; and lets no process go past its recorded count. Each question is
/// answered by looking up a letter's name or a receive, whatever the trace's length.
#[derive(Drop)]
pub struct TraceGate {
    noted: IndexMap<Receive, LetterId>,
    named: IndexSet<LetterId>,
    counts: [u32; 32],
    total: u32,
}

impl Model for TraceGate {
    ghost use Rattle.replay_core.specs.Gates.{Gating};

    ghost Value = { Gating };

    ghost view = { λ g. record { noted = g.noted.entries; named = g.named.keys; counts = g.counts; total = g.total } };
}

impl TraceGate {
    /// The gate of a trace that keeps the rules of a trace file. It takes all its memory here.
    pub fn new(alloc: Global, trace: &Trace) -> Result<TraceGate, WantOfMemory>
        requires { IsTrace trace.now }
        ensures { IfOk result (λ gate. IsGateOf gate (seen_trace trace.now)) }
    {
        let counts = counts_of(trace);
        let total = total_of(trace);
        let mut gate = TraceGate::without_entries(alloc, counts, total);
        let notes = trace.notes();
        for note in notes {
            gate.add_note(note)?;
        }
        let lost = trace.lost();
        for id in lost {
            gate.add_lost(id)?;
        }
        Ok(gate)
    }

    /// The gate of a trace without entries.
    fn without_entries(alloc: Global, counts: [u32; 32], total: u32) -> TraceGate
        ensures held { Holds result [] [] }
        ensures counts { result.counts ≡ counts }
        ensures total { result.total ≡ total }
    {
        TraceGate {
            noted: IndexMap::new(alloc),
            named: IndexSet::new(alloc),
            counts,
            total,
        }
    }

    /// Adds a note: where there are several for one receive, the first counts.
    fn add_note(&mut self, note: &AcceptNote) -> Result<(), WantOfMemory>
        ensures held { OnOk result ((notes : List AcceptNote)
            → Holds self.old notes [] → Holds self.new (notes ++ note.now ∷ []) []) }
        ensures counts { OnOk result (self.new.counts ≡ self.old.counts) }
        ensures total { OnOk result (self.new.total ≡ self.old.total) }
    {
        let receive = Receive {
            receiver: note.receiver,
            number: note.receive,
        };
        note_first(&mut self.noted, receive, note.id)?;
        name_letter(&mut self.named, note.id)?;
        Ok(())
    }

    /// Adds a letter that was never received.
    fn add_lost(&mut self, id: &LetterId) -> Result<(), WantOfMemory>
        ensures held { OnOk result ((notes : List AcceptNote) (lost : List LetterId)
            → Holds self.old notes lost → Holds self.new notes (lost ++ id.now ∷ [])) }
        ensures counts { OnOk result (self.new.counts ≡ self.old.counts) }
        ensures total { OnOk result (self.new.total ≡ self.old.total) }
    {
        name_letter(&mut self.named, *id)?;
        Ok(())
    }

    /// The sum of the recorded counts.
    pub(crate) fn total(&self) -> u32
        ensures { result ≡ self.now.total }
    {
        self.total
    }
}

/// Notes the letter for a receive that has none.
fn note_first(
    noted: &mut IndexMap<Receive, LetterId>,
    receive: Receive,
    id: LetterId,
) -> Result<(), WantOfMemory>
    ensures { OnOk result ((r : Receive) → get same_receive noted.new r
        ≡ option_or (get same_receive noted.old r) (if same_receive receive r then Some id else None)) }
{
    if noted.contains_key(&receive) {
        return Ok(());
    }
    match noted.insert(receive, id) {
        Ok(_) => Ok(()),
        Err(_) => Err(WantOfMemory),
    }
}

/// Adds a letter to the named ones.
fn name_letter(named: &mut IndexSet<LetterId>, id: LetterId) -> Result<(), WantOfMemory>
    ensures { OnOk result ((q : LetterId) → contains same_name named.new q
        ≡ (if same_name id q then true else contains same_name named.old q)) }
{
    match named.insert(id) {
        Ok(_) => Ok(()),
        Err(_) => Err(WantOfMemory),
    }
}

/// The recorded counts, and 0 for processes that there aren't.
fn counts_of(trace: &Trace) -> [u32; 32]
    requires { IsTrace trace.now }
    ensures { (p : ℕ) → slice_index result p ≡ count_of trace.now p }
{
    let mut counts = [0; 32];
    let n = trace.n();
    for p in 0..n {
        counts[p as usize] = trace.count(ProcNo { no: p });
    }
    counts
}

/// The sum of the recorded counts.
fn total_of(trace: &Trace) -> u32
    requires { IsTrace trace.now }
    ensures { result ≡ sum_below trace.now.n (count_of trace.now) }
{
    let mut total = 0;
    let n = trace.n();
    for p in 0..n {
        total += trace.count(ProcNo { no: p });
    }
    total
}

impl Gate for TraceGate {
    ghost use Rattle.replay_core.specs.Gates.{gate_lets, gate_lets_go};

    ghost lets = { gate_lets };

    ghost lets_go = { gate_lets_go };

    fn allows(&self, p: ProcNo, receive: u32, id: LetterId) -> bool {
        let receive = Receive {
            receiver: p,
            number: receive,
        };
        match self.noted.get(&receive) {
            Some(noted) => *noted == id,
            None => !self.named.contains(&id),
        }
    }

    fn may_go(&self, p: ProcNo, count: u32) -> bool {
        match self.counts.get(p.no as usize) {
            Some(most) => count < *most,
            None => false,
        }
    }
}
