//! A program and a trace of it.

ghost use Rattle.std.specs.Prelude.{◌≡◌, ◌≤◌, ◌+◌, List, ℕ, [], length, IfSome, IfOk, IfErr, OnOk};
ghost use Rattle.nm_base.specs.declared.limits.TheConstants.{MAX_TRACE_BYTES};
ghost use Rattle.nm_outside.specs.Files.{Files};
ghost use Rattle.trace_file.specs.Rules.{IsTrace};
ghost use Rattle.nm_top.specs.Answers.{pair_demands};
ghost use Rattle.nm_top.specs.Demands.{AreReplayed, HasDigest, IsFetched, SameProgram};
ghost use Rattle.nm_top.specs.private.Works.{Counts, Gives, IsOfText, IsUnmet};

use crate::fetch::{Source, program_in, trace_in};
use crate::stop::Stop;
use c_tree::Program;
use nm_outside::Cabinet;
use report::Refusal;
use std::alloc::Global;
use trace_file::Trace;

/// A program, and a trace with the digest of its file.
#[derive(Drop)]
pub struct Pair {
    pub program: Program,
    pub trace: Trace,
}

// Whether the trace has this digest.
fn same_program<'a>(digest: &[u8; 32], trace: &Trace) -> Result<(), Stop<'a>>
    ensures same { OnOk result (trace.now.digest ≡ digest.now) }
    ensures unmet { IfErr result (λ stop. (held : Files) (program name : List ℕ)
        → HasDigest held program name trace.now digest.now → IsUnmet (SameProgram program name) held [] stop) }
    ensures text { IfErr result IsOfText }
{
    if trace.digest() == digest {
        return Ok(());
    }
    Err(Stop::Refused(Refusal::OtherProgram {
        of_trace: *trace.digest(),
        of_file: *digest,
    }))
}

/// The program in the first file, and the trace in the second, which has the digest of the first.
pub fn pair_in<'a, C: Cabinet>(
    alloc: Global,
    files: &mut C,
    program: &'a str,
    trace: &'a str,
) -> Result<Pair, Stop<'a>>
    ensures gives { IfSome (C.files files.old) (λ held.
        Gives (λ pair. AreReplayed held program.now trace.now pair.program pair.trace)
        (pair_demands program.now trace.now) held result) }
    ensures trace { IfOk result (λ pair. IsTrace pair.trace) }
    ensures few { IfOk result (λ pair. length pair.trace.notes + length pair.trace.lost ≤ MAX_TRACE_BYTES) }
    ensures counts { Counts (IsFetched (pair_demands program.now trace.now)) (C.absents files.old)
        (C.absents files.new) (C.read_faults files.old) (C.read_faults files.new) result }
    ensures files { C.files files.new ≡ C.files files.old }
    ensures writes { C.write_faults files.new ≡ C.write_faults files.old }
    ensures room { C.sure_room files.new ≡ C.sure_room files.old }
{
    let source = match program_in(alloc, files, program) {
        Ok(source) => source,
        Err(stop) => return Err(stop),
    };
    let trace = match trace_in(alloc, files, trace) {
        Ok(trace) => trace,
        Err(stop) => return Err(stop),
    };
    match same_program(&source.digest, &trace) {
        Ok(()) => Ok(Pair {
            program: source.program,
            trace,
        }),
        Err(stop) => Err(stop),
    }
}
