//! Writes a trace to a file.

use arrayvec::ArrayVec;
use nm_base::{AcceptNote, LetterId};
use nm_outside::{BeginFault, Cabinet, Failed};
use sha2::{Digest, Sha256};
use std::alloc::{AllocError, Global};

/// Writes a trace, item by item, to the file that is open in a cabinet. It stands for the bytes so far: it keeps the
/// number of processes, the number of bytes and the state of their digest, and no list. After a failure it is only
/// dropped. Only `begin` takes memory.
#[derive(Drop)]
pub struct TraceWriter {
    n: u8,
    size: u32,
    hasher: Sha256,

    ghost few: { n ≤ MAX_PROCESSES },
}

ghost use Rattle.std.specs.Prelude.{◌≡◌, ◌+◌, ◌<◌, ◌≤◌, ◌*◌, ◌^◌, ◌++◌, ◌⊎◌, List, ℕ, length, sum, IfOk, OnOk, OnErr, IsOk, IsSome, IsTrue, IsErrOf, is_err, false, slice_index, Some, []};
ghost use Rattle.nm_base.specs.declared.limits.TheConstants.{MAX_PROCESSES, MAX_TRACE_BYTES};
ghost use Rattle.nm_outside.specs.Begun.{has_failed};
ghost use Rattle.nm_outside.specs.Causes.{BelongsTo};
ghost use Rattle.nm_outside.specs.Files.{file_in, emptied, extended, ExtendsPart, HasRoom};
ghost use Rattle.arrayvec.specs.ArrayVec.{array_vec_len};
ghost use Rattle.sha2.specs.Hashers.{Holds256};
ghost use Rattle.trace_file.specs.Bytes as Spec;
ghost use Rattle.trace_file.specs.Content.{Content, begun, with_note, with_lost};
ghost use Rattle.trace_file.specs.Reading.{header_len};
ghost use Rattle.trace_file.specs.Rules.{IsVersion, AreCounts};

fn header_bytes(
    alloc: Global,
    version: u8,
    mask: u32,
    n: u8,
    digest: &[u8; 32],
) -> Result<Vec<u8>, AllocError>
    ensures { IfOk result (λ v. v.items ≡ Spec.header_part version mask n digest.now) }
{
    let mut header = Vec::from_slice(alloc, &[b'N', b'M', b'T', b'R', version, n])?;
    header.extend_from_slice(digest)?;
    if version == 2 {
        header.extend_from_slice(&mask.to_be_bytes())?;
    }
    Ok(header)
}

fn note_bytes(a: AcceptNote) -> [u8; 11]
    ensures { result ≡ Spec.note a }
{
    let receive = a.receive.to_be_bytes();
    let number = a.id.number.to_be_bytes();
    [
        1,
        a.receiver.no,
        receive[0],
        receive[1],
        receive[2],
        receive[3],
        a.id.sender.no,
        number[0],
        number[1],
        number[2],
        number[3],
    ]
}

fn lost_bytes(id: LetterId) -> [u8; 6]
    ensures { result ≡ Spec.lost_entry id }
{
    let number = id.number.to_be_bytes();
    [2, id.sender.no, number[0], number[1], number[2], number[3]]
}

// The counts, behind the tag of the end.
fn counts_bytes(counts: &[u32]) -> ArrayVec<u8, 161>
    requires { length counts.now ≤ MAX_PROCESSES }
    ensures items { result.items ≡ Spec.counts_part counts.now }
    ensures len { array_vec_len result ≡ 1 + 4 * length counts.now }
{
    let mut out = ArrayVec::new();
    out.push(3);
    for count in counts {
        let bytes = count.to_be_bytes();
        out.push(bytes[0]);
        out.push(bytes[1]);
        out.push(bytes[2]);
        out.push(bytes[3]);
    }
    out
}

// The end behind the bytes whose digest's state this is.
fn end_bytes(mut hasher: Sha256, counts: &[u32]) -> ArrayVec<u8, 161>
    requires { length counts.now ≤ MAX_PROCESSES }
    ensures items { (b : List ℕ) → Holds256 hasher b → result.items ≡ Spec.end_part b counts.now }
    ensures len { array_vec_len result ≡ 33 + 4 * length counts.now }
{
    let mut out = counts_bytes(counts);
    hasher.update(out.as_slice());
    let digest = hasher.finalize();
    for byte in digest {
        out.push(byte);
    }
    out
}

impl TraceWriter {
    ghost use Rattle.trace_file.specs.Writing.{Writes, processes, written};

    /// Begins a trace in the named file of the cabinet, with one append. `n` is the number of processes and `digest`
    /// that of the program file. `Failed` comes where the cabinet's `begin` or `append` failed.
    pub fn begin<C: Cabinet>(
        alloc: Global,
        files: &mut C,
        name: &str,
        version: u8,
        mask: u32,
        n: u8,
        digest: &[u8; 32],
    ) -> Result<TraceWriter, BeginFault>
        requires version { IsVersion version mask }
        requires some { 0 < n }
        requires few { n ≤ MAX_PROCESSES }

        // The writer stands for the header, which is the front of a trace without entries, and so does the file,
        // where it is told.
        ensures stands { IfOk result (λ w. Writes w (Spec.header_part version mask n digest.now)) }
        ensures front { IfOk result (λ w. Writes w (Spec.front (begun version mask n digest.now))) }
        ensures n { IfOk result (λ w. processes w ≡ n) }
        ensures size { IfOk result (λ w. written w ≡ header_len version) }
        ensures ok { OnOk result (C.files files.new
            ≡ extended (emptied (C.files files.old) name.now) name.now (Spec.header_part version mask n digest.now)) }
        ensures is_open { OnOk result (IsTrue (C.is_open files.new)) }
        ensures name { OnOk result (IsSome (C.files files.new) → C.open_name files.new ≡ name.now) }
        ensures err { OnErr result ((C.files files.new ≡ C.files files.old)
            ⊎ ExtendsPart (emptied (C.files files.old) name.now) name.now
            (Spec.header_part version mask n digest.now) (C.files files.new)) }
        ensures memory { IsErrOf result BeginFault.Memory → C.files files.new ≡ C.files files.old }
        ensures failed { BelongsTo (has_failed result) (C.write_faults files.old) (C.write_faults files.new) }
        ensures sure { IsSome (C.files files.old)
            → HasRoom (C.sure_room files.old) (Some []) (Spec.header_part version mask n digest.now)
            → has_failed result ≡ false }

        // Nothing else changes.
        ensures same_room { C.sure_room files.new ≡ C.sure_room files.old }
        ensures same_reads { C.read_faults files.new ≡ C.read_faults files.old }
        ensures same_absents { C.absents files.new ≡ C.absents files.old }
    {
        let Ok(header) = header_bytes(alloc, version, mask, n, digest) else {
            return Err(BeginFault::Memory);
        };
        files.begin(alloc, name)?;
        if files.append(&header).is_err() {
            return Err(BeginFault::Failed);
        }
        Ok(TraceWriter::behind(n, &header))
    }

    // The writer that wrote this header of n processes.
    fn behind(n: u8, header: &[u8]) -> TraceWriter
        requires few { n ≤ MAX_PROCESSES }
        requires long { 5 < length header.now }
        requires short { length header.now < 2 ^ 32 }
        requires n { slice_index header.now 5 ≡ n }
        ensures stands { Writes result header.now }
        ensures n { result.n ≡ n }
        ensures size { result.size ≡ length header.now }
    {
        let mut hasher = Sha256::new();
        hasher.update(header);
        TraceWriter {
            n,
            size: header.len() as u32,
            hasher,
        }
    }

    // Puts one piece at the end of the file.
    fn put<C: Cabinet>(&mut self, files: &mut C, piece: &[u8]) -> Result<(), Failed>
        requires is_open { IsTrue (C.is_open files.old) }
        requires small { self.old.size + length piece.now < 2 ^ 32 }

        ensures stands { OnOk result ((b : List ℕ) → Writes self.old b → Writes self.new (b ++ piece.now)) }
        ensures n { self.new.n ≡ self.old.n }
        ensures size { OnOk result (self.new.size ≡ self.old.size + length piece.now) }
        ensures ok { OnOk result (C.files files.new ≡ extended (C.files files.old) (C.open_name files.old) piece.now) }
        ensures err { OnErr result
            (ExtendsPart (C.files files.old) (C.open_name files.old) piece.now (C.files files.new)) }
        ensures failed { BelongsTo (is_err result) (C.write_faults files.old) (C.write_faults files.new) }
        ensures sure { HasRoom (C.sure_room files.old) (file_in (C.files files.old) (C.open_name files.old)) piece.now
            → IsOk result }
        ensures same_open { C.is_open files.new ≡ C.is_open files.old }
        ensures same_name { C.open_name files.new ≡ C.open_name files.old }
        ensures same_room { C.sure_room files.new ≡ C.sure_room files.old }
        ensures same_reads { C.read_faults files.new ≡ C.read_faults files.old }
        ensures same_absents { C.absents files.new ≡ C.absents files.old }
    {
        files.append(piece)?;
        self.hasher.update(piece);
        self.size += piece.len() as u32;
        Ok(())
    }

    /// Writes a note, with one append, which failed where `Failed` comes.
    pub fn note<C: Cabinet>(&mut self, files: &mut C, a: AcceptNote) -> Result<(), Failed>
        requires is_open { IsTrue (C.is_open files.old) }
        requires small { written self.old ≤ MAX_TRACE_BYTES }
        requires receiver { a.receiver.no < processes self.old }
        requires sender { a.id.sender.no < processes self.old }

        // What the writer stood for has the note behind it, and so has the file, where it is told. The front of a trace
        // without lost letters becomes that of the trace with one note more.
        ensures stands { OnOk result ((b : List ℕ) → Writes self.old b → Writes self.new (b ++ Spec.note a)) }
        ensures front { OnOk result ((t : Content) → t.lost ≡ [] → Writes self.old (Spec.front t)
            → Writes self.new (Spec.front (with_note t a))) }
        ensures ok { OnOk result (C.files files.new
            ≡ extended (C.files files.old) (C.open_name files.old) (Spec.note a)) }
        ensures told { OnOk result ((t : Content) → t.lost ≡ []
            → file_in (C.files files.old) (C.open_name files.old) ≡ Some (Spec.front t)
            → file_in (C.files files.new) (C.open_name files.old) ≡ Some (Spec.front (with_note t a))) }
        ensures err { OnErr result (ExtendsPart (C.files files.old) (C.open_name files.old)
            (Spec.note a) (C.files files.new)) }
        ensures failed { BelongsTo (is_err result) (C.write_faults files.old) (C.write_faults files.new) }
        ensures sure { HasRoom (C.sure_room files.old) (file_in (C.files files.old) (C.open_name files.old))
            (Spec.note a) → IsOk result }

        // Nothing else changes.
        ensures n { processes self.new ≡ processes self.old }
        ensures size { OnOk result (written self.new ≡ written self.old + 11) }
        ensures same_open { C.is_open files.new ≡ C.is_open files.old }
        ensures same_name { C.open_name files.new ≡ C.open_name files.old }
        ensures same_room { C.sure_room files.new ≡ C.sure_room files.old }
        ensures same_reads { C.read_faults files.new ≡ C.read_faults files.old }
        ensures same_absents { C.absents files.new ≡ C.absents files.old }
    {
        self.put(files, &note_bytes(a))
    }

    /// Writes a lost letter, with one append, which failed where `Failed` comes.
    pub fn lost<C: Cabinet>(&mut self, files: &mut C, id: LetterId) -> Result<(), Failed>
        requires is_open { IsTrue (C.is_open files.old) }
        requires small { written self.old ≤ MAX_TRACE_BYTES }
        requires sender { id.sender.no < processes self.old }

        // What the writer stood for has the entry behind it, and so has the file, where it is told. The front of a
        // trace becomes that of the trace with one lost letter more.
        ensures stands { OnOk result ((b : List ℕ) → Writes self.old b → Writes self.new (b ++ Spec.lost_entry id)) }
        ensures front { OnOk result ((t : Content) → Writes self.old (Spec.front t)
            → Writes self.new (Spec.front (with_lost t id))) }
        ensures ok { OnOk result (C.files files.new
            ≡ extended (C.files files.old) (C.open_name files.old) (Spec.lost_entry id)) }
        ensures told { OnOk result ((t : Content)
            → file_in (C.files files.old) (C.open_name files.old) ≡ Some (Spec.front t)
            → file_in (C.files files.new) (C.open_name files.old) ≡ Some (Spec.front (with_lost t id))) }
        ensures err { OnErr result (ExtendsPart (C.files files.old) (C.open_name files.old)
            (Spec.lost_entry id) (C.files files.new)) }
        ensures failed { BelongsTo (is_err result) (C.write_faults files.old) (C.write_faults files.new) }
        ensures sure { HasRoom (C.sure_room files.old) (file_in (C.files files.old) (C.open_name files.old))
            (Spec.lost_entry id) → IsOk result }

        // Nothing else changes.
        ensures n { processes self.new ≡ processes self.old }
        ensures size { OnOk result (written self.new ≡ written self.old + 6) }
        ensures same_open { C.is_open files.new ≡ C.is_open files.old }
        ensures same_name { C.open_name files.new ≡ C.open_name files.old }
        ensures same_room { C.sure_room files.new ≡ C.sure_room files.old }
        ensures same_reads { C.read_faults files.new ≡ C.read_faults files.old }
        ensures same_absents { C.absents files.new ≡ C.absents files.old }
    {
        self.put(files, &lost_bytes(id))
    }

    /// Writes the end, with one append, and closes the file; `Failed` comes where one of the two failed. Gives the
    /// number of all bytes.
    pub fn close<C: Cabinet>(self, files: &mut C, counts: &[u32]) -> Result<u32, Failed>
        requires is_open { IsTrue (C.is_open files.old) }
        requires small { written self ≤ MAX_TRACE_BYTES }
        requires counts { AreCounts (processes self) counts.now }

        // The file has the end of what the writer stood for, where it is told.
        ensures ok { OnOk result ((b : List ℕ) → Writes self b → C.files files.new
            ≡ extended (C.files files.old) (C.open_name files.old) (Spec.end_part b counts.now)) }
        // So a file that was the front of a trace is its spelling.
        ensures spelled { OnOk result ((t : Content) → t.counts ≡ counts.now → Writes self (Spec.front t)
            → file_in (C.files files.old) (C.open_name files.old) ≡ Some (Spec.front t)
            → file_in (C.files files.new) (C.open_name files.old) ≡ Some (Spec.spelling t)) }
        // Its size is given, whether it is told or not.
        ensures size { IfOk result (λ size. (b : List ℕ) → Writes self b → size ≡ length (Spec.ended b counts.now)) }
        ensures whole { IfOk result (λ size. (t : Content) → t.counts ≡ counts.now → Writes self (Spec.front t)
            → size ≡ length (Spec.spelling t)) }
        ensures closed { OnOk result (C.is_open files.new ≡ false) }
        ensures err { OnErr result ((b : List ℕ) → Writes self b
            → ExtendsPart (C.files files.old) (C.open_name files.old) (Spec.end_part b counts.now)
            (C.files files.new)) }
        ensures failed { BelongsTo (is_err result) (C.write_faults files.old) (C.write_faults files.new) }
        ensures sure { (b : List ℕ) → Writes self b
            → HasRoom (C.sure_room files.old) (file_in (C.files files.old) (C.open_name files.old))
            (Spec.end_part b counts.now) → IsOk result }

        // Nothing else changes.
        ensures same_room { C.sure_room files.new ≡ C.sure_room files.old }
        ensures same_reads { C.read_faults files.new ≡ C.read_faults files.old }
        ensures same_absents { C.absents files.new ≡ C.absents files.old }
    {
        let TraceWriter { n: _, size, hasher } = self;
        let end = end_bytes(hasher, counts);
        files.append(end.as_slice())?;
        files.close()?;
        Ok(size + end.len() as u32)
    }
}
