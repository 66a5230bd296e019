//! A trace, and its reader.

ghost use Rattle.std.specs.Prelude.{◌≡◌, ◌<◌, ◌≤◌, ◌+◌, ◌*◌, ◌^◌, ◌++◌, [], length, slice_index, IfOk, IfErr, Ok, Err, take, drop, sum};
ghost use Rattle.std.specs.Str.{bytes_eq};
ghost use Rattle.sha2.specs.Sha256.{sha256};
ghost use Rattle.trace_file.specs.Reading.{Damage, ReadsAs, counts_at, end_at, header_at};
ghost use Rattle.trace_file.specs.private.Headers.{content_of};
ghost use Rattle.trace_file.specs.private.Indexed.{content};
ghost use Rattle.trace_file.specs.private.Places.{EndsAt};
ghost use Rattle.trace_file.specs.Outcomes.{IsDamage, IsSpelling, TellsDamage};
ghost use Rattle.trace_file.specs.Content.{Content};

use crate::entries::Entries;
use crate::fault::{DamageKind, TraceFault, fault};
use crate::header::{Header, header_len};
use crate::item::{Item, word};
use nm_base::{AcceptNote, LetterId, MAX_EVENTS, MAX_TRACE_BYTES, ProcNo, WantOfMemory};
use sha2::{Digest, Sha256};
use std::alloc::Global;
use std::marker::Model;

// The numbers in the next four bytes each.
fn counts_of(alloc: Global, n: u8, bytes: &[u8]) -> Result<Vec<u32>, WantOfMemory>
    requires { 4 * n ≤ length bytes.now }
    ensures counts { IfOk result (λ v. v.items ≡ counts_at n bytes.now) }
    ensures len { IfOk result (λ v. length v.items ≡ n) }
{
    let mut counts = Vec::new(alloc);
    let mut rest = bytes;
    for _ in 0..n {
        if counts.push(word(rest, 0)).is_err() {
            return Err(WantOfMemory);
        }
        rest = rest.split_at(4).1;
    }
    Ok(counts)
}

fn sum_of(counts: &[u32]) -> u64
    requires { length counts.now ≤ 32 }
    ensures { result ≡ sum counts.now }
{
    counts.iter().map(|count| u64::from(*count)).sum()
}

// Whether the last bytes begin with the digest of those before.
fn is_digest(before: &[u8], body: &[u8], last: &[u8]) -> bool
    requires { 32 ≤ length last.now }
    ensures { result ≡ bytes_eq (take 32 last.now) (sha256 (before.now ++ body.now)) }
{
    let mut hasher = Sha256::new();
    hasher.update(before);
    hasher.update(body);
    last.split_at(32).0 == hasher.finalize().as_slice()
}

// The counts of the end, with which the rest of the file begins.
#[tactic(auto, unfolding(crate::specs::Reading::end_at))]
fn end_of(alloc: Global, n: u8, before: &[u8], rest: &[u8]) -> Result<Vec<u32>, TraceFault>
    requires few { n ≤ 32 }
    requires small { length before.now + length rest.now < 2 ^ 31 }
    ensures { ReadsAs (λ v. v.items) result (end_at n before.now rest.now) }
{
    let place = before.len();
    let len = 1 + 4 * n as usize;
    if rest.len() < len + 32 {
        return fault(DamageKind::Short, place + rest.len());
    }
    let Ok(counts) = counts_of(alloc, n, rest.split_at(1).1) else {
        return Err(TraceFault::Memory);
    };
    if u64::from(MAX_EVENTS) < sum_of(&counts) {
        return fault(DamageKind::Count, place);
    }
    let (body, last) = rest.split_at(len);
    if !is_digest(before, body, last) {
        return fault(DamageKind::Digest, place + len);
    }
    if len + 32 < rest.len() {
        return fault(DamageKind::Trailing, place + len + 32);
    }
    Ok(counts)
}

// All entries, and the place of the end's tag.
fn entries_of(alloc: Global, header: &Header, bytes: &[u8]) -> Result<(Entries, usize), TraceFault>
    requires header { header_at bytes.now ≡ Ok (content_of header.now) }
    requires small { length bytes.now < 2 ^ 31 }
    ensures ends { IfOk result (λ r. EndsAt (content header.now r.0) r.1 bytes.now) }
    ensures damage { IfErr result (TellsDamage bytes.now) }
{
    let mut entries = Entries::new(alloc);
    let mut place = header_len(header.version);
    'items: loop {
        match entries.take(header.n, place, bytes.split_at(place).1)? {
            Item::Note(_) => place += 11,
            Item::Lost(_) => place += 6,
            Item::End => return Ok((entries, place)),
        }
    }
}

/// What a trace file says.
#[derive(Debug, Drop)]
pub struct Trace {
    version: u8,
    mask: u32,
    n: u8,
    digest: [u8; 32],
    notes: Vec<AcceptNote>,
    lost: Vec<LetterId>,
    counts: Vec<u32>,
}

impl Model for Trace {
    ghost use Rattle.std.specs.Prelude.{◌≡◌, length};
    ghost use Rattle.trace_file.specs.Content.{Content};

    ghost Value = { Content };

    ghost view = { λ t. record {
      version = t.version;
      mask = t.mask;
      n = t.n;
      digest = t.digest;
      notes = t.notes.items;
      lost = t.lost.items;
      counts = t.counts.items;
    } };

    ghost invariant = { λ t. length t.counts.items ≡ t.n };
}

impl Trace {
    ghost use Rattle.trace_file.specs.Content.{count_of};

    /// 1 or 2.
    pub fn version(&self) -> u8
        ensures { result ≡ self.now.version }
    {
        self.version
    }

    /// The channels that keep order, one bit each; 0 in version 1.
    pub fn mask(&self) -> u32
        ensures { result ≡ self.now.mask }
    {
        self.mask
    }

    /// The number of processes, 1 to 32.
    pub fn n(&self) -> u8
        ensures { result ≡ self.now.n }
    {
        self.n
    }

    /// The SHA-256 digest of the program file.
    pub fn digest(&self) -> &[u8; 32]
        ensures { result.now ≡ self.now.digest }
    {
        &self.digest
    }

    /// The logged letters that were received, in the order of their receives.
    pub fn notes(&self) -> &[AcceptNote]
        ensures { result.now ≡ self.now.notes }
    {
        &self.notes
    }

    /// The logged letters that were never received, in the order of their sends.
    pub fn lost(&self) -> &[LetterId]
        ensures { result.now ≡ self.now.lost }
    {
        &self.lost
    }

    /// The process's number of events.
    pub fn count(&self, p: ProcNo) -> u32
        requires { p.no < self.now.n }
        ensures { result ≡ count_of self.now p.no }
    {
        self.counts[p.no as usize]
    }
}

// The trace that the bytes spell, or the damage.
fn read(alloc: Global, bytes: &[u8]) -> Result<Trace, TraceFault>
    requires { length bytes.now < 2 ^ 31 }
    ensures found { IfOk result (λ t. IsSpelling t bytes.now) }
    ensures damage { IfErr result (TellsDamage bytes.now) }
{
    let header = Header::read(bytes)?;
    let (entries, place) = entries_of(alloc, &header, bytes)?;
    let (before, rest) = bytes.split_at(place);
    let counts = end_of(alloc, header.n, before, rest)?;
    let (notes, lost) = entries.into_lists();
    Ok(Trace {
        version: header.version,
        mask: header.mask,
        n: header.n,
        digest: header.digest,
        notes,
        lost,
        counts,
    })
}

/// The trace that the bytes spell, or the damage of the first rule that they break.
pub fn decode(alloc: Global, bytes: &[u8]) -> Result<Trace, TraceFault>
    requires { length bytes.now ≤ MAX_TRACE_BYTES }
    // What is read is spelled so, and breaks no rule.
    ensures found { IfOk result (λ t. IsSpelling t bytes.now) }
    // What is spelled so is read, unless memory runs out.
    ensures only { (t : Content) → IsSpelling t bytes.now → ReadsAs (λ x. x) result (Ok t) }
    // Damage is that of the first broken rule.
    ensures damage { IfErr result (TellsDamage bytes.now) }
    // Where a rule is broken, its damage is answered, unless memory runs out.
    ensures exactly { (d : Damage) → IsDamage bytes.now d → ReadsAs (λ x. x) result (Err d) }
{
    read(alloc, bytes)
}
