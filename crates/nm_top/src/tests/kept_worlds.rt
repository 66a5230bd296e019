//! What no reply says: that a session goes back from a world that it kept.

ghost use Rattle.std.specs.Prelude.{IfOk};
ghost use Rattle.trace_file.specs.Rules.{IsTrace};

use super::one_process::{FOR_EVER, code_of};
use debugger::{Next, Session, SessionFault};
use mailboxes::{Gate, ListMail, Mail};
use nm_base::{Letter, LetterId, MAX_TRACE_BYTES, ProcNo, WantOfMemory};
use nm_outside::ListSink;
use sha2::{Digest, Sha256};
use std::alloc::Global;
use std::test::Fail;
use trace_file::{Trace, decode};
use watchers::AnyWatcher;

/// Letters that are copied, and whose copy can't be copied again.
#[derive(Drop)]
struct CopiedOnce<M: Mail> {
    letters: M,
    is_copy: bool,
}

impl<M: Mail> Mail for CopiedOnce<M> {
    ghost letters = { λ m. M.letters m.letters };

    ghost ordered = { λ m. M.ordered m.letters };

    ghost spare = { λ m. M.spare m.letters };

    fn empty(alloc: Global, mask: u32) -> Result<Self, WantOfMemory> {
        let letters = M::empty(alloc, mask)?;
        Ok(CopiedOnce {
            letters,
            is_copy: false,
        })
    }

    fn order(&self) -> u32 {
        self.letters.order()
    }

    fn reserve(&mut self, alloc: Global) -> Result<(), WantOfMemory> {
        self.letters.reserve(alloc)
    }

    fn post(&mut self, alloc: Global, l: Letter) -> Result<(), (Letter, WantOfMemory)> {
        self.letters.post(alloc, l)
    }

    fn count<G: Gate>(&self, dest: ProcNo, set: u32, receive: u32, gate: &G) -> u32 {
        self.letters.count(dest, set, receive, gate)
    }

    fn kth<G: Gate>(&self, dest: ProcNo, set: u32, receive: u32, gate: &G, k: u32) -> LetterId {
        self.letters.kth(dest, set, receive, gate, k)
    }

    fn first_allowed<G: Gate>(
        &self,
        dest: ProcNo,
        set: u32,
        receive: u32,
        gate: &G,
    ) -> Option<LetterId> {
        self.letters.first_allowed(dest, set, receive, gate)
    }

    fn is_first(&self, id: LetterId) -> bool {
        self.letters.is_first(id)
    }

    fn take(&mut self, id: LetterId) -> Letter {
        self.letters.take(id)
    }

    fn next_from(&self, posted: u32) -> Option<&Letter> {
        self.letters.next_from(posted)
    }

    fn copy(&self, alloc: Global) -> Result<Self, WantOfMemory> {
        if self.is_copy {
            return Err(WantOfMemory);
        }
        let letters = self.letters.copy(alloc)?;
        Ok(CopiedOnce {
            letters,
            is_copy: true,
        })
    }

    ghost rises = { λ m. M.rises m.letters };

    ghost distinct = { λ m. M.distinct m.letters };
}

/// A trace of one process that made 1,000 events, in which no letter is named.
fn trace_of_events(alloc: Global) -> Result<Trace, Fail>
    ensures { IfOk result IsTrace }
{
    let mut bytes = Vec::from_slice(alloc, b"NMTR\x01\x01")?;
    bytes.extend_from_slice(&[0; 32])?;
    bytes.extend_from_slice(&[3, 0, 0, 3, 232])?;
    let digest = Sha256::digest(bytes.as_slice());
    bytes.extend_from_slice(&digest)?;
    if bytes.len() > MAX_TRACE_BYTES as usize {
        return Err("too long")?;
    }
    match decode(alloc, &bytes) {
        Ok(trace) => Ok(trace),
        Err(_) => Err("damaged")?,
    }
}

#[test]
fn back_uses_a_kept_world(rt: HostRuntime) -> Result<(), Fail> {
    let alloc = rt.alloc();
    let code = code_of(alloc, FOR_EVER)?;
    let trace = trace_of_events(alloc)?;
    let mut session = Session::<CopiedOnce<ListMail>>::new(alloc, &code, &trace)?;
    let mut watch: Vec<AnyWatcher> = Vec::new(alloc);
    let mut out = ListSink::new(alloc, 100, Vec::new(alloc))?;
    let run = session.line(alloc, b"run", &mut watch, &mut out);
    assert_eq!(&rt; run, Ok(Next::More));
    assert_eq!(&rt; out.bytes(), b"finished\n".as_slice());
    // The worlds that were kept are copies, and the one to go back to is a copy of one of them.
    let back = session.line(alloc, b"back 400", &mut watch, &mut out);
    assert_eq!(&rt; back, Err(SessionFault::Memory));
    Ok(())
}
