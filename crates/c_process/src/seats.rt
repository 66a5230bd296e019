//! The seats of a program's processes.

ghost use Rattle.std.specs.Prelude.{◌≤◌, IfOk};
ghost use Rattle.stack_code.specs.View.{seen_code};
ghost use Rattle.c_process.specs.Begun.{AreBegun};

use crate::process::CProc;
use nm_base::{ProcNo, WantOfMemory};
use processes::Seat;
use stack_code::Code;
use std::alloc::Global;

/// The processes of a program, each before its first event.
pub fn seats_of<'c>(
    alloc: Global,
    code: &'c Code,
    n: u8,
) -> Result<Vec<Seat<CProc<'c>>>, WantOfMemory>
    requires { n ≤ 32 }
    ensures { IfOk result (λ seats. AreBegun (seen_code code.now) n n seats.items) }
{
    let mut seats = Vec::new(alloc);
    for me in 0..n {
        let process = CProc::new(alloc, code, ProcNo { no: me }, n)?;
        match seats.push(Seat::begin(process)) {
            Ok(()) => {}
            Err(_) => return Err(WantOfMemory),
        }
    }
    Ok(seats)
}
