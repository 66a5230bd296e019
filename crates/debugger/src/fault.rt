//! Why a line of a session comes to no end.

ghost use Rattle.std.specs.Prelude.{◌≡◌};
ghost use Rattle.debugger.specs.declared.fault.SessionFault.TheVariants.{Write, Memory};

use nm_base::WantOfMemory;
use nm_outside::Failed;

/// Why a line of a session comes to no end. The session isn't used after it.
#[derive(Clone, Copy, Debug, PartialEq, Eq)]
pub enum SessionFault {
    /// The sink failed.
    Write,
    /// Memory was refused.
    Memory,
}

impl From<Failed> for SessionFault {
    ghost from_gives = { λ _ e. e ≡ Write };

    fn from(_fault: Failed) -> SessionFault {
        SessionFault::Write
    }
}

impl From<WantOfMemory> for SessionFault {
    ghost from_gives = { λ _ e. e ≡ Memory };

    fn from(_fault: WantOfMemory) -> SessionFault {
        SessionFault::Memory
    }
}
