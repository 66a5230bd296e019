//! Why tokens are refused.

ghost use Rattle.std.specs.Prelude.{◌≡◌};
ghost use Rattle.c_parser.specs.declared.fault.TokenFault.TheVariants.{Memory};

use nm_base::WantOfMemory;
use std::alloc::{AllocError, AllocFailed};
use thiserror::Error;

/// Why tokens are no unit in which no item is higher than 64.
#[derive(Clone, Copy, Debug, PartialEq, Eq, Error)]
pub enum ParseFault {
    /// The tokens break the grammar. The line is that of the first token that no unit has there, or of the last one.
    #[error("line {line}: not the grammar")]
    Syntax { line: u32 },
    /// An item is nested too deeply. The line is that of a token that nests.
    #[error("line {line}: nested too deeply")]
    Deep { line: u32 },
    /// Memory was refused.
    #[error("out of memory")]
    Memory,
}

/// Why no value is read, with the number of tokens that were left there.
#[derive(Clone, Copy, Debug, PartialEq, Eq)]
pub enum TokenFault {
    Syntax { left: usize },
    Deep { left: usize },
    Memory,
}

impl From<AllocError> for TokenFault {
    ghost from_gives = { λ _ e. e ≡ Memory };

    fn from(_error: AllocError) -> TokenFault {
        TokenFault::Memory
    }
}

impl<T: Drop> From<AllocFailed<T>> for TokenFault {
    ghost from_gives = { λ _ e. e ≡ Memory };

    fn from(_error: AllocFailed<T>) -> TokenFault {
        TokenFault::Memory
    }
}

impl From<WantOfMemory> for TokenFault {
    ghost from_gives = { λ _ e. e ≡ Memory };

    fn from(_error: WantOfMemory) -> TokenFault {
        TokenFault::Memory
    }
}
