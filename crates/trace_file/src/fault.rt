//! Why a trace couldn't be read.

ghost use Rattle.std.specs.Prelude.{◌≡◌, ◌<◌, ◌^◌};

/// Which rule the bytes break first.
#[derive(Clone, Copy, Debug, PartialEq, Eq)]
pub enum DamageKind {
    /// The file ends inside an item, or where one must begin.
    Short,
    /// The first four bytes differ.
    Magic,
    /// The version is unknown.
    Version,
    /// The number of processes or the sum of the counts is out of range.
    Count,
    /// An item begins with an unknown byte.
    Tag,
    /// A process isn't below their number.
    Process,
    /// A note follows a lost entry, or a number doesn't rise.
    Order,
    /// A letter is named a second time.
    Repeat,
    /// The digest at the end differs.
    Digest,
    /// A byte follows the digest.
    Trailing,
}

impl DamageKind {
    ghost use Rattle.trace_file.specs.Names.{name_of};

    /// The name that is printed.
    pub fn name(self) -> &'static str
        ensures { result.now ≡ name_of self }
    {
        match self {
            DamageKind::Short => "Short",
            DamageKind::Magic => "Magic",
            DamageKind::Version => "Version",
            DamageKind::Count => "Count",
            DamageKind::Tag => "Tag",
            DamageKind::Process => "Process",
            DamageKind::Order => "Order",
            DamageKind::Repeat => "Repeat",
            DamageKind::Digest => "Digest",
            DamageKind::Trailing => "Trailing",
        }
    }
}

/// Why bytes weren't read as a trace.
#[derive(Clone, Copy, Debug, PartialEq, Eq)]
pub enum TraceFault {
    /// The bytes are no trace: this is the first rule that they break, and its place, counted in bytes from 0.
    Damage { kind: DamageKind, place: u32 },
    /// Memory was refused.
    Memory,
}

/// A broken rule, and its place.
#[derive(Clone, Copy, Debug, PartialEq, Eq)]
pub struct BrokenRule {
    pub kind: DamageKind,
    pub place: u32,
}

impl From<BrokenRule> for TraceFault {
    ghost use Rattle.trace_file.specs.declared.fault.TraceFault.{TraceFault};

    ghost from_gives = { λ rule fault. fault ≡ TraceFault.Damage rule.kind rule.place };

    fn from(rule: BrokenRule) -> TraceFault {
        TraceFault::Damage {
            kind: rule.kind,
            place: rule.place,
        }
    }
}

/// The answer for a broken rule.
pub(crate) fn damage<T>(kind: DamageKind, place: usize) -> Result<T, BrokenRule>
    requires { place < 2 ^ 32 }
    ensures { result ≡ Err (record { kind = kind; place = place }) }
{
    Err(BrokenRule {
        kind,
        place: place as u32,
    })
}

/// The same where memory might be refused, too.
pub(crate) fn fault<T>(kind: DamageKind, place: usize) -> Result<T, TraceFault>
    requires { place < 2 ^ 32 }
    ensures { result ≡ Err (TraceFault.Damage kind place) }
{
    Err(TraceFault::Damage {
        kind,
        place: place as u32,
    })
}
