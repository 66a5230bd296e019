//! What stands before the entries.

ghost use Rattle.std.specs.Prelude.{◌≡◌, ◌<◌, ◌^◌, length};
ghost use Rattle.trace_file.specs.Reading.{header_at};
ghost use Rattle.trace_file.specs.private.Found.{Finds};
ghost use Rattle.trace_file.specs.Reading as Spec;

use crate::fault::{BrokenRule, DamageKind, damage};
use crate::item::word;
use nm_base::MAX_PROCESSES;

/// The first items of the file.
#[derive(Clone, Copy, Debug)]
pub struct Header {
    pub version: u8,
    pub mask: u32,
    pub n: u8,
    pub digest: [u8; 32],
}

/// The number of bytes before the entries, of version 1 or 2.
pub fn header_len(version: u8) -> usize
    ensures { result ≡ Spec.header_len version }
{
    if version == 2 { 42 } else { 38 }
}

impl Header {
    ghost use Rattle.trace_file.specs.private.Headers.{content_of};

    /// The header that the file begins with.
    #[tactic(auto, unfolding(crate::specs::Reading::header_at))]
    pub fn read(bytes: &[u8]) -> Result<Header, BrokenRule>
        requires { length bytes.now < 2 ^ 32 }
        ensures { Finds content_of result (header_at bytes.now) }
    {
        let len = bytes.len();
        if len < 4 {
            return damage(DamageKind::Short, len);
        }
        if !(bytes[0] == b'N' && bytes[1] == b'M' && bytes[2] == b'T' && bytes[3] == b'R') {
            return damage(DamageKind::Magic, 0);
        }
        if len < 5 {
            return damage(DamageKind::Short, len);
        }
        let version = bytes[4];
        if !(version == 1 || version == 2) {
            return damage(DamageKind::Version, 4);
        }
        if len < 6 {
            return damage(DamageKind::Short, len);
        }
        let n = bytes[5];
        if n == 0 || MAX_PROCESSES < n {
            return damage(DamageKind::Count, 5);
        }
        if len < header_len(version) {
            return damage(DamageKind::Short, len);
        }
        let mut digest = [0; 32];
        digest.copy_from_slice(&bytes[6..38]);
        let mask = if version == 2 { word(bytes, 38) } else { 0 };
        Ok(Header {
            version,
            mask,
            n,
            digest,
        })
    }
}
