//! Sets of channels, one bit each.

ghost use Rattle.std.specs.Prelude.{◌≡◌};
ghost use Rattle.nm_base.specs.Channels.{has_channel};

/// Whether a set of channels has this channel: bit c stands for channel c.
pub fn has_channel(set: u32, chan: u8) -> bool
    ensures { result ≡ has_channel set chan }
{
    if chan >= 32 {
        return false;
    }
    (set >> chan) & 1 == 1
}
