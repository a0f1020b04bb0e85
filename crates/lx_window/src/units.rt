//! Units in a buffer.
ghost use Rattle.std.specs.Prelude.{◌≡◌, ◌+◌, ◌*◌, ◌<◌, ◌≤◌, length, take, drop, slice_index};
ghost use Rattle.lx_window.specs.Units.{IsUnit, number_of};

/// How many bytes so many units have.
pub(crate) fn byte_count(unit: u32, count: u64) -> usize
    requires { unit * count < 0x8000_0000_0000_0000 }
    ensures { result ≡ unit * count }
{
    (u64::from(unit) * count) as usize
}

/// The number of the unit whose first byte stands at a place, the least byte first.
pub(crate) fn number_at(bytes: &[u8], place: usize, unit: u32) -> u32
    requires unit { IsUnit unit }
    requires within { place + unit ≤ length bytes.now }
    ensures { result ≡ number_of (take unit (drop place bytes.now)) }
{
    match unit {
        1 => u32::from(bytes[place]),
        2 => two_bytes(bytes, place),
        _ => two_bytes(bytes, place) + 65536 * two_bytes(bytes, place + 2),
    }
}

/// The number of two bytes, the least first.
fn two_bytes(bytes: &[u8], place: usize) -> u32
    requires { place + 1 < length bytes.now }
    ensures number { result ≡ slice_index bytes.now place + 256 * slice_index bytes.now (place + 1) }
    ensures below { result < 65536 }
{
    u32::from(bytes[place]) + 256 * u32::from(bytes[place + 1])
}
