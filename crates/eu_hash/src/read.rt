//! Bytes read as numbers.
ghost use Rattle.std.specs.Prelude.{◌≡◌, ◌+◌, ◌≤◌, length};
ghost use Rattle.std.specs.Hash.FoldHasher as folding;

/// The four bytes from that place on, the lowest first.
#[inline(always)]
fn read_u32(bytes: &[u8], at: usize) -> u64
    requires { at + 4 ≤ length bytes.now }
    ensures { result ≡ folding.read_u32 bytes.now at }
{
    u32::from_le_bytes([bytes[at], bytes[at + 1], bytes[at + 2], bytes[at + 3]]) as u64
}

/// The eight bytes from that place on, the lowest first.
#[inline(always)]
pub(crate) fn read_u64(bytes: &[u8], at: usize) -> u64
    requires { at + 8 ≤ length bytes.now }
    ensures { result ≡ folding.read_u64 bytes.now at }
{
    read_u32(bytes, at) | read_u32(bytes, at + 4) << 32
}

/// Eight bytes at most as one number, by reads that may overlap.
#[inline(always)]
pub(crate) fn read_short(bytes: &[u8]) -> u64
    ensures { result ≡ folding.read_short bytes.now }
{
    let len = bytes.len();
    if len >= 4 {
        read_u32(bytes, 0) | read_u32(bytes, len - 4) << 32
    } else if len > 0 {
        bytes[0] as u64 | (bytes[len / 2] as u64) << 8 | (bytes[len - 1] as u64) << 16
    } else {
        0
    }
}
