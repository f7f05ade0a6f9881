//! A hash of bytes.
ghost use Rattle.std.specs.Prelude.{◌≡◌};
ghost use Rattle.std.specs.List.{fold};
ghost use Rattle.rast_replay.specs.Hash.{fnv1a_step};

/// The hash of no bytes.
pub const BASIS: u64 = 0xcbf2_9ce4_8422_2325;

const PRIME: u64 = 0x100_0000_01b3;

/// The FNV-1a hash, of 64 bits, of these bytes after those whose hash is `before`.
pub fn fnv1a(before: u64, bytes: &[u8]) -> u64
    ensures { result ≡ fold fnv1a_step before bytes.now }
{
    bytes.iter().fold(before, |hash, byte| {
        (hash ^ u64::from(*byte)).wrapping_mul(PRIME)
    })
}
