//! A kind's name.
ghost use Rattle.std.specs.Prelude.{◌≡◌, ◌≢◌, ◌≤◌, ◌<◌, ℕ, length};
ghost use Rattle.rap_base.specs.Names.{name_of};
ghost use Rattle.rap_c.specs.Filling.{overwritten};

use crate::filler::put_bytes;
use crate::numbers::kind_of;

/// The number of no kind.
const NO_KIND: u32 = 330;

/// The bytes of a kind's name, or none where the number is no kind's.
fn name_bytes(kind: u32) -> &'static [u8]
    ensures { result.now ≡ name_of kind }
{
    match kind_of(kind) {
        Some(kind) => kind.name().as_bytes(),
        None => &[],
    }
}

/// Writes the name of the kind into the slice, as far as it reaches, and returns how many bytes the name has. It has
/// none where the number is no kind's.
#[unsafe(no_mangle)]
pub extern "C" fn rap_kind_name(kind: u32, name: &mut [u8]) -> usize
    ensures count { result ≡ length (name_of kind) }
    ensures written { name.new ≡ overwritten name.old (name_of kind) }
{
    let bytes = name_bytes(kind);
    put_bytes(name, 0, bytes);
    bytes.len()
}

/// Returns the number of the kind with this name, or 330 where no kind has it.
#[unsafe(no_mangle)]
pub extern "C" fn rap_kind_of_name(name: &[u8]) -> u32
    ensures bound { result ≤ 330 }
    ensures named { result < 330 → name_of result ≡ name.now }
    ensures first { (kind : ℕ) → kind < result → name_of kind ≢ name.now }
{
    'kinds: for kind in 0..NO_KIND {
        if name_bytes(kind) == name {
            return kind;
        }
    }
    NO_KIND
}
