//! The version of the interface.
ghost use Rattle.std.specs.Prelude.{◌≡◌};
ghost use Rattle.rap_c.specs.Version.{version};

/// The version of the interface, as `include/rap.h` declares it: a million for the first number, a thousand for the
/// second, and the third.
#[unsafe(no_mangle)]
pub extern "C" fn rap_version() -> u32
    ensures { result ≡ version 1 2 0 }
{
    1_002_000
}
