// The version of the calls, for a host to compare with the SHRIKE_VERSION of the header that it was compiled with.
// Assumes nothing.
ghost use Rattle.std.specs.Prelude.{◌≡◌};
ghost use Rattle.shrikemuff.specs.Version.{version};

pub const VERSION: u32 = 2000000;

// major × 1,000,000 + minor × 1,000 + patch
pub fn shrike_version() -> u32
    ensures { result ≡ version }
{
    VERSION
}
