//! The version of the library.
ghost use Rattle.std.specs.Prelude.{◌≡◌, ◌+◌, ◌*◌};

// The three numbers of the header's `SIMD_JSON_VERSION_MAJOR`, `_MINOR` and `_PATCH`.
const MAJOR: u32 = 0;

const MINOR: u32 = 4;

const PATCH: u32 = 0;

/// Returns the version as one number, as the header's `SIMD_JSON_VERSION`.
#[unsafe(no_mangle)]
pub extern "C" fn simd_json_version() -> u32
    ensures { result ≡ MAJOR * 10000 + MINOR * 100 + PATCH }
{
    MAJOR * 10_000 + MINOR * 100 + PATCH
}
