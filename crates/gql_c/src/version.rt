//! The version of the library.

ghost use Rattle.std.specs.Prelude.{◌≡◌};
ghost use Rattle.gql_c.specs.declared.version.TheConstants.{VERSION};

/// 65536 times the major number of the version, 256 times the minor one, and the patch.
pub const VERSION: u32 = 0x0000_0200;

/// The version of the library.
#[unsafe(no_mangle)]
pub extern "C" fn gql_version() -> u32
    ensures { result ≡ VERSION }
{
    VERSION
}
