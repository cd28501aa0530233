// Made from interface.toml by `make generate`. Don't edit this file.

//! The library's version.

ghost use Rattle.std.specs.Prelude.{◌≡◌};
ghost use Rattle.krb_c.specs.Codes.{version};

/// Returns the version of the library: 10,000 times the major number, plus 100 times the minor
/// number, plus the patch number.
#[unsafe(no_mangle)]
pub extern "C" fn fevstunik_version() -> u32
    ensures { result ≡ version }
{
    200
}
