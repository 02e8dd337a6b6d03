// The version of the library, so that a program can tell whether the archive and the header that it was built with belong together.
ghost use Rattle.std.specs.Prelude.{◌≡◌};
ghost use Rattle.face.specs.Version.{version_told};

// The version "major.minor.patch" as one number, with three digits for each of the last two.
#[unsafe(no_mangle)]
pub extern "C" fn tishkolan_version() -> u32
    ensures { result ≡ version_told }
{
    tishkolan::version::tishkolan_version()
}
