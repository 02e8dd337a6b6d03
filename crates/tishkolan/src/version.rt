// The version of the library, so that a program can tell whether the archive and the header that it was built with belong together.
ghost use Rattle.std.specs.Prelude.{◌≡◌};
ghost use Rattle.face.specs.Version.{version_told};

const MAJOR: u32 = 0;

const MINOR: u32 = 4;

const PATCH: u32 = 1;

// The version "major.minor.patch" as one number, with three digits for each of the last two.
pub fn tishkolan_version() -> u32
    ensures { result ≡ version_told }
{
    MAJOR * 1_000_000 + MINOR * 1_000 + PATCH
}
