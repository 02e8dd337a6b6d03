// Survey files for C: both layers are read from one, or written to one.
ghost use Rattle.std.specs.Prelude.{◌≡◌};
ghost use Rattle.general.specs.Changed.{changed, saying};
ghost use Rattle.survey.specs.Survey.{load_of, write_of};
ghost use Rattle.face.specs.Surveys.{loading_told, of_loading, of_write};

use face::{LengthTold, LoadTold};

// A file's layers in place of both, or of neither.
pub fn tishkolan_survey_load(
    file: &[u8],
    flags: &mut [u8],
    flags_count: usize,
    values: &mut [u8],
    values_count: usize,
) -> LoadTold
    ensures { loading_told result flags.new values.new
        ≡ of_loading flags_count values_count (load_of file.now flags.old values.old) }
{
    face::surveys::of_load(flags_count, values_count, survey::load(file, flags, values))
}

// Both layers as a file.
pub fn tishkolan_survey_write(
    flags: &[u8],
    flags_count: usize,
    values: &[u8],
    values_count: usize,
    out: &mut [u8],
) -> LengthTold
    ensures { changed result out.new
        ≡ saying of_write (write_of flags.now flags_count values.now values_count out.old) }
{
    survey::write(flags, flags_count, values, values_count, out).into()
}
