// What the program `rewrite` prints, as bytes: of a survey file of before, whose records come in any order, the file that is accepted.
#![tactic(auto)]

ghost use Rattle.std.specs.Prelude.{◌≡◌};
ghost use Rattle.general.specs.Changed.{changed};
ghost use Rattle.rewrite_bytes.specs.Rewrite.{rewrite_in};

use refusal::Refusal;

// Loads a file as it was loaded before, into tables of full room, and writes what they hold to the front of `out`, or the line of the refusal, if there is room for it.
pub fn rewrite(file: &[u8], out: &mut [u8]) -> Result<usize, Refusal>
    ensures { changed result out.new ≡ rewrite_in file.now out.old }
{
    let mut flags = [0u8; table::MOST_FLAG_BYTES];
    let mut values = [0u8; table::MOST_VALUE_BYTES];
    match former::load(file, &mut flags, &mut values) {
        Err(why) => report_text::write_refused(why, out),
        Ok(counts) => survey::write(&flags, counts.flags, &values, counts.values, out),
    }
}
