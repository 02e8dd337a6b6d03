// Paths for C: lists of cells in a buffer that C lends.
ghost use Rattle.std.specs.Prelude.{◌≡◌};
ghost use Rattle.general.specs.Changed.{changed, saying};
ghost use Rattle.line.specs.Line.{trace_in};
ghost use Rattle.face.specs.Layers.{of_count};

use face::CountTold;

// The cells along the line between two cells, and how many they are.
#[unsafe(no_mangle)]
pub extern "C" fn tishkolan_trace_line(start: &[u8], end: &[u8], output: &mut [u8]) -> CountTold
    ensures { changed result output.new ≡ saying (of_count 0) (trace_in start.now end.now output.old) }
{
    tishkolan::paths::tishkolan_trace_line(start, end, output)
}
