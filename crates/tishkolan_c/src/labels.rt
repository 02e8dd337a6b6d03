// Cell labels for C: a label is 37 characters with nothing behind them.
ghost use Rattle.std.specs.Prelude.{◌≡◌};
ghost use Rattle.face.specs.Told.{filled};
ghost use Rattle.face.specs.Labels.{label_told, place_filled, cell_told};

use face::{PlaceTold, RefusalTold};

#[unsafe(no_mangle)]
pub extern "C" fn tishkolan_cell_to_bech32m(cell: &[u8], out: &mut [u8]) -> RefusalTold
    ensures { filled result out.new ≡ label_told cell.now out.old }
{
    tishkolan::labels::tishkolan_cell_to_bech32m(cell, out)
}

// The cell of a label, with the place of the first mistake.
#[unsafe(no_mangle)]
pub extern "C" fn tishkolan_cell_from_bech32m(label: &[u8], out: &mut [u8]) -> PlaceTold
    ensures { place_filled result out.new ≡ cell_told label.now out.old }
{
    tishkolan::labels::tishkolan_cell_from_bech32m(label, out)
}
