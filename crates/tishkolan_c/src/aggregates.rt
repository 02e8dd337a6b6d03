// The aggregates and the rollup of a value layer for C, which asks for one by its number.
ghost use Rattle.std.specs.Prelude.{◌≡◌};
ghost use Rattle.general.specs.Changed.{changed, saying};
ghost use Rattle.face.specs.Aggregates.{aggregate_told, rollup_asked};
ghost use Rattle.face.specs.Layers.{of_count};

use face::{BitsTold, CountTold};

// The aggregate of what is kept of the cells of a list.
#[unsafe(no_mangle)]
pub extern "C" fn tishkolan_values_aggregate(
    table: &[u8],
    count: usize,
    cells: &[u8],
    how: u32,
) -> BitsTold
    ensures { result ≡ aggregate_told table.now count cells.now how }
{
    tishkolan::aggregates::tishkolan_values_aggregate(table, count, cells, how)
}

// The layer of the parents; given is the count of the coarse layer before.
#[unsafe(no_mangle)]
pub extern "C" fn tishkolan_values_rollup(
    fine: &[u8],
    count: usize,
    how: u32,
    coarse: &mut [u8],
    given: usize,
) -> CountTold
    ensures { changed result coarse.new ≡ saying (of_count given) (rollup_asked fine.now count how coarse.old) }
{
    tishkolan::aggregates::tishkolan_values_rollup(fine, count, how, coarse, given)
}
