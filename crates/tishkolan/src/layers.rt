// Layers for C: a table that C lends, and the count of its records in use, which C keeps.
ghost use Rattle.std.specs.Prelude.{◌≡◌, ◌-◌};
ghost use Rattle.layer.specs.Calls.{held_in, of_contains, count_in};
ghost use Rattle.general.specs.Changed.{changed, saying};
ghost use Rattle.layer.specs.Changes.{set_in, remove_in, clear_in, list_in, empty_in};
ghost use Rattle.face.specs.Layers.{of_count, of_kept};
ghost use Rattle.face.specs.Told.{of_truth};
ghost use Rattle.table.specs.Records.{flag_width, value_width};

use face::{CountTold, KeptTold, NumberTold};
use layer::{FLAGS, VALUES};

// The flags of a cell from now on.
pub fn tishkolan_flags_set(table: &mut [u8], count: usize, cell: &[u8], flags: u32) -> CountTold
    ensures { changed result table.new ≡ saying (of_count count) (set_in flag_width table.old count cell.now flags) }
{
    face::layers::of_count(
        count,
        layer::changes::set::<FLAGS>(table, count, cell, u64::from(flags)),
    )
}

// The flags of a cell, if there are any.
pub fn tishkolan_flags_get(table: &[u8], count: usize, cell: &[u8]) -> KeptTold
    ensures { result ≡ of_kept count count (held_in flag_width table.now count cell.now) }
{
    face::layers::of_kept(count, count, layer::get::<FLAGS>(table, count, cell))
}

// A cell forgotten, and what was kept of it.
pub fn tishkolan_flags_remove(table: &mut [u8], count: usize, cell: &[u8]) -> KeptTold
    ensures { changed result table.new
        ≡ saying (of_kept count (count - 1)) (remove_in flag_width table.old count cell.now) }
{
    face::layers::of_kept(
        count,
        count.saturating_sub(1),
        layer::changes::remove::<FLAGS>(table, count, cell),
    )
}

// Whether a flag layer has a cell.
pub fn tishkolan_flags_contains(table: &[u8], count: usize, cell: &[u8]) -> NumberTold
    ensures { result ≡ of_truth (of_contains (held_in flag_width table.now count cell.now)) }
{
    layer::contains::<FLAGS>(table, count, cell).into()
}

// How many cells a flag layer has.
pub fn tishkolan_flags_count(table: &[u8], count: usize) -> CountTold
    ensures { result ≡ of_count count (count_in flag_width table.now count) }
{
    face::layers::of_count(count, layer::count::<FLAGS>(table, count))
}

// Whether a flag layer has no cells.
pub fn tishkolan_flags_is_empty(table: &[u8], count: usize) -> NumberTold
    ensures { result ≡ of_truth (empty_in flag_width table.now count) }
{
    layer::is_empty::<FLAGS>(table, count).into()
}

// A flag layer without cells.
pub fn tishkolan_flags_clear(table: &mut [u8])
    ensures { table.new ≡ clear_in flag_width table.old }
{
    layer::clear::<FLAGS>(table);
}

// The records of a flag layer.
pub fn tishkolan_flags_list(table: &[u8], count: usize, out: &mut [u8]) -> CountTold
    ensures { changed result out.new ≡ saying (of_count count) (list_in flag_width table.now count out.old) }
{
    face::layers::of_count(count, layer::list::<FLAGS>(table, count, out))
}

// The bits of a cell's value from now on.
pub fn tishkolan_values_set(table: &mut [u8], count: usize, cell: &[u8], bits: u64) -> CountTold
    ensures { changed result table.new ≡ saying (of_count count) (set_in value_width table.old count cell.now bits) }
{
    face::layers::of_count(
        count,
        layer::changes::set::<VALUES>(table, count, cell, bits),
    )
}

// The bits of a cell's value, if there are any.
pub fn tishkolan_values_get(table: &[u8], count: usize, cell: &[u8]) -> KeptTold
    ensures { result ≡ of_kept count count (held_in value_width table.now count cell.now) }
{
    face::layers::of_kept(count, count, layer::get::<VALUES>(table, count, cell))
}

// A cell forgotten, and what was kept of it.
pub fn tishkolan_values_remove(table: &mut [u8], count: usize, cell: &[u8]) -> KeptTold
    ensures { changed result table.new
        ≡ saying (of_kept count (count - 1)) (remove_in value_width table.old count cell.now) }
{
    face::layers::of_kept(
        count,
        count.saturating_sub(1),
        layer::changes::remove::<VALUES>(table, count, cell),
    )
}

// Whether a value layer has a cell.
pub fn tishkolan_values_contains(table: &[u8], count: usize, cell: &[u8]) -> NumberTold
    ensures { result ≡ of_truth (of_contains (held_in value_width table.now count cell.now)) }
{
    layer::contains::<VALUES>(table, count, cell).into()
}

// How many cells a value layer has.
pub fn tishkolan_values_count(table: &[u8], count: usize) -> CountTold
    ensures { result ≡ of_count count (count_in value_width table.now count) }
{
    face::layers::of_count(count, layer::count::<VALUES>(table, count))
}

// Whether a value layer has no cells.
pub fn tishkolan_values_is_empty(table: &[u8], count: usize) -> NumberTold
    ensures { result ≡ of_truth (empty_in value_width table.now count) }
{
    layer::is_empty::<VALUES>(table, count).into()
}

// A value layer without cells.
pub fn tishkolan_values_clear(table: &mut [u8])
    ensures { table.new ≡ clear_in value_width table.old }
{
    layer::clear::<VALUES>(table);
}

// The records of a value layer.
pub fn tishkolan_values_list(table: &[u8], count: usize, out: &mut [u8]) -> CountTold
    ensures { changed result out.new ≡ saying (of_count count) (list_in value_width table.now count out.old) }
{
    face::layers::of_count(count, layer::list::<VALUES>(table, count, out))
}
