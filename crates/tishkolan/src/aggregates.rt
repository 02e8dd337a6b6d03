// The aggregates and the rollup of a value layer for C, which asks for one by its number.
ghost use Rattle.std.specs.Prelude.{◌≡◌};
ghost use Rattle.general.specs.Changed.{changed, saying};
ghost use Rattle.face.specs.Aggregates.{aggregation_of, no_aggregation, aggregate_told, no_rollup, rollup_asked};
ghost use Rattle.face.specs.Layers.{of_count};

use aggregate::Aggregation;
use face::{BitsTold, CountTold};
use refusal::Refusal;

#[tactic(auto, unfolding(face::specs::Aggregates::aggregation_of))]
fn aggregation_of(how: u32) -> Option<Aggregation>
    ensures { result ≡ aggregation_of how }
{
    match how {
        0 => Some(Aggregation::Count),
        1 => Some(Aggregation::Sum),
        2 => Some(Aggregation::Mean),
        3 => Some(Aggregation::Min),
        4 => Some(Aggregation::Max),
        5 => Some(Aggregation::Median),
        _ => None,
    }
}

// Why there is no aggregate of none: list and layer are tested all the same.
#[tactic(auto, unfolding(face::specs::Aggregates::no_aggregation))]
fn no_aggregation(table: &[u8], count: usize, cells: &[u8]) -> Refusal
    ensures { result ≡ no_aggregation table.now count cells.now }
{
    if cells.len() % cell::CELL_WIDTH != 0 {
        Refusal::BadList
    } else if table::is_sound(table, table::VALUE_WIDTH, count) {
        Refusal::OutOfRange
    } else {
        Refusal::BadLayer
    }
}

// The aggregate of what is kept of the cells of a list.
#[tactic(auto, unfolding(face::specs::Aggregates::aggregate_told))]
pub fn tishkolan_values_aggregate(table: &[u8], count: usize, cells: &[u8], how: u32) -> BitsTold
    ensures { result ≡ aggregate_told table.now count cells.now how }
{
    let found = match aggregation_of(how) {
        Some(aggregation) => aggregate::aggregate(table, count, cells, aggregation),
        None => Err(no_aggregation(table, count, cells)),
    };
    found.into()
}

// The fine layer is tested all the same.
#[tactic(auto, unfolding(face::specs::Aggregates::no_rollup))]
fn no_rollup(fine: &[u8], count: usize) -> Refusal
    ensures { result ≡ no_rollup fine.now count }
{
    if table::is_sound(fine, table::VALUE_WIDTH, count) {
        Refusal::OutOfRange
    } else {
        Refusal::BadLayer
    }
}

#[tactic(auto, unfolding(face::specs::Aggregates::rollup_asked))]
fn rollup_asked(fine: &[u8], count: usize, how: u32, coarse: &mut [u8]) -> Result<usize, Refusal>
    ensures { changed result coarse.new ≡ rollup_asked fine.now count how coarse.old }
{
    match aggregation_of(how) {
        Some(aggregation) => rollup::rollup(fine, count, aggregation, coarse),
        None => Err(no_rollup(fine, count)),
    }
}

// The layer of the parents; given is the count of the coarse layer before.
pub fn tishkolan_values_rollup(
    fine: &[u8],
    count: usize,
    how: u32,
    coarse: &mut [u8],
    given: usize,
) -> CountTold
    ensures { changed result coarse.new ≡ saying (of_count given) (rollup_asked fine.now count how coarse.old) }
{
    face::layers::of_count(given, rollup_asked(fine, count, how, coarse))
}
