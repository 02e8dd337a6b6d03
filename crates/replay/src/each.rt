// A list replayed record by record: each call is made anew and must say what its record expects.
ghost use Rattle.std.specs.Prelude.{◌≡◌, ◌*◌, ◌≤◌, length};
ghost use Rattle.replay.specs.Inner.Counted.{Counted};
ghost use Rattle.replay.specs.Inner.Searches.{records_in};

use crate::layers::Tables;
use crate::{cells, paths, recorded, searches};

// What the calls of a list are on.
#[derive(Clone, Copy)]
pub enum Kind {
    Cells,
    Layers,
    Paths,
    Searches,
}

// How many records a list has, how many calls said something else than their record, and the first of these, counted from 0.
#[derive(Clone, Copy)]
pub struct Tally {
    pub answers: usize,
    pub differ: usize,
    pub first: Option<usize>,
}

// How many records a list has. A rest that is no whole record is left out.
fn records(list: &[u8], kind: Kind) -> usize
    ensures { (result ≡ records_in kind list.now) × (64 * result ≤ length list.now) }
{
    match kind {
        Kind::Searches => searches::record_bytes(list) / 64,
        _ => list.len() / 64,
    }
}

// Replays each record of the list, in order. Only calls on layers change the tables, and only searches look into the rest of the list.
pub fn replay(list: &[u8], kind: Kind) -> Tally
    ensures { Counted (records_in kind list.now) result }
{
    let answers = records(list, kind);
    let mut tables = Tables::new();
    let mut differ = 0;
    let mut first = None;
    for i in 0..answers {
        let record = recorded::record_at(list, 64 * i);
        let agrees = match kind {
            Kind::Cells => cells::agrees(&record),
            Kind::Layers => tables.agrees(&record),
            Kind::Paths => paths::agrees(&record),
            Kind::Searches => searches::agrees(list, &record),
        };
        if !agrees {
            differ += 1;
            first = first.or(Some(i));
        }
    }
    Tally {
        answers,
        differ,
        first,
    }
}
