// Cell labels for C: a label is 37 characters with nothing behind them.
ghost use Rattle.std.specs.Prelude.{◌≡◌};
ghost use Rattle.label.specs.Label.{label_of};
ghost use Rattle.face.specs.Told.{filled, fill};
ghost use Rattle.face.specs.Labels.{label_told, place_in, place_filled, cell_told};

use face::{PlaceTold, RefusalTold};
use refusal::{Cell, Refusal, Room};

// A cell's label at the front of what C lends.
fn put_label(out: &mut [u8], c: Cell) -> RefusalTold
    ensures { filled result out.new ≡ fill (label_of c) out.old }
{
    if out.len() < label::LABEL_WIDTH {
        return Refusal::NoRoom(Room::Output).into();
    }
    let text = label::to_bech32m(c);
    words::bytes::copy_front(out, &text, label::LABEL_WIDTH);
    face::answered()
}

#[tactic(auto, unfolding(face::specs::Labels::label_told))]
pub fn tishkolan_cell_to_bech32m(cell: &[u8], out: &mut [u8]) -> RefusalTold
    ensures { filled result out.new ≡ label_told cell.now out.old }
{
    match cell::from_bytes(cell) {
        Ok(c) => put_label(out, c),
        Err(r) => r.into(),
    }
}

// Where a label is mistyped.
fn place_in(a: Result<Cell, Refusal>) -> u64
    ensures { result ≡ place_in a }
{
    match a {
        Err(r) => refusal::row_of(r).place,
        Ok(_) => 0,
    }
}

// The cell of a label, with the place of the first mistake.
#[tactic(auto, unfolding(face::specs::Labels::cell_told))]
pub fn tishkolan_cell_from_bech32m(label: &[u8], out: &mut [u8]) -> PlaceTold
    ensures { place_filled result out.new ≡ cell_told label.now out.old }
{
    let read = label::from_bech32m(label);
    let place = place_in(read);
    let refusal = crate::cells::put_cell(out, read);
    PlaceTold { refusal, place }
}
