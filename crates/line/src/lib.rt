// The cells along the line between two cells, sample by sample.
#![tactic(auto)]

ghost use Rattle.std.specs.Prelude.{◌≡◌, true, [], ◌∷◌, ◌≤◌, leb, length};
ghost use Rattle.cell.specs.Cell.{coord_of};
ghost use Rattle.general.specs.Changed.{changed};
ghost use Rattle.cell_list.specs.Listing.{cells, room_in, cells_laid, listed_in};
ghost use Rattle.line.specs.Line.{apart, are_short, line_short, steps_of, line_between, sample_of, sample_point, fraction_of, sampled, cells_along};
ghost use Rattle.line.specs.Line.{line_of, trace_in};
ghost use Rattle.line.specs.Inner.Steps.{most_steps};

use refusal::{Cell, Coord, Refusal, Room};
use snap::Point;

// Two ends, the place of the start, the differences to the end, and the number of samples.
#[derive(Clone, Copy)]
pub struct Line {
    pub start: Cell,
    pub end: Cell,
    pub from: Coord,
    pub by: Coord,
    pub steps: u64,
}

// One coordinate at a fraction of the way.
#[tactic(auto, unfolding(crate::specs::Line::sample_of))]
fn coordinate_at(from: i32, by: i32, t: f64) -> f64
    ensures { result ≡ sample_of from by t }
{
    from as f64 + t * (by as f64)
}

// The point at a fraction of the way.
#[tactic(auto, unfolding(crate::specs::Line::sample_point))]
fn point_at(line: Line, t: f64) -> Point
    ensures { result ≡ sample_point line t }
{
    Point {
        x: coordinate_at(line.from.x, line.by.x, t),
        y: coordinate_at(line.from.y, line.by.y, t),
        z: coordinate_at(line.from.z, line.by.z, t),
    }
}

// How much of the way sample i has gone.
#[tactic(auto, unfolding(crate::specs::Line::fraction_of))]
fn fraction(i: u64, steps: u64) -> f64
    requires i_le_most_steps { i ≤ most_steps }
    requires steps_le_most_steps { steps ≤ most_steps }
    ensures { result ≡ fraction_of i steps }
{
    i as f64 / steps as f64
}

// What sample i adds to a list that ends with `last`.
#[tactic(auto, unfolding(crate::specs::Line::sampled))]
fn sampled(line: Line, last: Cell, i: u64) -> Option<Cell>
    requires i_le_most_steps { i ≤ most_steps }
    requires steps_le_most_steps { line.steps ≤ most_steps }
    ensures { result ≡ sampled line last i }
{
    let place = snap::physical_to_lattice(point_at(line, fraction(i, line.steps)), 0).ok()?;
    let next = cell::packed(
        cell::frame(line.start),
        cell::resolution(line.start),
        place,
        0,
        0,
    );
    if cell::same(next, last) {
        None
    } else {
        Some(next)
    }
}

// Whether the list has at most so many cells; it is left as soon as it has more.
fn fits(line: Line, room: usize) -> bool
    requires { line.steps ≤ most_steps }
    ensures { result ≡ leb (length (cells_along line)) room }
{
    let mut last = line.start;
    let mut left = room;
    for i in 1..=line.steps {
        if left == 0 {
            return false;
        }
        if let Some(c) = sampled(line, last, i) {
            last = c;
            left -= 1;
        }
    }
    if cell::same(last, line.end) {
        1 <= left
    } else {
        2 <= left
    }
}

// The list at the front of a buffer that holds it, and how many cells it has.
fn write(line: Line, output: &mut [u8]) -> usize
    requires steps_le_most_steps { line.steps ≤ most_steps }
    requires line_len_bound { length (cells_along line) ≤ room_in output.old }
    ensures value { result ≡ length (cells_along line) }
    ensures output_after { output.new ≡ cells_laid (cells_along line) output.old }
{
    cell_list::put(output, 0, line.start);
    let mut last = line.start;
    let mut count = 1;
    for i in 1..=line.steps {
        if let Some(c) = sampled(line, last, i) {
            cell_list::put(output, count, c);
            last = c;
            count += 1;
        }
    }
    if !cell::same(last, line.end) {
        cell_list::put(output, count, line.end);
        count += 1;
    }
    count
}

// The same; where the list cannot be longer, without counting.
fn has_room(line: Line, room: usize) -> bool
    requires { line.steps ≤ most_steps }
    ensures { result ≡ leb (length (cells_along line)) room }
{
    line.steps + 2 <= room as u64 || fits(line, room)
}

// The list into a buffer. Its room is tested before a cell is written, so that a refusal leaves the buffer as it was.
fn listed(line: Line, output: &mut [u8]) -> Result<usize, Refusal>
    requires { line.steps ≤ most_steps }
    ensures { changed result output.new ≡ listed_in (cells (cells_along line)) output.old }
{
    if !has_room(line, cell_list::room(output)) {
        return Err(Refusal::NoRoom(Room::Output));
    }
    Ok(write(line, output))
}

// One cell into a buffer.
fn single(c: Cell, output: &mut [u8]) -> Result<usize, Refusal>
    ensures { changed result output.new ≡ listed_in (cells (c ∷ [])) output.old }
{
    if cell_list::room(output) == 0 {
        return Err(Refusal::NoRoom(Room::Output));
    }
    cell_list::put(output, 0, c);
    Ok(1)
}

// Whether the differences have 32 bits.
#[tactic(auto, unfolding(crate::specs::Line::are_short, distance::specs::Distance::differences_fit))]
fn are_short(from: Coord, to: Coord) -> bool
    ensures { result ≡ are_short (apart from to) }
{
    distance::differences_fit(to, from)
}

#[tactic(auto, unfolding(crate::specs::Line::are_short))]
fn differences(from: Coord, to: Coord) -> Coord
    requires { are_short (apart from to) ≡ true }
    ensures { result ≡ apart from to }
{
    Coord {
        x: to.x - from.x,
        y: to.y - from.y,
        z: to.z - from.z,
    }
}

// Twice the largest difference.
#[tactic(auto, unfolding(crate::specs::Line::steps_of))]
fn steps(by: Coord) -> u64
    ensures { (result ≡ steps_of by) × (result ≤ most_steps) }
{
    let x = by.x.unsigned_abs();
    let y = by.y.unsigned_abs();
    let z = by.z.unsigned_abs();
    2 * x.max(y).max(z) as u64
}

// The line between two cells of one parity each that are not the same, or CoordOverflow.
fn stretched(start: Cell, end: Cell, output: &mut [u8]) -> Result<usize, Refusal>
    ensures { changed result output.new
        ≡ listed_in (line_short (are_short (apart (coord_of start) (coord_of end))) (line_between start end)) output.old }
{
    let from = cell::coord(start);
    let to = cell::coord(end);
    if !are_short(from, to) {
        return Err(Refusal::CoordOverflow);
    }
    let by = differences(from, to);
    let line = Line {
        start,
        end,
        from,
        by,
        steps: steps(by),
    };
    listed(line, output)
}

// The line between two cells: equal ends, then the parity of either, then how far they are apart.
#[tactic(auto, unfolding(crate::specs::Line::line_of))]
fn between(start: Cell, end: Cell, output: &mut [u8]) -> Result<usize, Refusal>
    ensures { changed result output.new ≡ listed_in (line_of start end) output.old }
{
    if cell::same(start, end) {
        return single(start, output);
    }
    lattice::parity_of(cell::coord(start))?;
    lattice::parity_of(cell::coord(end))?;
    stretched(start, end, output)
}

// The cells along the line between two cells into a buffer, and how many they are.
#[tactic(auto, unfolding(crate::specs::Line::trace_in))]
pub fn trace_line(start: &[u8], end: &[u8], output: &mut [u8]) -> Result<usize, Refusal>
    ensures { changed result output.new ≡ trace_in start.now end.now output.old }
{
    let first = cell::from_bytes(start)?;
    let second = cell::from_bytes(end)?;
    between(first, second, output)
}
