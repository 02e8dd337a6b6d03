// The waiting entries of a search, in bytes that a caller lends: a heap of four children, which has its least key at place 0. What each function
// leaves is a function of the bytes, whether they are a heap or not. An entry is four little-endian words: f, the cell's high word, its low word, g.
// In this order they decide which entry is less.
#![tactic(auto)]

ghost use Rattle.std.specs.Prelude.{◌≡◌, ◌+◌, ◌-◌, ◌*◌, ◌≤◌, ◌<◌, ltb, length};
ghost use Rattle.waiting.specs.Inner.Entries.{entry_key, entry_at, key_in, entry_stored};
ghost use Rattle.waiting.specs.Inner.Sift.{first_least, child_in, dug_in, risen_in, push_in, pop_in};
ghost use Rattle.waiting.specs.Width.{entry_width};

use refusal::Cell;

// An entry: f, the two words of its cell, g.
pub const ENTRY_WIDTH: usize = 32;

#[derive(Clone, Copy)]
pub struct Entry {
    // The cost so far and the estimate of what is left, together.
    pub f: u64,
    pub cell: Cell,
    // The cost so far.
    pub g: u64,
}

// The entry at place i.
fn entry_at(heap: &[u8], i: usize) -> Entry
    requires { entry_width * i + entry_width ≤ length heap.now }
    ensures { result ≡ entry_at heap.now i }
{
    let at = ENTRY_WIDTH * i;
    let f = words::read64_little(heap, at);
    let high = words::read64_little(heap, at + 8);
    let low = words::read64_little(heap, at + 16);
    let g = words::read64_little(heap, at + 24);
    Entry {
        f,
        cell: Cell { high, low },
        g,
    }
}

// Puts e at place i.
fn store(heap: &mut [u8], i: usize, e: Entry)
    requires { entry_width * i + entry_width ≤ length heap.old }
    ensures { heap.new ≡ entry_stored heap.old i e }
{
    let at = ENTRY_WIDTH * i;
    words::write64_little(heap, at, e.f);
    words::write64_little(heap, at + 8, e.cell.high);
    words::write64_little(heap, at + 16, e.cell.low);
    words::write64_little(heap, at + 24, e.g);
}

// Puts the entry at `from` at `to` as well: word by word, so that each is one load and one store.
fn copy(heap: &mut [u8], from: usize, to: usize)
    requires { (entry_width * from + entry_width ≤ length heap.old) × (entry_width * to + entry_width ≤ length heap.old) }
    ensures { heap.new ≡ entry_stored heap.old to (entry_at heap.old from) }
{
    let source = ENTRY_WIDTH * from;
    let target = ENTRY_WIDTH * to;
    let f = words::read64_little(heap, source);
    words::write64_little(heap, target, f);
    let high = words::read64_little(heap, source + 8);
    words::write64_little(heap, target + 8, high);
    let low = words::read64_little(heap, source + 16);
    words::write64_little(heap, target + 16, low);
    let g = words::read64_little(heap, source + 24);
    words::write64_little(heap, target + 24, g);
}

// Whether a is less than b, which has the same f.
fn less_tied(a: Entry, b: Entry) -> bool
    requires { a.f ≡ b.f }
    ensures { result ≡ ltb (entry_key a) (entry_key b) }
{
    if a.cell.high == b.cell.high {
        if a.cell.low == b.cell.low {
            return a.g < b.g;
        }
        return a.cell.low < b.cell.low;
    }
    a.cell.high < b.cell.high
}

// Whether e is less than the entry at place i: by f alone, but for a tie.
fn less_than_at(heap: &[u8], e: Entry, i: usize) -> bool
    requires { entry_width * i + entry_width ≤ length heap.now }
    ensures { result ≡ ltb (entry_key e) (key_in heap.now i) }
{
    let f = words::read64_little(heap, ENTRY_WIDTH * i);
    if e.f == f {
        return less_tied(e, entry_at(heap, i));
    }
    e.f < f
}

// Whether the entry at place i is less than that at place j: by f alone, but for a tie.
fn less_at(heap: &[u8], i: usize, j: usize) -> bool
    requires { (entry_width * i + entry_width ≤ length heap.now) × (entry_width * j + entry_width ≤ length heap.now) }
    ensures { result ≡ ltb (key_in heap.now i) (key_in heap.now j) }
{
    let a = words::read64_little(heap, ENTRY_WIDTH * i);
    let b = words::read64_little(heap, ENTRY_WIDTH * j);
    if a == b {
        return less_tied(entry_at(heap, i), entry_at(heap, j));
    }
    a < b
}

// The place of the lesser of the entries at a and a + 1, of equal ones a, with no branch on which it is.
fn lesser(heap: &[u8], a: usize) -> usize
    requires { entry_width * a + 2 * entry_width ≤ length heap.now }
    ensures { result ≡ first_least (key_in heap.now) a 1 }
{
    a + less_at(heap, a + 1, a) as usize
}

// The place of the least of the four entries from a on, the first of equal ones.
fn least_of_four(heap: &[u8], a: usize) -> usize
    requires { entry_width * a + 4 * entry_width ≤ length heap.now }
    ensures { result ≡ first_least (key_in heap.now) a 3 }
{
    let b = lesser(heap, a);
    let c = lesser(heap, a + 2);
    b + (c - b) * (less_at(heap, c, b) as usize)
}

// The place of the least child of i, which has one at least; the first of equal ones.
fn least_child(heap: &[u8], size: usize, i: usize) -> usize
    requires { (4 * i + 1 < size) × (entry_width * size ≤ length heap.now) }
    ensures { result ≡ child_in heap.now size i }
{
    let first = 4 * i + 1;
    if first + 3 < size {
        return least_of_four(heap, first);
    }
    let mut least = first;
    for j in first + 1..size {
        if less_at(heap, j, least) {
            least = j;
        }
    }
    least
}

// Moves the hole at place 0 down to where it has no child, always to the least one; answers that place.
fn dig(heap: &mut [u8], size: usize) -> usize
    requires { (0 < size) × (entry_width * size ≤ length heap.old) }
    ensures { (heap.new, result) ≡ dug_in size heap.old size 0 }
{
    let mut hole = 0;
    while 4 * hole + 1 < size {
        let child = least_child(heap, size, hole);
        copy(heap, child, hole);
        hole = child;
    }
    hole
}

// Moves the hole up until e fits into it, and puts e there.
fn rise(heap: &mut [u8], size: usize, start: usize, e: Entry)
    requires { (start < size) × (entry_width * size ≤ length heap.old) }
    ensures { heap.new ≡ risen_in start heap.old start e }
{
    let mut hole = start;
    while 0 < hole {
        let parent = (hole - 1) / 4;
        if less_than_at(heap, e, parent) {
            copy(heap, parent, hole);
            hole = parent;
        } else {
            store(heap, hole, e);
            return;
        }
    }
    store(heap, 0, e);
}

// Adds e to the entries that wait: where they are a heap they stay one (pushed-in).
pub fn push(heap: &mut [u8], size: usize, e: Entry)
    requires { entry_width * (size + 1) ≤ length heap.old }
    ensures { heap.new ≡ push_in heap.old size e }
{
    rise(heap, size + 1, size, e);
}

// The first of the entries that wait, which stays.
pub fn first(heap: &[u8], size: usize) -> Entry
    requires { (0 < size) × (entry_width * size ≤ length heap.now) }
    ensures { result ≡ entry_at heap.now 0 }
{
    entry_at(heap, 0)
}

// Takes the first of the entries that wait: where they are a heap, the least (popped-in).
pub fn pop(heap: &mut [u8], size: usize) -> Entry
    requires { (0 < size) × (entry_width * size ≤ length heap.old) }
    ensures { (result ≡ entry_at heap.old 0) × (heap.new ≡ pop_in heap.old size) }
{
    let least = entry_at(heap, 0);
    let rest = size - 1;
    if 0 < rest {
        let last = entry_at(heap, rest);
        let hole = dig(heap, rest);
        rise(heap, rest, hole, last);
    }
    least
}
