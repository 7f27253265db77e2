// A book's links by their numbers, as the search for a reason reaches them: where the links out of a cell begin, and sets of cells
// carried along them as words. Nothing here knows a book's bytes: `edges` loads them.
#![tactic(auto)]

ghost use Rattle.std.specs.Prelude.{ℕ, ◌≡◌, ◌*◌, ◌≤◌, ◌<◌, get_or};
ghost use Rattle.search_links.specs.Hops.{hops_of, lead, Starts, Opened, LeastLabel};
ghost use Rattle.search_links.specs.Sets.{reached, RowBy, leads_to, spread, image_of, row_at, Paired, Valued, seen_as};
ghost use Rattle.search_links.specs.Sides.{view, half};

pub use side::Side;

mod side;

// Which half of a table of 128 rows: the rows from 0 on, or those from 64 on.
#[derive(Clone, Copy, PartialEq, Eq, Debug)]
pub enum Half {
    Low = 0,
    High = 1,
}

impl Half {
    // The first of its rows.
    pub fn start(self) -> usize
        ensures { result ≡ 64 * half self }
    {
        64 * (self as usize)
    }
}

// The comparisons, by the half that has the rows of the cells that pass one: those of same come first.
pub const SAME: Half = Half::Low;

pub const DIFFER: Half = Half::High;

// The first link from cell x or a later one, where no link before k is.
fn lead_from(count: usize, from: &[u8; 512], k: usize, x: u8) -> usize
    requires { (count ≤ 512) × (k ≤ lead count from.now x) }
    ensures { result ≡ lead count from.now x }
{
    for at in k..count {
        if x <= from[at] {
            return at;
        }
    }
    count
}

// The table of starts of `count` links in the order of their from cells: the links out of cell x are those from starts[x] up to
// starts[x + 1].
pub fn starts(count: usize, from: &[u8; 512]) -> [u16; 65]
    requires { count ≤ 512 }
    ensures { Starts count from.now result }
{
    let mut table = [0u16; 65];
    let mut k: usize = 0;
    for x in 0..65 {
        k = lead_from(count, from, k, x as u8);
        table[x] = k as u16;
    }
    table
}

// The label of link k.
pub fn label(labels: &[u16; 512], k: u16) -> u16
    requires { k < 512 }
    ensures { result ≡ get_or labels.now k 0 }
{
    labels[k as usize]
}

// The cell that link k leads to.
pub fn target(to: &[u8; 512], k: u16) -> u8
    requires { k < 512 }
    ensures { result ≡ get_or to.now k 0 }
{
    to[k as usize]
}

// Of the labels from `least` on of the links out of cell x, and of `best`, the smallest.
pub fn least_label(a: &Side, x: u8, least: usize, best: usize) -> usize
    requires { x < 64 }
    ensures { LeastLabel (view a.now) x least best result }
{
    let until = a.starts[x as usize + 1];
    for k in a.starts[x as usize]..until {
        let found = label(&a.labels, k) as usize;
        if least <= found {
            return found.min(best);
        }
    }
    best
}

// The cells that a link with some label leads to from a cell, and the next label of its links.
#[derive(Clone, Copy)]
pub struct LabelRow {
    pub set: u64,
    pub next: usize,
}

// The cells that a link with the label `by` leads to from cell x; and of the labels above it of the links out of x, and of `best`, the smallest.
pub fn row_by(a: &Side, x: u8, by: u16, best: usize) -> LabelRow
    requires { x < 64 }
    ensures { RowBy (view a.now) x by best result }
{
    let until = a.starts[x as usize + 1];
    let mut set: u64 = 0;
    for k in a.starts[x as usize]..until {
        let found = label(&a.labels, k);
        if by < found {
            return LabelRow {
                set,
                next: (found as usize).min(best),
            };
        }
        if found == by {
            set = words::with(set, target(&a.to, k));
        }
    }
    LabelRow { set, next: best }
}

// The cells that a link with the label leads to from cell x.
pub fn targets(a: &Side, x: u8, label: u16) -> u64
    requires { x < 64 }
    ensures { result ≡ reached (hops_of (view a.now) x) label }
{
    let row = row_by(a, x, label, 0);
    row.set
}

// Whether a link out of cell x leads to a cell of w.
pub fn leads(starts: &[u16; 65], to: &[u8; 512], x: u8, w: u64) -> bool
    requires { Opened starts.now to.now × (x < 64) }
    ensures { result ≡ leads_to starts.now to.now w x }
{
    let until = starts[x as usize + 1];
    for k in starts[x as usize]..until {
        if words::has(w, target(to, k)) {
            return true;
        }
    }
    false
}

// The union of the rows that a rule gives for the cells of w.
fn spread<F: Fn(u8) -> u64>(w: u64, rule: F) -> u64
    requires { (x : ℕ) → x < 64 → F.pre rule x }
    ensures { (f : ℕ → ℕ) → ((x r : ℕ) → x < 64 → F.post rule x r → r ≡ f x) → result ≡ spread f w }
{
    let mut out: u64 = 0;
    let mut left = w;
    while left != 0 {
        let x = words::lowest(left);
        let more = rule(x);
        out = words::union(out, more);
        left = words::without(left, x);
    }
    out
}

// The cells that a link with the label leads to from a cell of w.
pub fn image(a: &Side, w: u64, label: u16) -> u64
    ensures { result ≡ image_of (view a.now) w label }
{
    spread(w, |x| targets(a, x, label))
}

// Rows of both comparisons in one table: row x of `same` at x, row x of `differ` at 64 + x.
pub fn paired(same: &[u64; 64], differ: &[u64; 64]) -> [u64; 128]
    ensures { Paired same.now differ.now result }
{
    let mut rows = [0u64; 128];
    let (first, second) = rows.split_at_mut(64);
    first.copy_from_slice(same);
    second.copy_from_slice(differ);
    rows
}

// Row x of a half of a table: of comparison t, where the table has the rows of both.
pub fn row(ends: &[u64; 128], t: Half, x: u8) -> u64
    requires { x < 64 }
    ensures { result ≡ row_at ends.now (half t) x }
{
    ends[t.start() + (x as usize)]
}

// The cells that pass comparison t with some cell of w.
pub fn passing(ends: &[u64; 128], t: Half, w: u64) -> u64
    ensures { result ≡ spread (row_at ends.now (half t)) w }
{
    spread(w, |x| row(ends, t, x))
}

// The same of comparisons that go by a value: of the cells of w that pass same with each other one is asked.
pub fn by_value(ends: &[u64; 128], t: Half, w: u64) -> u64
    requires { Valued ends.now }
    ensures { result ≡ spread (row_at ends.now (half t)) w }
{
    let mut out: u64 = 0;
    let mut left = w;
    while left != 0 {
        let x = words::lowest(left);
        let more = row(ends, t, x);
        let alike = row(ends, SAME, x);
        out = words::union(out, more);
        left = words::minus(words::without(left, x), alike);
    }
    out
}

// A set of cells as it is, or all cells that pass same with one of its cells: comparisons see no more of it.
pub fn seen_as(ends: &[u64; 128], wide: bool, w: u64) -> u64
    ensures { result ≡ seen_as ends.now wide w }
{
    if wide {
        return passing(ends, SAME, w);
    }
    w
}
