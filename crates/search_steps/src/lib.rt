// Paths from a cell of one book, each with the paths of the other book that are alike to it, by their tips, in tables: where they lead by one
// link more.
#![tactic(auto)]

ghost use Rattle.std.specs.Prelude.{◌≡◌, ◌+◌, ◌*◌, ◌≤◌, ◌<◌, length};
ghost use Rattle.search_links.specs.Hops.{every_label};
ghost use Rattle.search_links.specs.Sides.{view, half};
ghost use Rattle.search_steps.specs.Paths.{step_word};
ghost use Rattle.search_tables.specs.Tips.{TableRoom};
ghost use Rattle.search_steps.specs.Tables.{NextLabel, Unites, Rowed, stretch, Stretched, Begins, last_place, Filled};

use search_links::{Half, Side};
use search_tables::Table;

// The cells that a link with the label leads to from a cell of w, of those related to y.
pub fn step(a: &Side, z: &[u64; 64], w: u64, label: u16, y: u8) -> u64
    requires { y < 64 }
    ensures { result ≡ step_word (view a.now) z.now w label y }
{
    let next = search_links::image(a, w, label);
    words::meet(next, z[y as usize])
}

// How many labels there can be: each is below.
// Stays: the number stands for no label, as it is above every label: the smallest of several, or none, is then one `min`, which an Option
// would not make plainer.
const EVERY_LABEL: usize = 65536;

// The place where all classes and labels are gone through.
// Stays: the number stands for no place, as it is above every place: whether one comes before another is then one test, which an Option would not
// make plainer.
pub const LAST_PLACE: usize = 4194304;

// The smallest label from `least` on of the links out of the cells; where there is none, the number of all labels.
fn next_label(a: &Side, cells: u64, least: usize) -> usize
    requires { least ≤ every_label }
    ensures { NextLabel (view a.now) cells least result }
{
    let mut out = EVERY_LABEL;
    let mut left = cells;
    while left != 0 {
        let x = words::lowest(left);
        out = search_links::least_label(a, x, least, out);
        left = words::without(left, x);
    }
    out
}

// A set that has all of the sets from `first` on, up to the n-th.
fn union_of(sets: &[u64; 64], first: usize, n: usize) -> u64
    requires { n ≤ 64 }
    ensures { Unites sets.now first n result }
{
    let mut out = 0u64;
    for e in first..n {
        out = words::union(out, sets[e]);
    }
    out
}

// Puts the row of each of the cells into half t of a table of rows: the cells that a link with the label leads to from it. The answer is the next label of
// their links; where there is none, the number of all labels.
fn put_rows(a: &Side, cells: u64, label: u16, t: Half, rows: &mut [u64; 128]) -> usize
    requires { length rows.old ≡ 128 }
    ensures { Rowed (view a.now) cells label (64 * half t) rows.old rows.new × NextLabel (view a.now) cells (label + 1) result }
{
    let mut next = EVERY_LABEL;
    let mut left = cells;
    while left != 0 {
        let x = words::lowest(left);
        let row = search_links::row_by(a, x, label, next);
        rows[t.start() + x as usize] = row.set;
        next = row.next;
        left = words::without(left, x);
    }
    next
}

// A table that was too full for some class of another: how many classes it has, and the first class whose tips it does not all have.
#[derive(Clone, Copy)]
pub struct Full {
    pub count: usize,
    pub class: usize,
}

// Puts the tips one link beyond the classes from `from` on, by one label, into a table of `count` classes, as long as there is room. The answer is how many
// classes it then has; where it was too full, also for which class. `rows` has
// the rows of the label, of the one book in its low half and of the other in its high half.
fn fill_label(
    z: &[u64; 64],
    ea: &[u64; 128],
    eb: &[u64; 128],
    wide: bool,
    rows: &[u64; 128],
    table: &Table,
    n: usize,
    from: usize,
    out: &mut Table,
    base: usize,
    count: usize,
) -> Result<usize, Full>
    requires { TableRoom out.old.lefts out.old.rights count × (base ≤ count) × (n ≤ 64) }
    ensures { Stretched z.now ea.now eb.now wide rows.now table.now.lefts table.now.rights n from out.old.lefts out.old.rights base count out.new.lefts out.new.rights (stretch n from result) }
{
    let mut total = count;
    for e in from..n {
        let cells = search_links::passing(rows, Half::Low, table.lefts[e]);
        let s = search_links::passing(rows, Half::High, table.rights[e]);
        let g = search_tables::grow(z, ea, eb, wide, out, base, total, cells, s);
        total = g.count;
        if g.full {
            return Err(Full {
                count: total,
                class: e,
            });
        }
    }
    Ok(total)
}

// The class where a label is begun: the first, or that of the place `at` where it is a later one by the same label.
fn begin(first: usize, label: usize, at: usize) -> usize
    ensures { Begins first label at result }
{
    if label == at / 64 {
        return first.max(at % 64);
    }
    first
}

// The tips one link beyond some of a table's classes, as a table of `count` classes, and the place where to go on.
#[derive(Clone, Copy)]
pub struct Part {
    pub count: usize,
    pub next: usize,
}

// Puts the tips one link beyond those of a table's classes from `first` on, as they are or widened, into a table of `count` classes, from the place `at` on,
// until it is full or covers all. The place of a label and class e is 64 × the label + e. The classes below `base` stay as they are.
pub fn fill(
    a: &Side,
    b: &Side,
    z: &[u64; 64],
    wide: bool,
    table: &Table,
    first: usize,
    n: usize,
    at: usize,
    out: &mut Table,
    base: usize,
    count: usize,
) -> Part
    requires { (n ≤ 64) × (at ≤ last_place) × TableRoom out.old.lefts out.old.rights count × (base ≤ count) }
    ensures { Filled (view a.now) (view b.now) z.now a.now.ends b.now.ends wide table.now.lefts table.now.rights first n at out.old.lefts out.old.rights base count out.new.lefts out.new.rights result }
{
    let here = union_of(&table.lefts, first, n);
    let there = union_of(&table.rights, first, n);
    let mut rows = [0u64; 128];
    let mut total = count;
    let mut label = next_label(a, here, at / 64);
    let mut from = begin(first, label, at);
    while label < EVERY_LABEL {
        let next = put_rows(a, here, label as u16, Half::Low, &mut rows);
        put_rows(b, there, label as u16, Half::High, &mut rows);
        match fill_label(
            z, &a.ends, &b.ends, wide, &rows, table, n, from, out, base, total,
        ) {
            Ok(more) => total = more,
            Err(full) => {
                return Part {
                    count: full.count,
                    next: 64 * label + full.class,
                };
            }
        }
        from = first;
        label = next;
    }
    Part {
        count: total,
        next: LAST_PLACE,
    }
}
