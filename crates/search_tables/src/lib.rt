// Tables of classes of tips. A tip (x, w) is where a path of one book ends, cell x, and the set w of the cells where the paths of the other book
// alike to it end. A table has n classes: class e has the tips of the cells of lefts[e] with the set rights[e]. Of tips of one cell
// only those with the smallest sets are kept: whatever fails with a set fails with each set inside of it.
#![tactic(auto)]

ghost use Rattle.std.specs.Prelude.{◌≡◌, ◌≤◌, ◌<◌};
ghost use Rattle.search_tables.specs.Tips.{TableRoom, Rest, Rowmates, ClassPlace, Joined, Narrowed, Put, put_as, Grew};

// Room for 64 classes: class e has the tips of the cells of lefts[e] with the set rights[e].
// Stays: there is no heap, so the classes lie in memory of a fixed size, and how many there are goes beside them.
#[derive(Clone, Copy)]
pub struct Table {
    pub lefts: [u64; 64],
    pub rights: [u64; 64],
}

// The cells of a set whose row of z is the row.
fn rowmates(z: &[u64; 64], cells: u64, row: u64) -> u64
    ensures { Rowmates z.now cells row result }
{
    let mut out = 0u64;
    let mut left = cells;
    while left != 0 {
        let x = words::lowest(left);
        left = words::without(left, x);
        if z[x as usize] == row {
            out = words::with(out, x);
        }
    }
    out
}

// The cells of a set that are in no class with a set inside of w. The last classes, which hold what was put in last, are asked first.
fn uncovered(table: &Table, n: usize, cells: u64, w: u64) -> u64
    requires { n ≤ 64 }
    ensures { Rest table.now.lefts table.now.rights n cells w result }
{
    let mut left = cells;
    for e in (0..n).rev() {
        if words::inside(table.rights[e], w) {
            left = words::minus(left, table.lefts[e]);
            if left == 0 {
                return left;
            }
        }
    }
    left
}

// One of n classes from `base` on that has the set w or no cells, or n.
fn place(table: &Table, base: usize, n: usize, w: u64) -> usize
    requires { (base ≤ n) × (n ≤ 64) }
    ensures { ClassPlace table.now.lefts table.now.rights base n w result }
{
    for e in base..n {
        if table.rights[e] == w || table.lefts[e] == 0 {
            return e;
        }
    }
    n
}

// Puts the tips of the cells with the set w into class e, which has that set or no cells or is the next, and says how many classes there are.
fn join(table: &mut Table, base: usize, n: usize, e: usize, cells: u64, w: u64) -> usize
    requires { TableRoom table.old.lefts table.old.rights n × (e < 64) × ClassPlace table.old.lefts table.old.rights base n w e }
    ensures { Joined table.old.lefts table.old.rights base n cells w table.new.lefts table.new.rights result }
{
    table.rights[e] = w;
    if e < n {
        table.lefts[e] = words::union(table.lefts[e], cells);
        return n;
    }
    table.lefts[e] = cells;
    n + 1
}

// Takes the cells out of each class from `base` on whose set is wider than w.
fn narrow(table: &mut Table, base: usize, n: usize, cells: u64, w: u64)
    requires { TableRoom table.old.lefts table.old.rights n × (base ≤ n) }
    ensures { Narrowed table.old.lefts table.old.rights base n cells w table.new.lefts × (table.new.rights ≡ table.old.rights) }
{
    for e in base..n {
        let set = table.rights[e];
        if set != w && words::inside(w, set) {
            table.lefts[e] = words::minus(table.lefts[e], cells);
        }
    }
}

// Puts the tips of the cells with the set w into a table of n classes, but for those that it covers, if there is room: as they are or, if they are widened,
// those of all cells that pass same with one of them, so that the table covers more of what comes. The classes below `base` stay as they are. The answer is
// how many classes the table then has; where it is too full, there is none, and it stays as it is.
fn put(
    own: &[u64; 128],
    wide: bool,
    table: &mut Table,
    base: usize,
    n: usize,
    cells: u64,
    w: u64,
) -> Option<usize>
    requires { TableRoom table.old.lefts table.old.rights n × (base ≤ n) }
    ensures { Put own.now wide table.old.lefts table.old.rights base n cells w table.new.lefts table.new.rights (put_as n result) }
{
    let new = uncovered(table, n, cells, w);
    if new == 0 {
        return Some(n);
    }
    let e = place(table, base, n, w);
    if e == 64 {
        return None;
    }
    let more = words::union(new, search_links::seen_as(own, wide, new));
    let count = join(table, base, n, e, more, w);
    narrow(table, base, count, more, w);
    Some(count)
}

// How many classes a table has, and whether it was too full for what was put into it: then it has what was put in before.
#[derive(Clone, Copy)]
pub struct Grown {
    pub count: usize,
    // Stays: the count stands in either case, so neither an Option nor a Result says both.
    pub full: bool,
}

// Puts the tips of the cells y of a set into a table, as long as there is room: s cut with row y of z, as they are or widened. Those with the same row are
// put at once. The classes below `base` stay as they are.
pub fn grow(
    z: &[u64; 64],
    own: &[u64; 128],
    ends: &[u64; 128],
    wide: bool,
    table: &mut Table,
    base: usize,
    n: usize,
    cells: u64,
    s: u64,
) -> Grown
    requires { TableRoom table.old.lefts table.old.rights n × (base ≤ n) }
    ensures { Grew z.now own.now ends.now wide table.old.lefts table.old.rights base n cells s table.new.lefts table.new.rights result }
{
    let mut count = n;
    let mut left = cells;
    while left != 0 {
        let y = words::lowest(left);
        let row = z[y as usize];
        let mates = rowmates(z, left, row);
        let set = search_links::seen_as(ends, wide, words::meet(s, row));
        match put(own, wide, table, base, count, mates, set) {
            Some(more) => count = more,
            None => return Grown { count, full: true },
        }
        left = words::minus(left, mates);
    }
    Grown { count, full: false }
}
