// The tips of the paths of at most so many links from a cell of one book, with a cell of the other for its partner, level by level in one table. A level has
// no tip that the levels below it cover: two paths that fail, of fewest links in all, have none. The last level, and those that are too large for the
// table, have their tips widened to what comparisons see of them, since no path goes on from there.
#![tactic(auto)]

ghost use Rattle.std.specs.Prelude.{true, false, cond, ◌≡◌, ◌+◌, ◌≤◌, ◌<◌, length};
ghost use Rattle.search_links.specs.Sides.{view};
ghost use Rattle.search_links.specs.Sets.{Valued};
ghost use Rattle.search_tables.specs.Tips.{TableRoom};
ghost use Rattle.search_pairs.specs.Pairs.{Asked, Sought, couple};
ghost use Rattle.search_levels.specs.Depths.{Gathered, Laid, Standing, Became, Settled, FirstOf, Judged, silenced, only_first};

use search_links::Side;
use search_pairs::Pair;
use search_tables::{Grown, Table};

// Puts the tips of all paths of `more` links, at least one, from the classes of a table from `first` on into another, as they are or widened, as long as
// there is room. The classes below `base` stay as they are.
fn gather(
    a: &Side,
    b: &Side,
    z: &[u64; 64],
    wide: bool,
    from: &Table,
    first: usize,
    m: usize,
    more: u8,
    table: &mut Table,
    base: usize,
    n: usize,
) -> Grown
    requires { (m ≤ 64) × (more ≡ 0 → ⊥) × TableRoom table.old.lefts table.old.rights n × (base ≤ n) }
    ensures { Gathered (view a.now) (view b.now) z.now a.now.ends b.now.ends wide from.now.lefts from.now.rights first m more table.old.lefts table.old.rights base n table.new.lefts table.new.rights result }
{
    if more == 1 {
        let last = search_steps::fill(a, b, z, wide, from, first, m, 0, table, base, n);
        return Grown {
            count: last.count,
            full: last.next != search_steps::LAST_PLACE,
        };
    }
    let mut count = n;
    let mut next = Table {
        lefts: [0u64; 64],
        rights: [0u64; 64],
    };
    let mut at = 0;
    while at < search_steps::LAST_PLACE {
        let part = search_steps::fill(a, b, z, false, from, first, m, at, &mut next, 0, 0);
        let p = gather(
            a,
            b,
            z,
            wide,
            &next,
            0,
            part.count,
            more - 1,
            table,
            base,
            count,
        );
        if p.full {
            return p;
        }
        count = p.count;
        at = part.next;
    }
    Grown { count, full: false }
}

// A table's levels: the levels up to level k have ends[k] classes, for k up to `known`; those up to `exact` have their tips as they are. `none` says that
// no two paths fail.
#[derive(Clone, Copy)]
pub struct Levels {
    pub ends: [u8; 5],
    pub known: u8,
    pub exact: u8,
    pub none: bool,
}

// The first class of the last level that has its tips as they are.
fn last_exact(t: Levels) -> usize
    requires { (t.exact ≤ 4) × (length t.ends ≡ 5) }
    ensures { FirstOf t result }
{
    if t.exact == 0 {
        return 0;
    }
    let k = t.exact as usize - 1;
    t.ends[k] as usize
}

// The last level that has its tips as they are, once there is one level more, with its tips as they are or widened.
fn exact_after(t: Levels, wide: bool) -> u8
    requires { t.known < 4 }
    ensures { result ≡ cond wide t.exact (t.known + 1) }
{
    if wide {
        return t.exact;
    }
    t.known + 1
}

// One level more, with its tips as they are or widened, or the same levels if there is no room for it.
fn deepen(a: &Side, b: &Side, z: &[u64; 64], table: &mut Table, t: Levels, wide: bool) -> Levels
    requires { Laid table.old.lefts table.old.rights t × (t.known < 4) × (wide ≡ false → t.exact ≡ t.known) }
    ensures { Became (view a.now) (view b.now) z.now a.now.ends b.now.ends table.old.lefts table.old.rights t table.new.lefts table.new.rights result × (result.known ≤ t.known + 1) }
{
    let from = *table;
    let mut ends = t.ends;
    let known = t.known as usize;
    let exact = t.exact as usize;
    let base = ends[known] as usize;
    let m = ends[exact] as usize;
    let first = last_exact(t);
    let more = t.known + 1 - t.exact;
    let g = gather(a, b, z, wide, &from, first, m, more, table, base, base);
    if g.full {
        return t;
    }
    ends[known + 1] = g.count as u8;
    Levels {
        ends,
        known: t.known + 1,
        exact: exact_after(t, wide),
        ..t
    }
}

// Whether the next level has its tips widened: where it is the last, where a level below has, or where the table is too small for them as they are.
fn widens(t: Levels, c: u8, small: bool) -> bool
    requires { (t.exact ≤ t.known) × (t.known ≤ 4) }
    ensures { result ≡ false → t.exact ≡ t.known }
{
    small || t.exact < t.known || t.known + 1 == c
}

// More levels, up to level n or until there is no room for the next. Of bound c the last is level c.
fn reach(
    a: &Side,
    b: &Side,
    z: &[u64; 64],
    table: &mut Table,
    t: Levels,
    n: u8,
    c: u8,
    small: bool,
) -> Levels
    requires { Laid table.old.lefts table.old.rights t × (n ≤ 4) }
    ensures { Became (view a.now) (view b.now) z.now a.now.ends b.now.ends table.old.lefts table.old.rights t table.new.lefts table.new.rights result }
{
    let mut at = t;
    while at.known < n {
        let known = at.known;
        let wide = widens(at, c, small);
        let next = deepen(a, b, z, table, at, wide);
        if next.known == known {
            return next;
        }
        at = next;
    }
    at
}

// The same levels, which say that no two paths of at most c links fail if they reach so far and no two of their tips do.
fn judged(ea: &[u64; 128], eb: &[u64; 128], table: &Table, t: Levels, c: u8) -> Levels
    requires { Laid table.now.lefts table.now.rights t × Valued ea.now × Valued eb.now }
    ensures { Judged ea.now eb.now c table.now.lefts table.now.rights t result }
{
    if t.known < c {
        return t;
    }
    let n = t.ends[c as usize] as usize;
    let fails = search_pairs::two_tips(ea, eb, table, n, table, n);
    Levels { none: !fails, ..t }
}

// The same levels, which say that no two paths fail.
fn quiet(t: Levels) -> Levels
    ensures { result ≡ silenced t }
{
    Levels { none: true, ..t }
}

// All levels up to level c, as far as there is room for them; and whether they, or one tip a cell where some are too large, tell that no two paths fail.
fn all_levels(
    a: &Side,
    b: &Side,
    z: &[u64; 64],
    table: &mut Table,
    t: Levels,
    x: u8,
    y: u8,
    c: u8,
) -> Levels
    requires { Asked (view a.now) (view b.now) a.now.ends b.now.ends x y c c × Laid table.old.lefts table.old.rights t × Standing (view a.now) (view b.now) z.now a.now.ends b.now.ends x y c table.old.lefts table.old.rights t }
    ensures { Laid table.new.lefts table.new.rights result × Standing (view a.now) (view b.now) z.now a.now.ends b.now.ends x y c table.new.lefts table.new.rights result }
{
    let whole = reach(a, b, z, table, t, c, c, false);
    if whole.known < c {
        if search_cover::by_cells(a, b, z, x, y, c) {
            return quiet(whole);
        }
        let wide = reach(a, b, z, table, whole, c, c, true);
        return judged(&a.ends, &b.ends, table, wide, c);
    }
    judged(&a.ends, &b.ends, table, whole, c)
}

// The levels that are asked for two paths of s links in all: those of so many links for less than 3, which are soon looked through; then all.
pub fn ready(
    a: &Side,
    b: &Side,
    z: &[u64; 64],
    table: &mut Table,
    t: Levels,
    x: u8,
    y: u8,
    c: u8,
    s: u8,
) -> Levels
    requires { Asked (view a.now) (view b.now) a.now.ends b.now.ends x y c c × Laid table.old.lefts table.old.rights t × Standing (view a.now) (view b.now) z.now a.now.ends b.now.ends x y c table.old.lefts table.old.rights t }
    ensures { Laid table.new.lefts table.new.rights result × Standing (view a.now) (view b.now) z.now a.now.ends b.now.ends x y c table.new.lefts table.new.rights result }
{
    if 3 < s {
        return t;
    }
    if s == 3 {
        return all_levels(a, b, z, table, t, x, y, c);
    }
    reach(a, b, z, table, t, s.min(c), c, false)
}

// The levels of the table with the one tip (x, {y}): level 0.
pub fn first_level() -> Levels
    ensures { result ≡ only_first }
{
    Levels {
        ends: [1u8; 5],
        known: 0,
        exact: 0,
        none: false,
    }
}

// The first two paths of i and j links from x that fail, where no two of fewer links in all do: by the levels, as far as they reach.
pub fn pair_at(
    a: &Side,
    b: &Side,
    z: &[u64; 64],
    table: &Table,
    t: Levels,
    x: u8,
    y: u8,
    c: u8,
    i: u8,
    j: u8,
) -> Option<Pair>
    requires { Asked (view a.now) (view b.now) a.now.ends b.now.ends x y i j × (i ≤ j) × (j ≤ c) × Laid table.now.lefts table.now.rights t × Standing (view a.now) (view b.now) z.now a.now.ends b.now.ends x y c table.now.lefts table.now.rights t × Settled (view a.now) (view b.now) z.now a.now.ends b.now.ends x y c (i + j) }
    ensures { Sought (view a.now) (view b.now) z.now a.now.ends b.now.ends x y i j (couple result) }
{
    if t.known < j {
        return search_pairs::two_paths(a, b, z, x, y, i, j);
    }
    let pn = t.ends[i as usize] as usize;
    let qn = t.ends[j as usize] as usize;
    if search_pairs::two_tips(&a.ends, &b.ends, table, pn, table, qn) {
        return search_pairs::first_pair(a, b, z, x, y, i, j, table, qn, 0);
    }
    None
}
