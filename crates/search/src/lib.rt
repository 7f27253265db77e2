// Why cell x of one book and cell y of the other part, in one direction: a link, or two paths, without counterpart; fewest links first.
// Callers exchange the books for the other direction.
#![tactic(auto)]

ghost use Rattle.std.specs.Prelude.{◌+◌, ◌≤◌, ◌<◌};
ghost use Rattle.search_links.specs.Sides.{view};
ghost use Rattle.search_links.specs.Sets.{Valued};
ghost use Rattle.search_pairs.specs.Pairs.{couple};
ghost use Rattle.search_levels.specs.Depths.{Laid, Standing, Settled};
ghost use Rattle.search.specs.Lengths.{Finding, Total, Most, Single};
ghost use Rattle.search.specs.Reasons.{Answered};

use search_levels::Levels;
use search_links::Side;
use search_pairs::{Pair, Route};
use search_tables::Table;
use sheet::Kind;

// A reason to part x and y, by the kind of the entry that asks it: one link, which is `first`; or two paths whose recordings are same or differ.
#[derive(Clone, Copy)]
pub struct Reason {
    pub kind: Kind,
    pub first: Route,
    pub second: Route,
}

// The first two paths of s links in all, the first no longer than the second, neither longer than c: those with the shortest first path. No two of fewer
// links in all fail.
fn by_lengths(
    a: &Side,
    b: &Side,
    z: &[u64; 64],
    table: &Table,
    levels: Levels,
    x: u8,
    y: u8,
    c: u8,
    s: u8,
) -> Option<Pair>
    requires { (x < 64) × (y < 64) × (c ≤ 4) × (s ≤ c + c) × Valued a.now.ends × Valued b.now.ends × Laid table.now.lefts table.now.rights levels × Standing (view a.now) (view b.now) z.now a.now.ends b.now.ends x y c table.now.lefts table.now.rights levels × Settled (view a.now) (view b.now) z.now a.now.ends b.now.ends x y c s }
    ensures { Finding (view a.now) (view b.now) z.now a.now.ends b.now.ends x y (Total c s) (couple result) }
{
    for i in s.saturating_sub(c)..=s / 2 {
        let found = search_levels::pair_at(a, b, z, table, levels, x, y, c, i, s - i);
        if found.is_some() {
            return found;
        }
    }
    None
}

// The first two paths of at most c links each, fewest in all first, by the levels of x with y for its partner.
fn by_total(a: &Side, b: &Side, z: &[u64; 64], x: u8, y: u8, c: u8) -> Option<Pair>
    requires { (x < 64) × (y < 64) × (c ≤ 4) × Valued a.now.ends × Valued b.now.ends }
    ensures { Finding (view a.now) (view b.now) z.now a.now.ends b.now.ends x y (Most c) (couple result) }
{
    let mut table = Table {
        lefts: [0u64; 64],
        rights: [0u64; 64],
    };
    table.lefts[0] = words::only(x);
    table.rights[0] = words::only(y);
    let mut levels = search_levels::first_level();
    for s in 0..=c + c {
        levels = search_levels::ready(a, b, z, &mut table, levels, x, y, c, s);
        if levels.none {
            return None;
        }
        let found = by_lengths(a, b, z, &table, levels, x, y, c, s);
        if found.is_some() {
            return found;
        }
    }
    None
}

// The first link out of x that has no counterpart from y.
fn one_link(a: &Side, b: &Side, z: &[u64; 64], x: u8, y: u8) -> Option<u16>
    requires { (x < 64) × (y < 64) }
    ensures { Single (view a.now) (view b.now) z.now x y result }
{
    let partner = words::only(y);
    let from = a.starts[x as usize];
    let until = a.starts[x as usize + 1];
    for k in from..until {
        let label = search_links::label(&a.labels, k);
        let target = search_links::target(&a.to, k);
        if search_steps::step(b, z, partner, label, target) == 0 {
            return Some(k);
        }
    }
    None
}

// The reason to part x and y, from x's side, under the relation z: row i of z has the cells related to cell i. The first link without
// counterpart; else the first two paths of at most c links each, with fewest links in all; or none, and then the clauses hold from x's side.
pub fn reason_for(a: &Side, b: &Side, z: &[u64; 64], x: u8, y: u8, c: u8) -> Option<Reason>
    requires { (x < 64) × (y < 64) × (c ≤ 4) × Valued a.now.ends × Valued b.now.ends }
    ensures { Answered (view a.now) (view b.now) z.now a.now.ends b.now.ends x y c result }
{
    match one_link(a, b, z, x, y) {
        Some(link) => Some(Reason {
            kind: Kind::Way,
            first: Route {
                len: 1,
                links: [link, 0, 0, 0],
            },
            second: Route {
                len: 0,
                links: [0u16; 4],
            },
        }),
        None => {
            let pair = by_total(a, b, z, x, y, c)?;
            Some(Reason {
                kind: pair.kind,
                first: pair.first,
                second: pair.second,
            })
        }
    }
}
