// One round of a comparison: every pair whose place of the map holds 0 is settled once, in the order of the places. A pair is not searched where it is
// known that it stays: because no pair near it was parted (theory, `near_kept`), or, where both sides count, because a row before tells, for rows that share
// a pair that stays are equal (theory, `RowLaws`).
#![tactic(auto)]

ghost use Rattle.std.specs.Prelude.{◌&&◌, ◌||◌, ◌≡◌, suc, ◌+◌, ◌*◌, ◌<◌, length};
ghost use Rattle.compare_entries.specs.Parting.{lists};
ghost use Rattle.compare_pair.specs.Settling.{chart_of, basis_with, Stands, Goes};
ghost use Rattle.compare_round.specs.Idle.{idle_in};
ghost use Rattle.compare_round.specs.Twins.{earlier, first_row, twin_of, shares, Before};

use book::{LeftCell, RightCell};
use compare_entries::Pen;
use compare_pair::{Case, Sizes};
use search_links::Side;

// The first row before row i whose place in column j holds 0. A row has m places.
fn first_row(map: &[u16], m: usize, i: usize, j: usize) -> Option<usize>
    requires { i * m + j < length map.now }
    ensures { result ≡ earlier i (first_row m map.now i j) }
{
    for x in 0..i {
        if map[x * m + j] == 0 {
            return Some(x);
        }
    }
    None
}

// The twin of row i, a row before it that shares an unparted pair with it, where one is known, after column j. `twin` is that before column j.
fn twin_of(map: &[u16], m: usize, i: usize, j: usize, twin: Option<usize>) -> Option<usize>
    requires { i * m + j < length map.now }
    ensures { result ≡ twin_of m map.now i j twin }
{
    if twin.is_some() {
        return twin;
    }
    if map[i * m + j] == 0 {
        return first_row(map, m, i, j);
    }
    None
}

// Whether the pair (i, j) stays by row i's twin: both sides count, there is a twin, and its place in column j holds 0.
fn follows(map: &[u16], m: usize, i: usize, j: usize, twin: Option<usize>, both: bool) -> bool
    requires { (i * m + j < length map.now) × Before i twin }
    ensures { result ≡ (both && shares m map.now twin j) }
{
    if !both {
        return false;
    }
    match twin {
        Some(x) => map[x * m + j] == 0,
        None => false,
    }
}

// The cells that a round has to look at: a pair stays, unless its left and its right cell are both among them.
#[derive(Clone, Copy)]
pub struct Live {
    pub left: u64,
    pub right: u64,
}

// Whether the pair (i, j) stays: by the cells that the round has to look at, or by row i's twin.
fn stays(map: &[u16], i: usize, j: usize, twin: Option<usize>, sizes: Sizes, live: Live) -> bool
    requires { (i * sizes.right + j < length map.now) × (i < 64) × (j < 64) × Before i twin }
    ensures { result ≡ (idle_in live i j || (sizes.both && shares sizes.right map.now twin j)) }
{
    if !words::has(live.left, i as u8) {
        return true;
    }
    if !words::has(live.right, j as u8) {
        return true;
    }
    follows(map, sizes.right, i, j, twin, sizes.both)
}

// A row of the map, of so many.
#[derive(Clone, Copy)]
pub struct Row {
    pub sizes: Sizes,
    pub number: usize,
    pub live: Live,
}

// Settles the pairs of a row. The other parameters are those of `compare_pair::settle`.
fn settle_row(
    a: &Side,
    b: &Side,
    rows: &[u64; 64],
    columns: &[u64; 64],
    old: &[u16; 128],
    room: &mut [u8],
    pen: Pen,
    map: &mut [u16],
    new: &mut [u16; 128],
    row: Row,
) -> Pen
    requires { Stands (basis_with (idle_in row.live) (chart_of a.now) (chart_of b.now) row.sizes rows.now columns.now) (row.number * row.sizes.right) (lists room.old pen map.old old.now new.old) × (row.number < row.sizes.left) }
    ensures { Goes (basis_with (idle_in row.live) (chart_of a.now) (chart_of b.now) row.sizes rows.now columns.now) (row.number * row.sizes.right) (suc row.number * row.sizes.right) (lists room.old pen map.old old.now new.old) (lists room.new result map.new old.now new.new) }
{
    let sizes = row.sizes;
    let m = sizes.right;
    let i = row.number;
    let mut p = pen;
    let mut twin = None;
    for column in 0..m {
        let place = i * m + column;
        let still = map[place] == 0;
        if still {
            if !stays(map, i, column, twin, sizes, row.live) {
                let left = i as u8;
                let right = column as u8;
                let here = Case {
                    sizes,
                    left: LeftCell(left),
                    right: RightCell(right),
                };
                p = compare_pair::settle(a, b, rows, columns, old, room, p, map, new, here);
            }
        }
        twin = twin_of(map, m, i, column, twin);
    }
    p
}

// Settles all pairs. The other parameters are those of `compare_pair::settle`.
pub fn settle_all(
    a: &Side,
    b: &Side,
    rows: &[u64; 64],
    columns: &[u64; 64],
    old: &[u16; 128],
    room: &mut [u8],
    pen: Pen,
    map: &mut [u16],
    new: &mut [u16; 128],
    sizes: Sizes,
    live: Live,
) -> Pen
    requires { Stands (basis_with (idle_in live) (chart_of a.now) (chart_of b.now) sizes rows.now columns.now) 0 (lists room.old pen map.old old.now new.old) }
    ensures { Goes (basis_with (idle_in live) (chart_of a.now) (chart_of b.now) sizes rows.now columns.now) 0 (sizes.left * sizes.right) (lists room.old pen map.old old.now new.old) (lists room.new result map.new old.now new.new) }
{
    let n = sizes.left;
    let mut p = pen;
    for row in 0..n {
        let this = Row {
            sizes,
            number: row,
            live,
        };
        p = settle_row(a, b, rows, columns, old, room, p, map, new, this);
    }
    p
}
