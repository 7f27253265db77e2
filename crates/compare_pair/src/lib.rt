// One pair of a round: it stays where no reason parts it under the relation that the round began with, from either side that counts; else it is
// parted, and what parts it is written.
#![tactic(auto)]

ghost use Rattle.std.specs.Prelude.{suc};
ghost use Rattle.compare_entries.specs.Parting.{lists};
ghost use Rattle.compare_pair.specs.Settling.{chart_of, basis, place_of, Undecided, Stands, Goes};

use book::{LeftCell, RightCell};
use compare_entries::Pen;
use search_links::Side;

// The setting in numbers: how many left and right cells there are, the bound, and whether both sides count or the left one alone.
#[derive(Clone, Copy)]
pub struct Sizes {
    pub left: usize,
    pub right: usize,
    pub bound: u8,
    pub both: bool,
}

// A pair of cells, of so many.
#[derive(Clone, Copy)]
pub struct Case {
    pub sizes: Sizes,
    pub left: LeftCell,
    pub right: RightCell,
}

// Settles a pair whose place of the map holds 0: looks for a reason from the left, then, where both sides count, from the right, and parts the pair at the
// first. `a` and `b` are the left and the right book, as the search reads them. `rows` and `columns` are the relation that the round began with, from the
// left and from the right; `old` describes the cells since then, `new` as they have become, the left cells from 0 on and the right ones from 64 on.
// Stays: room, pen, map and new one by one, here and in the rounds, as in `compare_entries::part`: a struct that lends them would be lent itself, and each
// contract would say `draft.old.room.now` for `room.old`.
pub fn settle(
    a: &Side,
    b: &Side,
    rows: &[u64; 64],
    columns: &[u64; 64],
    old: &[u16; 128],
    room: &mut [u8],
    pen: Pen,
    map: &mut [u16],
    new: &mut [u16; 128],
    here: Case,
) -> Pen
    requires { Stands (basis (chart_of a.now) (chart_of b.now) here.sizes rows.now columns.now) (place_of here) (lists room.old pen map.old old.now new.old) × Undecided map.old here }
    ensures { Goes (basis (chart_of a.now) (chart_of b.now) here.sizes rows.now columns.now) (place_of here) (suc (place_of here)) (lists room.old pen map.old old.now new.old) (lists room.new result map.new old.now new.new) }
{
    let s = here.sizes;
    let both = s.both;
    let i = here.left;
    let j = here.right;
    let place = (i.0 as usize) * s.right + (j.0 as usize);
    if let Some(why) = search::reason_for(a, b, rows, i.0, j.0, s.bound) {
        if both {
            return compare_entries::part(
                room, pen, map, place, &a.labels, &a.to, old, new, i, j, why, true,
            );
        }
        return compare_entries::part_left(
            room, pen, map, place, &a.labels, &a.to, old, new, i, j, why,
        );
    }
    if !both {
        return pen;
    }
    match search::reason_for(b, a, columns, j.0, i.0, s.bound) {
        Some(why) => compare_entries::part(
            room, pen, map, place, &b.labels, &b.to, old, new, i, j, why, false,
        ),
        None => pen,
    }
}
