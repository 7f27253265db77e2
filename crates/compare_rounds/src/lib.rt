// The rounds of a comparison, until one parts no pair. At the start of a round the relation is read from the map once, and what describes the cells is
// kept as the round found it; at its end, which cells lost a pair, so that the next round looks only at what is near them.
#![tactic(auto)]

ghost use Rattle.std.specs.Prelude.{◌≡◌};
ghost use Rattle.compare_map.specs.Relation.{Mapped};
ghost use Rattle.compare_pair.specs.Settling.{chart_of};
ghost use Rattle.compare_round.specs.Idle.{idle_in};
ghost use Rattle.compare_rounds.specs.Turns.{at_rest, no_pair, live_after, Opens, Turned, Refines};

use compare_entries::Pen;
use compare_pair::Sizes;
use compare_round::Live;
use search_links::Side;

// What a round leaves: where the next entry goes, and the cells that the next round has to look at.
#[derive(Clone, Copy)]
pub struct Turn {
    pub pen: Pen,
    pub live: Live,
}

// The cells near those that lost a pair, where `rows` and `columns` are the relation as it was and the map tells what it is.
fn live_after(
    a: &Side,
    b: &Side,
    rows: &[u64; 64],
    columns: &[u64; 64],
    map: &[u16],
    sizes: Sizes,
) -> Live
    requires { Mapped map.now sizes.left sizes.right }
    ensures { result ≡ live_after a.now.starts a.now.to b.now.starts b.now.to rows.now columns.now map.now sizes }
{
    let n = sizes.left;
    let m = sizes.right;
    let after = compare_map::rows_of(map, n, m);
    let across = compare_map::columns_of(&after, n, m);
    let left = compare_near::near_changes(&a.starts, &a.to, n, rows, &after, sizes.bound);
    let right = compare_near::near_changes(&b.starts, &b.to, m, columns, &across, sizes.bound);
    Live { left, right }
}

// Takes one round over all pairs. Where the answer's next entry is that of `pen`, the round parted no pair, and the comparison is done.
pub fn round(
    a: &Side,
    b: &Side,
    room: &mut [u8],
    pen: Pen,
    map: &mut [u16],
    new: &mut [u16; 128],
    sizes: Sizes,
    live: Live,
) -> Turn
    requires { Opens (chart_of a.now) (chart_of b.now) sizes (idle_in live) (at_rest room.old pen map.old new.old) }
    ensures { Turned (chart_of a.now) (chart_of b.now) sizes (idle_in live) (idle_in result.live) (at_rest room.old pen map.old new.old) (at_rest room.new result.pen map.new new.new) }
{
    let n = sizes.left;
    let m = sizes.right;
    let rows = compare_map::rows_of(map, n, m);
    let columns = compare_map::columns_of(&rows, n, m);
    let old = *new;
    let next = compare_round::settle_all(
        a, b, &rows, &columns, &old, room, pen, map, new, sizes, live,
    );
    let near = live_after(a, b, &rows, &columns, map, sizes);
    Turn {
        pen: next,
        live: near,
    }
}

// Takes rounds until one parts no pair. The zeros of the map are then the matched pairs, and every other number names an entry that parts its pair.
pub fn refine(
    a: &Side,
    b: &Side,
    room: &mut [u8],
    pen: Pen,
    map: &mut [u16],
    new: &mut [u16; 128],
    sizes: Sizes,
) -> Pen
    requires { Opens (chart_of a.now) (chart_of b.now) sizes no_pair (at_rest room.old pen map.old new.old) }
    ensures { Refines (chart_of a.now) (chart_of b.now) sizes (at_rest room.old pen map.old new.old) (at_rest room.new result map.new new.new) }
{
    let all = words::full(64);
    let mut p = pen;
    let mut live = Live {
        left: all,
        right: all,
    };
    loop {
        let turn = round(a, b, room, p, map, new, sizes, live);
        let q = turn.pen;
        if q.next == p.next {
            return q;
        }
        p = q;
        live = turn.live;
    }
}
