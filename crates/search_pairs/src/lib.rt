// The search for two paths without counterpart, in one direction: from cell x of the first book, with cell y of the other for its partner.
// Whether there are any is decided over classes of paths that no test of the search can tell apart; the first two are then found link by link.
#![tactic(auto)]

ghost use Rattle.std.specs.Prelude.{true, false, ◌≡◌, ◌+◌, ◌^◌, ◌≤◌, ◌<◌, IfSome};
ghost use Rattle.search_links.specs.Sets.{Valued};
ghost use Rattle.search_links.specs.Sides.{view, half};
ghost use Rattle.sheet.specs.Entry.{kind_number};
ghost use Rattle.search_pairs.specs.Pairs.{wanted_of, missing, unmet, failing, fault, kind_in, couple, Asked, Sought};
ghost use Rattle.search_pairs.specs.Tails.{no_links, Prepended, Met, Seeking, Searched, Ahead, Told, Next, Foremost, StandsFor};

pub use pair::Pair;
use search_links::{Half, Side};
use search_tables::Table;
use sheet::Kind;

mod pair;

// What a class of first paths asks of a class of second ones for one comparison: the ends that pass with one of its own, and the other book's
// ends that pass with an end of a path alike to it.
#[derive(Clone, Copy)]
pub struct Wanted {
    pub ends: u64,
    pub answers: u64,
}

// What the class with the ends l and the set r asks for comparison t.
fn asks(ea: &[u64; 128], eb: &[u64; 128], t: Half, l: u64, r: u64) -> Wanted
    requires { Valued ea.now × Valued eb.now }
    ensures { result ≡ wanted_of ea.now eb.now (half t) l r }
{
    Wanted {
        ends: search_links::by_value(ea, t, l),
        answers: search_links::by_value(eb, t, r),
    }
}

// Whether some path of the class with the ends l and the set r has no counterpart.
fn misses(n: Wanted, l: u64, r: u64) -> bool
    ensures { result ≡ missing n l r }
{
    words::meet(n.ends, l) != 0 && words::meet(r, n.answers) == 0
}

// Whether some path of the class has no counterpart by same or by differ.
fn unmatched(same: Wanted, differ: Wanted, l: u64, r: u64) -> bool
    ensures { result ≡ unmet same differ l r }
{
    misses(same, l, r) || misses(differ, l, r)
}

// Whether two tips, one of each of two tables, have no counterpart.
pub fn two_tips(
    ea: &[u64; 128],
    eb: &[u64; 128],
    p: &Table,
    pn: usize,
    q: &Table,
    qn: usize,
) -> bool
    requires { (pn ≤ 64) × (qn ≤ 64) × Valued ea.now × Valued eb.now }
    ensures { Met ea.now eb.now p.now.lefts p.now.rights pn q.now.lefts q.now.rights qn result }
{
    let mut found = false;
    'search: for i in 0..pn {
        let same = asks(ea, eb, search_links::SAME, p.lefts[i], p.rights[i]);
        let differ = asks(ea, eb, search_links::DIFFER, p.lefts[i], p.rights[i]);
        for j in 0..qn {
            found = unmatched(same, differ, q.lefts[j], q.rights[j]);
            if found {
                break 'search;
            }
        }
    }
    found
}

// Whether there are two paths without counterpart: one with `more` links further than the classes of the table p, the other with `rest` links
// further than those of the table q. The one is the first of the two, or the second where they are turned; then the other goes no further.
fn seek(
    a: &Side,
    b: &Side,
    z: &[u64; 64],
    p: &Table,
    pn: usize,
    more: u8,
    q: &Table,
    qn: usize,
    rest: u8,
    turned: bool,
) -> bool
    requires { Seeking (view a.now) (view b.now) a.now.ends b.now.ends pn qn × (more ≤ 4) × (rest ≤ 4) × (turned ≡ true → rest ≡ 0) }
    ensures { Searched (view a.now) (view b.now) z.now a.now.ends b.now.ends turned p.now.lefts p.now.rights pn more q.now.lefts q.now.rights qn rest result }
{
    if more == 0 {
        if turned {
            return two_tips(&a.ends, &b.ends, q, qn, p, pn);
        }
        return seek(a, b, z, q, qn, rest, p, pn, 0, true);
    }
    let mut onward = Table {
        lefts: [0; 64],
        rights: [0; 64],
    };
    let mut at = 0;
    while at < search_steps::LAST_PLACE {
        let part = search_steps::fill(a, b, z, false, p, 0, pn, at, &mut onward, 0, 0);
        if seek(a, b, z, &onward, part.count, more - 1, q, qn, rest, turned) {
            return true;
        }
        at = part.next;
    }
    false
}

// Whether there are two such paths, the one with `more` links further than the tip (x, w).
fn leads_on(
    a: &Side,
    b: &Side,
    z: &[u64; 64],
    x: u8,
    w: u64,
    more: u8,
    q: &Table,
    qn: usize,
    rest: u8,
    turned: bool,
) -> bool
    requires { Seeking (view a.now) (view b.now) a.now.ends b.now.ends 1 qn × (x < 64) × (more ≤ 4) × (rest ≤ 4) × (turned ≡ true → rest ≡ 0) }
    ensures { Told (view a.now) (view b.now) z.now a.now.ends b.now.ends turned x w more q.now.lefts q.now.rights qn rest result }
{
    let mut tip = Table {
        lefts: [0; 64],
        rights: [0; 64],
    };
    tip.lefts[0] = words::only(x);
    tip.rights[0] = w;
    seek(a, b, z, &tip, 1, more, q, qn, rest, turned)
}

// The first link out of x that leads to a tip from which there are two such paths, the one with `more` links further. There is one: the last is
// not tried.
fn next_link(
    a: &Side,
    b: &Side,
    z: &[u64; 64],
    x: u8,
    w: u64,
    more: u8,
    q: &Table,
    qn: usize,
    rest: u8,
    turned: bool,
) -> u16
    requires { Seeking (view a.now) (view b.now) a.now.ends b.now.ends 1 qn × (x < 64) × (more < 4) × (rest ≤ 4) × (turned ≡ true → rest ≡ 0) × Ahead (view a.now) (view b.now) z.now a.now.ends b.now.ends turned x w (more + 1) q.now.lefts q.now.rights qn rest }
    ensures { Next (view a.now) (view b.now) z.now a.now.ends b.now.ends turned x w more q.now.lefts q.now.rights qn rest result }
{
    let last = a.starts[x as usize + 1] - 1;
    for k in a.starts[x as usize]..last {
        let y = search_links::target(&a.to, k);
        let o = search_steps::step(b, z, w, search_links::label(&a.labels, k), y);
        if leads_on(a, b, z, y, o, more, q, qn, rest, turned) {
            return k;
        }
    }
    last
}

// A path by the numbers of its first `len` links.
#[derive(Clone, Copy)]
pub struct Route {
    // Stays: there is no heap, so the links of a path lie in memory of a fixed size, with their number beside.
    pub len: u8,
    pub links: [u16; 4],
}

// The path with no links.
fn no_links() -> Route
    ensures { result ≡ no_links }
{
    Route {
        len: 0,
        links: [0u16; 4],
    }
}

// The path s with link k before it.
fn behind(k: u16, s: Route) -> Route
    requires { s.len < 4 }
    ensures { Prepended k s result }
{
    let links = s.links;
    Route {
        len: s.len + 1,
        links: [k, links[0], links[1], links[2]],
    }
}

// A path and its tip.
#[derive(Clone, Copy)]
pub struct Tail {
    pub cell: u8,
    pub word: u64,
    pub path: Route,
}

// The first path with `more` links from the tip (x, w), in the order of the links, that has no counterpart with one of the others; and its tip.
fn first_path(
    a: &Side,
    b: &Side,
    z: &[u64; 64],
    x: u8,
    w: u64,
    more: u8,
    q: &Table,
    qn: usize,
    rest: u8,
    turned: bool,
) -> Tail
    requires { Seeking (view a.now) (view b.now) a.now.ends b.now.ends 1 qn × (x < 64) × (more ≤ 4) × (rest ≤ 4) × (turned ≡ true → rest ≡ 0) × Ahead (view a.now) (view b.now) z.now a.now.ends b.now.ends turned x w more q.now.lefts q.now.rights qn rest }
    ensures { Foremost (view a.now) (view b.now) z.now a.now.ends b.now.ends turned x w more q.now.lefts q.now.rights qn rest result }
{
    if more == 0 {
        return Tail {
            cell: x,
            word: w,
            path: no_links(),
        };
    }
    let k = next_link(a, b, z, x, w, more - 1, q, qn, rest, turned);
    let y = search_links::target(&a.to, k);
    let o = search_steps::step(b, z, w, search_links::label(&a.labels, k), y);
    let t = first_path(a, b, z, y, o, more - 1, q, qn, rest, turned);
    let s = t.path;
    Tail {
        cell: t.cell,
        word: t.word,
        path: behind(k, s),
    }
}

// Whether two tips have no counterpart by comparison t.
fn fails(ea: &[u64; 128], eb: &[u64; 128], t: Half, x: u8, w: u64, y: u8, o: u64) -> bool
    requires { (x < 64) × (y < 64) }
    ensures { result ≡ failing ea.now eb.now (half t) x w y o }
{
    words::has(search_links::row(ea, t, x), y)
        && words::meet(o, search_links::passing(eb, t, w)) == 0
}

// By which comparison two tips have no counterpart, same or differ, as the kind of the entry that compares them.
fn kind_of(ea: &[u64; 128], eb: &[u64; 128], x: u8, w: u64, y: u8, o: u64) -> Option<Kind>
    requires { (x < 64) × (y < 64) }
    ensures fault { kind_in result ≡ fault ea.now eb.now x w y o }
    ensures compares { IfSome result (λ k. 5 ≤ kind_number k) }
{
    if fails(ea, eb, search_links::SAME, x, w, y, o) {
        return Some(Kind::Same);
    }
    if fails(ea, eb, search_links::DIFFER, x, w, y, o) {
        return Some(Kind::Differ);
    }
    None
}

// The first two paths of i and j links from x, in the order of the links, first by the first path, whose ends pass a comparison, and that have no
// counterpart from y. There are some. The second are told by the paths with `rest` links further than the classes of the table q.
pub fn first_pair(
    a: &Side,
    b: &Side,
    z: &[u64; 64],
    x: u8,
    y: u8,
    i: u8,
    j: u8,
    q: &Table,
    qn: usize,
    rest: u8,
) -> Option<Pair>
    requires { Asked (view a.now) (view b.now) a.now.ends b.now.ends x y i j × (qn ≤ 64) × (rest ≤ 4) × Ahead (view a.now) (view b.now) z.now a.now.ends b.now.ends false x (2 ^ y) i q.now.lefts q.now.rights qn rest × StandsFor (view a.now) (view b.now) z.now a.now.ends b.now.ends x y i j q.now.lefts q.now.rights qn rest }
    ensures { Sought (view a.now) (view b.now) z.now a.now.ends b.now.ends x y i j (couple result) }
{
    let partner = words::only(y);
    let first = first_path(a, b, z, x, partner, i, q, qn, rest, false);
    let mut tip = Table {
        lefts: [0; 64],
        rights: [0; 64],
    };
    tip.lefts[0] = words::only(first.cell);
    tip.rights[0] = first.word;
    let second = first_path(a, b, z, x, partner, j, &tip, 1, 0, true);
    let kind = kind_of(
        &a.ends,
        &b.ends,
        first.cell,
        first.word,
        second.cell,
        second.word,
    )?;
    Some(Pair {
        kind,
        first: first.path,
        second: second.path,
    })
}

// The first two paths of i and j links from x, in the order of the links, first by the first path, whose ends pass a comparison, and that have no
// counterpart from y.
pub fn two_paths(a: &Side, b: &Side, z: &[u64; 64], x: u8, y: u8, i: u8, j: u8) -> Option<Pair>
    requires { Asked (view a.now) (view b.now) a.now.ends b.now.ends x y i j }
    ensures { Sought (view a.now) (view b.now) z.now a.now.ends b.now.ends x y i j (couple result) }
{
    let partner = words::only(y);
    let mut tip = Table {
        lefts: [0; 64],
        rights: [0; 64],
    };
    tip.lefts[0] = words::only(x);
    tip.rights[0] = partner;
    if leads_on(a, b, z, x, partner, i, &tip, 1, j, false) {
        return first_pair(a, b, z, x, y, i, j, &tip, 1, j);
    }
    None
}
