// What a parted pair adds to the sheet that is written and to the map: the entry that puts the reason that the search found and its denial; the
// numbers of the entries that describe its two cells grow; and its place in the map gets a number.
#![tactic(auto)]

ghost use Rattle.std.specs.Prelude.{◌≡◌, ◌<◌, ◌+◌, ◌≤◌, length};
ghost use Rattle.compare_entries.specs.Growing.{Roomy, side_of, Conjoins, NameFits, Names};
ghost use Rattle.sheet_writer.specs.Writing.{PutEntry};
ghost use Rattle.theory.specs.Bisimulation.{one_sided, two_sided};
ghost use Rattle.compare_laws.specs.Comparison.{ahead, reason_entry};
ghost use Rattle.compare_laws.specs.Room.{reason_bytes, denied_bytes};
ghost use Rattle.search.specs.Reasons.{Numbered};
ghost use Rattle.compare_entries.specs.Parting.{listed, lists, cause_in, Spells, Puttable, Denies, PartFits, Parted};

use book::{LeftCell, RightCell};
use search::Reason;
use search_pairs::Route;
use sheet::{Kind, Question};
use sheet_writer::Step;

// The left cells' numbers begin at 0 in a list of what describes the cells of both books, the right ones' behind them.
const LEFT: u8 = 0;

const RIGHT: u8 = 64;

// Where the next entry of a sheet goes, its number, and the version of the sheet.
#[derive(Clone, Copy)]
pub struct Pen {
    pub at: usize,
    pub next: u16,
    pub version: u8,
}

// Adds question d to what describes the cell at place x of the numbers: writes "old and d" where the old entry is not always true (0), else d serves
// alone.
fn describe(room: &mut [u8], pen: Pen, numbers: &mut [u16; 128], x: u8, d: Question) -> Pen
    requires { Roomy room.old pen 6 1 × (x < 128) × (length numbers.old ≡ 128) }
    ensures { Conjoins room.old room.new pen result numbers.old numbers.new x d.0 }
{
    let i = x as usize;
    let old = numbers[i];
    if old == 0 {
        numbers[i] = d.0;
        return pen;
    }
    numbers[i] = pen.next;
    let end = sheet_writer::put_and(room, pen.at, Question(old), d);
    Pen {
        at: end,
        next: pen.next + 1,
        ..pen
    }
}

// Names question i, which is true at cell a and false at cell b, at the pair's place of the map; adds it to what describes a, and j, which
// is true at b and false at a, to what describes b.
fn name_pair(
    room: &mut [u8],
    pen: Pen,
    map: &mut [u16],
    place: usize,
    new: &mut [u16; 128],
    a: LeftCell,
    b: RightCell,
    i: Question,
    j: Question,
) -> Pen
    requires { NameFits room.old pen map.old place new.old a.0 b.0 }
    ensures { Names room.old room.new pen result map.old map.new place new.old new.new a.0 b.0 i.0 j.0 }
{
    map[place] = i.0;
    let p = describe(room, pen, new, a.0, i);
    describe(room, p, new, RIGHT + b.0, j)
}

// The steps along a path of links, as many as it has: at each cell the question is the one that the numbers from `base` on give for it.
// Stays: two lists and no `Side`, here and below, since `part` asks nothing of the order of links.
fn way_along(
    labels: &[u16; 512],
    to: &[u8; 512],
    numbers: &[u16; 128],
    base: u8,
    path: Route,
) -> [Step; 4]
    requires { Numbered to.now 4 path × (base ≤ 64) }
    ensures { Spells labels.now to.now (side_of base numbers.now) path result }
{
    let mut steps = [Step {
        label: 0,
        test: Question(0),
    }; 4];
    for i in 0..path.len as usize {
        let k = path.links[i];
        let x = base + search_links::target(to, k);
        steps[i] = Step {
            label: search_links::label(labels, k),
            test: Question(numbers[x as usize]),
        };
    }
    steps
}

// Writes the entry that puts the reason at `at`, and gives the byte after it.
fn put_reason(
    room: &mut [u8],
    at: usize,
    version: u8,
    labels: &[u16; 512],
    to: &[u8; 512],
    numbers: &[u16; 128],
    base: u8,
    why: Reason,
) -> usize
    requires { Puttable version labels.now to.now why × (base ≤ 64) × (at + reason_bytes version ≤ length room.old) }
    ensures { PutEntry version room.old at (reason_entry (side_of base numbers.now) (listed labels.now to.now why)) room.new result }
{
    let first = way_along(labels, to, numbers, base, why.first);
    let steps = &first[..why.first.len as usize];
    match why.kind {
        Kind::Way => sheet_writer::put_way(room, at, version, steps),
        kind => {
            let second = way_along(labels, to, numbers, base, why.second);
            let steps2 = &second[..why.second.len as usize];
            sheet_writer::put_comparison(room, at, version, kind, steps, steps2)
        }
    }
}

// Writes the entry that puts the reason, and its denial.
fn put_denied(
    room: &mut [u8],
    pen: Pen,
    labels: &[u16; 512],
    to: &[u8; 512],
    numbers: &[u16; 128],
    base: u8,
    why: Reason,
) -> Pen
    requires { Puttable pen.version labels.now to.now why × (base ≤ 64) × Roomy room.old pen (denied_bytes pen.version) 2 }
    ensures { Denies room.old room.new pen result (reason_entry (side_of base numbers.now) (listed labels.now to.now why)) }
{
    let mid = put_reason(room, pen.at, pen.version, labels, to, numbers, base, why);
    let end = sheet_writer::put_not(room, mid, Question(pen.next));
    Pen {
        at: end,
        next: pen.next + 2,
        ..pen
    }
}

// Parts the pair (a, b) at its place of the map, where both sides count. The reason is found from the left where `ahead`, else from the right: `labels` and `to` are the links of that
// side's book. `old` describes the cells since the round's start. Of the entry that puts the reason and its denial, the
// one that is true at a is named in the map and added to what describes a, and the other to what describes b.
pub fn part(
    room: &mut [u8],
    pen: Pen,
    map: &mut [u16],
    place: usize,
    labels: &[u16; 512],
    to: &[u8; 512],
    old: &[u16; 128],
    new: &mut [u16; 128],
    a: LeftCell,
    b: RightCell,
    why: Reason,
    ahead: bool,
) -> Pen
    requires { PartFits room.old pen map.old place labels.now to.now new.old a.0 b.0 why }
    ensures { Parted two_sided (lists room.old pen map.old old.now new.old) (lists room.new result map.new old.now new.new) place a.0 b.0 (cause_in labels.now to.now ahead why) }
{
    let d = pen.next;
    if ahead {
        let p = put_denied(room, pen, labels, to, old, LEFT, why);
        return name_pair(room, p, map, place, new, a, b, Question(d), Question(d + 1));
    }
    let p = put_denied(room, pen, labels, to, old, RIGHT, why);
    name_pair(room, p, map, place, new, a, b, Question(d + 1), Question(d))
}

// Parts the pair of the left cell a and a right one at its place of the map, where the left side alone counts: the entry that puts the reason is named in the
// map and added to what describes a. Nothing is denied, and nothing describes the right cells.
pub fn part_left(
    room: &mut [u8],
    pen: Pen,
    map: &mut [u16],
    place: usize,
    labels: &[u16; 512],
    to: &[u8; 512],
    old: &[u16; 128],
    new: &mut [u16; 128],
    a: LeftCell,
    b: RightCell,
    why: Reason,
) -> Pen
    requires { PartFits room.old pen map.old place labels.now to.now new.old a.0 b.0 why }
    ensures { Parted one_sided (lists room.old pen map.old old.now new.old) (lists room.new result map.new old.now new.new) place a.0 b.0 (ahead (listed labels.now to.now why)) }
{
    let d = pen.next;
    let end = put_reason(room, pen.at, pen.version, labels, to, old, LEFT, why);
    let p = Pen {
        at: end,
        next: d + 1,
        ..pen
    };
    map[place] = d;
    describe(room, p, new, a.0, Question(d))
}
