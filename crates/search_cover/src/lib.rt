// A quick decision for pairs that stay: a table with one tip a cell that covers the tips of all paths of at most c links. Where no two of its tips fail,
// no two paths do, of whatever lengths.
#![tactic(auto)]

ghost use Rattle.std.specs.Prelude.{true, ◌≡◌, ◌<◌};
ghost use Rattle.search_links.specs.Sides.{view};
ghost use Rattle.search_links.specs.Sets.{image_of};
ghost use Rattle.search_pairs.specs.Pairs.{Asked};
ghost use Rattle.search_cover.specs.Covering.{Celled, Cut, BeyondTip, BeyondCells, NoneFails};

use search_links::Side;
use search_tables::Table;

// Puts the tip (y, o) into a table with a class a cell: where it has a tip of y already, that one's set is cut with o.
fn cut(table: &mut Table, y: u8, o: u64)
    requires { Celled table.old.lefts table.old.rights × (y < 64) }
    ensures { Cut table.old.lefts table.old.rights y o table.new.lefts table.new.rights }
{
    let own = words::only(y);
    let e = y as usize;
    if table.lefts[e] == 0 {
        table.lefts[e] = own;
        table.rights[e] = o;
        return;
    }
    let set = words::meet(table.rights[e], o);
    table.lefts[e] = own;
    table.rights[e] = set;
}

// The cells that a link with the label leads to from a cell of w; those by another label, `known`, are at hand.
fn image_by(b: &Side, w: u64, label: u16, known: u16, image: u64) -> u64
    requires { image ≡ image_of (view b.now) w known }
    ensures { result ≡ image_of (view b.now) w label }
{
    if label == known {
        return image;
    }
    search_links::image(b, w, label)
}

// Puts the tips one link beyond the tip (x, w) into such a table. Links with one label come one after another.
fn cut_links(a: &Side, b: &Side, z: &[u64; 64], x: u8, w: u64, table: &mut Table)
    requires { (x < 64) × Celled table.old.lefts table.old.rights }
    ensures { BeyondTip (view a.now) (view b.now) z.now x w table.old.lefts table.old.rights table.new.lefts table.new.rights }
{
    let from = a.starts[x as usize];
    let until = a.starts[x as usize + 1];
    let mut label = 0u16;
    let mut image = search_links::image(b, w, label);
    for k in from..until {
        let y = search_links::target(&a.to, k);
        let next = search_links::label(&a.labels, k);
        image = image_by(b, w, next, label, image);
        label = next;
        let o = words::meet(image, z[y as usize]);
        cut(table, y, o);
    }
}

// Puts the tips one link beyond those of a table with a class a cell into another.
fn cut_cells(a: &Side, b: &Side, z: &[u64; 64], level: &Table, table: &mut Table)
    requires { Celled level.now.lefts level.now.rights × Celled table.old.lefts table.old.rights }
    ensures { BeyondCells (view a.now) (view b.now) z.now level.now.lefts level.now.rights 64 table.old.lefts table.old.rights table.new.lefts table.new.rights }
{
    for x in 0..64u8 {
        let e = x as usize;
        if level.lefts[e] != 0 {
            cut_links(a, b, z, x, level.rights[e], table);
        }
    }
}

// True only where no two paths of at most c links from x fail. It goes by one tip a cell: its set is what the sets of all tips of the cell have in
// common, or less. It is false where two of these fail.
pub fn by_cells(a: &Side, b: &Side, z: &[u64; 64], x: u8, y: u8, c: u8) -> bool
    requires { Asked (view a.now) (view b.now) a.now.ends b.now.ends x y c c }
    ensures { (result ≡ true) → NoneFails (view a.now) (view b.now) z.now a.now.ends b.now.ends x y c }
{
    let mut table = Table {
        lefts: [0u64; 64],
        rights: [0u64; 64],
    };
    cut(&mut table, x, words::only(y));
    for k in 0..c {
        let level = table;
        cut_cells(a, b, z, &level, &mut table);
    }
    !search_pairs::two_tips(&a.ends, &b.ends, &table, 64, &table, 64)
}
