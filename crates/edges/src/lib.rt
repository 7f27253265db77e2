// The links of a book loaded once into three lists, and sets of cells carried along them as words: the hot loops of Truth and Compare,
// which know nothing of a book's bytes.
#![tactic(auto)]

ghost use Rattle.std.specs.Prelude.{[], ◌≡◌, cond, ◌^◌, ◌≤◌, ◌<◌, get_or, length};
ghost use Rattle.theory.specs.Graph.{same};
ghost use Rattle.words.specs.Words.{bit};
ghost use Rattle.book.specs.Book.{as_link};
ghost use Rattle.book.specs.BookGraph.{clear};
ghost use Rattle.edges.specs.Edges.{image, Gathered, empty_rows, any_passes};
ghost use Rattle.edges.specs.Groups.{group_of, total, GroupWith};
ghost use Rattle.edges.specs.LinkTables.{forward, backward};
ghost use Rattle.edges.specs.BookEdges.{Loaded, recordings, same_in, passing, BothRows};
ghost use Rattle.edges.specs.Differing.{filled, differ_row, differing};

pub mod links;

use book::{Book, BookLink, Recording};
pub use links::Links;

// Whether a link between cells that a word has room for touches no hidden cell.
fn clear(hidden: u64, link: BookLink) -> bool
    requires { (link.from < 64) × (link.to < 64) }
    ensures { result ≡ clear hidden (as_link link) }
{
    if hidden == 0 {
        return true;
    }
    if words::has(hidden, link.from) {
        return false;
    }
    !words::has(hidden, link.to)
}

// No links: what links are loaded into.
pub fn no_links() -> Links
    ensures { forward result ≡ [] }
{
    Links {
        starts: [0; 66],
        from: [0; 512],
        labels: [0; 512],
        to: [0; 512],
    }
}

// Loads the links of a book that touch no hidden cell into three lists, in order: link k of these leads from cell from[k] by labels[k] to cell to[k]. The
// answer is how many they are.
pub fn fill(
    book: Book<'_>,
    hidden: u64,
    from: &mut [u8; 512],
    labels: &mut [u16; 512],
    to: &mut [u8; 512],
) -> usize
    requires { (length from.old ≡ 512) × (length labels.old ≡ 512) × (length to.old ≡ 512) }
    ensures { Loaded hidden book.entry.bytes.now result from.new labels.new to.new }
{
    let mut count = 0;
    for k in 0..book.links() {
        let link = book.link(k);
        if clear(hidden, link) {
            from[count] = link.from;
            labels[count] = link.label;
            to[count] = link.to;
            count += 1;
        }
    }
    count
}

// Loads the links of a book that touch no hidden cell, in order and not grouped.
pub fn load(book: Book<'_>, hidden: u64, links: &mut Links)
    ensures loaded { Loaded hidden book.entry.bytes.now (total links.new.starts) links.new.from links.new.labels links.new.to }
    ensures loose { get_or links.new.starts 65 0 ≡ 0 }
{
    links.starts = [0; 66];
    let count = fill(
        book,
        hidden,
        &mut links.from,
        &mut links.labels,
        &mut links.to,
    );
    links.starts[64] = count as u16;
}

// The set of node j where w has node i, else the empty set.
fn moved(w: u64, i: u8, j: u8) -> u64
    requires { (i < 64) × (j < 64) }
    ensures { result ≡ cond (bit w i) (2 ^ j) 0 }
{
    ((w >> i) & 1) << j
}

// The group of a label.
pub fn group_of(label: u16) -> usize
    ensures { result ≡ group_of label }
{
    (label % 64) as usize
}

// Some of the links: from link `start` up to link `until`.
#[derive(Clone, Copy)]
struct Group {
    start: usize,
    until: usize,
}

// The links of the label's group, where the table groups them, and else all.
fn group_with(starts: &[u16; 66], label: u16) -> Group
    ensures { GroupWith starts.now label result }
{
    if starts[65] == 0 {
        return Group {
            start: 0,
            until: starts[64] as usize,
        };
    }
    let group = group_of(label);
    Group {
        start: starts[group] as usize,
        until: starts[group + 1] as usize,
    }
}

// The nodes that a link with the label leads from into w. No branch depends on w.
pub fn image(links: &Links, label: u16, w: u64) -> u64
    ensures { result ≡ image (backward links.now) label w 0 }
{
    let group = group_with(&links.starts, label);
    let mut out: u64 = 0;
    for k in group.start..group.until {
        let one = moved(w, links.to[k], links.from[k]);
        if links.labels[k] == label {
            out = out | one;
        }
    }
    out
}

// Rows of sets, one a node, a step further back: the row of a node becomes the union of the rows of the nodes of w that a link with the label
// leads to from it. The answer is false only if no row has a node then.
pub fn gather(links: &Links, label: u16, w: u64, rows: &mut [u64; 64]) -> bool
    ensures { Gathered (forward links.now) label w rows.old result rows.new }
{
    let later = *rows;
    *rows = [0u64; 64];
    let group = group_with(&links.starts, label);
    let mut all: u64 = 0;
    for k in group.start..group.until {
        if links.labels[k] == label {
            if words::has(w, links.to[k]) {
                let i = links.from[k] as usize;
                let j = links.to[k] as usize;
                let row = rows[i] | later[j];
                rows[i] = row;
                all = all | row;
            }
        }
    }
    all != 0
}

// Whether some node y of `first` and some node z of `second` have bit z set in row y.
pub fn any_passes(first: u64, second: u64, rows: &[u64; 64]) -> bool
    ensures { result ≡ any_passes first second rows.now }
{
    let mut left = first;
    while left != 0 {
        let y = words::lowest(left);
        if words::meet(second, rows[y as usize]) != 0 {
            return true;
        }
        left = words::without(left, y);
    }
    false
}

// The recordings of the cells of a book as they are seen, one a cell; those from the number of cells on are silent.
fn recordings(book: Book<'_>, hidden: u64) -> [u32; 64]
    ensures { result ≡ recordings hidden book.entry.bytes.now }
{
    let mut list = [0u32; 64];
    for x in 0..book.cells() {
        let here = book.recording_seen(hidden, x);
        list[x] = here.0;
    }
    list
}

// Of n cells with these recordings, those whose recording is the same as that of cell x.
fn same_with(list: &[u32; 64], n: usize, x: usize) -> u64
    requires { (n ≤ 64) × (x < n) }
    ensures { result ≡ same_in list.now x n }
{
    let here = Recording(list[x]);
    words::those(n, |y| book::same(here, Recording(list[y])))
}

// Writes into empty rows which cells have the same recordings.
fn same_rows(book: Book<'_>, hidden: u64, rows: &mut [u64; 64])
    requires { rows.old ≡ empty_rows 64 }
    ensures { rows.new ≡ passing hidden book.entry.bytes.now same }
{
    let n = book.cells();
    let list = recordings(book, hidden);
    for x in 0..n {
        rows[x] = same_with(&list, n, x);
    }
}

// Of n rows, those that are not empty.
fn filled(n: usize, rows: &[u64; 64]) -> u64
    requires { n ≤ 64 }
    ensures { result ≡ filled rows.now n }
{
    words::those(n, |x| rows[x] != 0)
}

// The cells that differ from one whose row of the same is given, beside the cells that are heard.
fn differ_with(heard: u64, row: u64) -> u64
    ensures { result ≡ differ_row heard row }
{
    if row == 0 {
        return 0;
    }
    words::minus(heard, row)
}

// Writes into empty rows which cells differ, from n rows of which are the same.
fn differ_rows(n: usize, sames: &[u64; 64], rows: &mut [u64; 64])
    requires { (n ≤ 64) × (rows.old ≡ empty_rows 64) }
    ensures { rows.new ≡ differing sames.now n }
{
    let heard = filled(n, sames);
    for x in 0..n {
        rows[x] = differ_with(heard, sames[x]);
    }
}

// Which cells of a book pass the comparisons, as rows, one a cell: row x of `same` is the set of the cells whose recording is the same as that of cell x,
// and row x of `differ` of those that differ from it.
#[derive(Clone, Copy)]
pub struct Rows {
    pub same: [u64; 64],
    pub differ: [u64; 64],
}

// Writes the rows of a book into empty ones. Those of hidden and of silent cells, and those from the number of cells on, stay empty.
pub fn passing(book: Book<'_>, hidden: u64, rows: &mut Rows)
    requires { (rows.old.same ≡ empty_rows 64) × (rows.old.differ ≡ empty_rows 64) }
    ensures { BothRows hidden book.entry.bytes.now rows.new.same rows.new.differ }
{
    same_rows(book, hidden, &mut rows.same);
    differ_rows(book.cells(), &rows.same, &mut rows.differ);
}
