// Two accepted books compared into lent lists: the books are read into arrays once, the first entry is written, and rounds are taken until one parts no
// pair.
#![tactic(auto)]

ghost use Rattle.std.specs.Prelude.{◌≡◌, ◌*◌, ◌≤◌, length, replicate};
ghost use Rattle.fields.specs.Fields.{Bytes};
ghost use Rattle.compare_lists.specs.BookSetting.{sheet_version};
ghost use Rattle.compare_lists.specs.Comparing.{IsRead, Lent, Started, Fills};

use book::{Book, Hidden};
use compare_entries::Pen;
use compare_pair::Sizes;
use edges::Rows;
use search_links::Side;

// A book's lists before it is read: of no links.
fn blank() -> Side
    ensures { result.starts ≡ replicate 65 0 }
{
    Side {
        starts: [0; 65],
        labels: [0; 512],
        to: [0; 512],
        ends: [0; 128],
    }
}

// Reads a book, seen through a word: the labels of its links and the cells that they lead to, where the links out of each cell begin, and for each cell the
// cells that pass each comparison with it. (Never inlined: what it works with leaves the stack before the rounds begin.)
#[inline(never)]
fn read(book: Book<'_>, hidden: u64, side: &mut Side)
    ensures { IsRead hidden book.entry.bytes.now side.new }
{
    let mut from = [0u8; 512];
    let count = edges::fill(book, hidden, &mut from, &mut side.labels, &mut side.to);
    side.starts = search_links::starts(count, &from);
    let mut rows = Rows {
        same: [0; 64],
        differ: [0; 64],
    };
    edges::passing(book, hidden, &mut rows);
    side.ends = search_links::paired(&rows.same, &rows.differ);
}

// The version of the sheet that a comparison of two books writes. (That their numbers are bytes is said here since the type of a book does not say it.)
pub fn sheet_version(left: &[u8], right: &[u8]) -> u8
    requires { (8 ≤ length left.now) × (8 ≤ length right.now) }
    ensures version { result ≡ sheet_version left.now right.now }
    ensures bytes { Bytes left.now × Bytes right.now }
{
    if book::version_of(left) == 2 {
        return 2;
    }
    if book::version_of(right) == 2 {
        return 2;
    }
    1
}

// Writes the first entry, always true, and makes the map, m places a row, what it is before the first round.
fn begin(map: &mut [u16], m: usize, hidden: Hidden, room: &mut [u8], version: u8) -> Pen
    requires { (10 ≤ length room.old) × (1 ≤ m) × (m ≤ 64) × (length map.old ≤ 64 * m) }
    ensures { Started version m hidden map.old map.new room.old room.new result }
{
    compare_map::start_map(map, m, hidden);
    let at = sheet_writer::put_true(room, 8);
    Pen {
        at,
        next: 1,
        version,
    }
}

// Compares two books, of both sides or of the left one alone: fills the map, and the room with the sheet's entries behind a header that is still to be
// written. The answer says where the sheet ends and how many entries it has.
pub fn fill(
    left: Book<'_>,
    right: Book<'_>,
    bound: u8,
    hidden: Hidden,
    both: bool,
    map: &mut [u16],
    room: &mut [u8],
) -> Pen
    requires { Lent left.bytes.now right.bytes.now bound hidden map.old room.old }
    ensures { Fills both left.entry.bytes.now right.entry.bytes.now bound hidden room.old room.new result map.new }
{
    let mut a = blank();
    read(left, hidden.left, &mut a);
    let mut b = blank();
    read(right, hidden.right, &mut b);
    let n = left.cells();
    let m = right.cells();
    let version = sheet_version(left.bytes, right.bytes);
    let sizes = Sizes {
        left: n,
        right: m,
        bound,
        both,
    };
    let pen = begin(map, m, hidden, room, version);
    let mut new = [0u16; 128];
    compare_rounds::refine(&a, &b, room, pen, map, &mut new, sizes)
}
