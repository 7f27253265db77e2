// Compare (01): two books, pair by pair of their cells; of both sides, or one-way, of the left one alone (02, 2026-03).
#![tactic(auto)]

ghost use Rattle.std.specs.Prelude.{◌≡◌, ◌≤◌, length, false};
ghost use Rattle.theory.specs.Bisimulation.{sides_of};
ghost use Rattle.book.specs.BookGraph.{hides_beyond};
ghost use Rattle.sheet.specs.Sheet.{most_bound};
ghost use Rattle.compare_laws.specs.Room.{room_needed};
ghost use Rattle.compare_lists.specs.Comparing.{Lent};
ghost use Rattle.compare.specs.Compare.{pairs_of, scratch_needed, lent, IsCompare, IsCompareCode};

use book::{Book, Hidden};
use outcome::{Part, Refusal, Refused};

// The largest bound.
const MOST_BOUND: usize = sheet::MOST_BOUND as usize;

// The bytes of a sheet's header and of its first entry, always true.
const HEAD_AND_TRUE: usize = 10;

// What a parted pair takes in the room at most: so many steps, and so many bytes besides; and what it takes of the scratch.
const STEPS_A_PAIR: usize = 8;

const BYTES_A_PAIR: usize = 20;

const SCRATCH_A_PAIR: usize = 16;

// What Compare answers where nothing is declined: the length of the sheet and how many pairs are matched.
#[derive(Clone, Copy, PartialEq, Eq, Debug)]
pub struct Compared {
    pub sheet: u32,
    pub matched: u32,
}

// Compare of all that is in order: the map, the sheet's entries and its header, and the scratch.
fn served(
    left: Book<'_>,
    right: Book<'_>,
    bound: u8,
    hidden: Hidden,
    both: bool,
    map: &mut [u16],
    room: &mut [u8],
    scratch: &mut [u8],
) -> Result<Compared, Refused>
    requires { Lent left.bytes.now right.bytes.now bound hidden map.old room.old × (scratch_needed (pairs_of left.bytes.now right.bytes.now) ≤ length scratch.old) }
    ensures { IsCompare (sides_of both) left.entry.bytes.now right.entry.bytes.now bound hidden (lent map.old room.old scratch.old) result (lent map.new room.new scratch.new) }
{
    let pen = compare_lists::fill(left, right, bound, hidden, both, map, room);
    let at = pen.at;
    sheet_writer::put_header(room, pen.version, at as u32, bound, pen.next);
    compare_map::clear_bytes(scratch);
    let count = compare_map::zeros(map);
    Ok(Compared {
        sheet: at as u32,
        matched: count as u32,
    })
}

// The bytes of room that so many pairs need for a sheet of a version: the header and the first entry, and what parts them all.
fn room_needed(version: u8, pairs: usize) -> usize
    requires { pairs ≤ 4096 }
    ensures { result ≡ room_needed version pairs }
{
    let bytes = BYTES_A_PAIR + sheet::steps_size(version, STEPS_A_PAIR);
    HEAD_AND_TRUE + bytes * pairs
}

// Compare of two books: whether enough is lent.
fn measured(
    left: Book<'_>,
    right: Book<'_>,
    bound: u8,
    hidden: Hidden,
    both: bool,
    map: &mut [u16],
    room: &mut [u8],
    scratch: &mut [u8],
) -> Result<Compared, Refused>
    requires { (hides_beyond hidden.left left.bytes.now ≡ false) × (hides_beyond hidden.right right.bytes.now ≡ false) × (bound ≤ most_bound) }
    ensures { IsCompare (sides_of both) left.entry.bytes.now right.entry.bytes.now bound hidden (lent map.old room.old scratch.old) result (lent map.new room.new scratch.new) }
{
    let pairs = left.cells() * right.cells();
    if map.len() != pairs {
        return Err(Refusal::MapLength.of(Part::Call));
    }
    let version = compare_lists::sheet_version(left.bytes, right.bytes);
    if room.len() < room_needed(version, pairs) {
        return Err(Refusal::FewRoom.of(Part::Call));
    }
    if scratch.len() < SCRATCH_A_PAIR * pairs {
        return Err(Refusal::FewScratch.of(Part::Call));
    }
    served(left, right, bound, hidden, both, map, room, scratch)
}

// Compare: for each left cell i and right cell j of m, place i × m + j of the map becomes 0 where the two are matched (or where `both` is false, where j
// covers i), else the number of a question that parts them; the room starts with the sheet of these questions, and the scratch becomes zeros. Refused, all lists being as before: 20 where the
// bound is above 4, the left book's refusal, the right book's, 31 of the left or the right book where its word hides a cell that it has not, 21 where the map has not one place a pair, 22 where the room is below
// 10 + 44 bytes a pair (52 where a book is of version 2), 23 where the scratch is below 16 bytes a pair.
pub fn compare(
    left: &[u8],
    right: &[u8],
    bound: usize,
    hidden: Hidden,
    both: bool,
    map: &mut [u16],
    room: &mut [u8],
    scratch: &mut [u8],
) -> Result<Compared, Refused>
    ensures { IsCompare (sides_of both) left.now right.now bound hidden (lent map.old room.old scratch.old) result (lent map.new room.new scratch.new) }
{
    if MOST_BOUND < bound {
        return Err(Refusal::BoundAbove.of(Part::Call));
    }
    let left = Book::check(left).map_err(|refusal| refusal.of(Part::LeftBook))?;
    let right = Book::check(right).map_err(|refusal| refusal.of(Part::RightBook))?;
    if left.hides_beyond(hidden.left) {
        return Err(Refusal::HiddenBeyond.of(Part::LeftBook));
    }
    if right.hides_beyond(hidden.right) {
        return Err(Refusal::HiddenBeyond.of(Part::RightBook));
    }
    measured(left, right, bound as u8, hidden, both, map, room, scratch)
}

// Compare, its answer as one number: the sheet's length and the count of matched pairs; the refusal of a book, 31 among them; or 20 to 23, of the call.
pub fn compare_code(
    left: &[u8],
    right: &[u8],
    bound: usize,
    hidden: Hidden,
    both: bool,
    map: &mut [u16],
    room: &mut [u8],
    scratch: &mut [u8],
) -> u64
    ensures { IsCompareCode (sides_of both) left.now right.now bound hidden (lent map.old room.old scratch.old) result (lent map.new room.new scratch.new) }
{
    match compare(left, right, bound, hidden, both, map, room, scratch) {
        Ok(done) => outcome::accepted(done.sheet, done.matched),
        Err(refused) => refused.code(),
    }
}
