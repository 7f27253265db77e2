// The listing (01): from the bytes of an input to the bytes of its listing.
#![tactic(auto)]

ghost use Rattle.std.specs.Prelude.{◌≡◌, ◌≤◌, length};
ghost use Rattle.fields.specs.Fields.{Bytes};
ghost use Rattle.sheet.specs.Sheet.{most_bound};
ghost use Rattle.text.specs.Text.{Wrote};
ghost use Rattle.compare.specs.Compare.{pairs_of};
ghost use Rattle.listing_text.specs.Listing.{most_listing, matched_lines, many_cells, accepted_lines, book_lines, split_lines, bound_refused, listing_of, IsSplit, MatchMap, Listed, IsListing};

use book::{Book, Hidden};
use outcome::Refusal;

// A text: the first `length` bytes.
// Stays: no heap, so the bytes have a length beside.
#[derive(Clone, Copy)]
pub struct Text {
    pub bytes: [u8; 4096],
    pub length: usize,
}

// The most bytes of an input.
const MOST_INPUT: usize = 8192;

// The most cells of a book that is listed.
const MOST_CELLS: usize = 32;

// How many of the bytes that follow c are the left book's.
fn left_length(books: &[u8]) -> usize
    ensures { IsSplit books.now result }
{
    let all = books.len();
    if all < 4 {
        return all;
    }
    all.min(fields::get::<4>(books, 0) as usize)
}

// A place for each of 32 × 32 pairs. What they hold at first is of no matter, and is not said.
fn places() -> [u16; 1024]
    ensures { 1024 ≡ length result }
{
    [0; 1024]
}

// Compares two accepted books of at most 32 cells: the zeros of the map become the matched pairs. (That a book's numbers are bytes is asked
// for here and below since the type of a book does not say it.)
fn fill(left: Book<'_>, right: Book<'_>, c: u8, map: &mut [u16])
    requires { Listed left.bytes.now right.bytes.now c × (length map.old ≡ pairs_of left.bytes.now right.bytes.now) × (Bytes left.bytes.now × Bytes right.bytes.now) }
    ensures { MatchMap left.entry.bytes.now right.entry.bytes.now c map.new }
{
    let mut room = io::large_buffer();
    let mut scratch = io::large_buffer();
    let hidden = Hidden { left: 0, right: 0 };
    compare::compare(
        left.bytes,
        right.bytes,
        c as usize,
        hidden,
        true,
        map,
        &mut room,
        &mut scratch,
    )
    .unwrap();
}

// Writes the listing of two accepted books of at most 32 cells.
fn put_matched(out: &mut [u8], left: Book<'_>, right: Book<'_>, c: u8) -> usize
    requires { Listed left.bytes.now right.bytes.now c × (most_listing ≤ length out.old) × (Bytes left.bytes.now × Bytes right.bytes.now) }
    ensures { Wrote out.old 0 (matched_lines left.entry.bytes.now right.entry.bytes.now c) most_listing out.new result }
{
    let n = left.cells();
    let m = right.cells();
    let pairs = n * m;
    let mut all = places();
    let map = &mut all[..pairs];
    fill(left, right, c, map);
    listing_lines::put_pairs(out, 0, map, n, m, c)
}

// Whether one of two accepted books has too many cells.
fn many_cells(left: Book<'_>, right: Book<'_>) -> bool
    ensures { result ≡ many_cells left.entry.bytes.now right.entry.bytes.now }
{
    MOST_CELLS < left.cells() || MOST_CELLS < right.cells()
}

// Writes the listing of two accepted books, or that one is too large.
fn put_accepted(out: &mut [u8], left: Book<'_>, right: Book<'_>, c: u8) -> usize
    requires { (c ≤ most_bound) × (most_listing ≤ length out.old) × (Bytes left.bytes.now × Bytes right.bytes.now) }
    ensures { Wrote out.old 0 (accepted_lines left.entry.bytes.now right.entry.bytes.now c) most_listing out.new result }
{
    if many_cells(left, right) {
        return text::put(out, 0, b"too large\n");
    }
    put_matched(out, left, right, c)
}

// Writes the listing of two books, or the refusal of one.
fn put_books(out: &mut [u8], left: &[u8], right: &[u8], c: u8) -> usize
    requires { (c ≤ most_bound) × (most_listing ≤ length out.old) }
    ensures { Wrote out.old 0 (book_lines left.now right.now c) most_listing out.new result }
{
    let left = match Book::check(left) {
        Ok(book) => book,
        Err(refusal) => return text::put_ending(out, 0, b"refused left ", refusal.number() as u64),
    };
    let right = match Book::check(right) {
        Ok(book) => book,
        Err(refusal) => return text::put_ending(out, 0, b"refused right ", refusal.number() as u64),
    };
    put_accepted(out, left, right, c)
}

// Whether the byte c is absent or above 4.
fn bound_refused(input: &[u8]) -> bool
    ensures { result ≡ bound_refused input.now }
{
    input.is_empty() || sheet::MOST_BOUND < input[0]
}

// Writes the listing of the books that follow the byte c.
fn put_split(out: &mut [u8], books: &[u8], c: u8) -> usize
    requires { (c ≤ most_bound) × (most_listing ≤ length out.old) }
    ensures { Wrote out.old 0 (split_lines books.now c) most_listing out.new result }
{
    let split = left_length(books);
    put_books(out, &books[..split], &books[split..], c)
}

// Writes the listing of an input.
fn put_listing(out: &mut [u8], input: &[u8]) -> usize
    requires { most_listing ≤ length out.old }
    ensures { Wrote out.old 0 (listing_of input.now) most_listing out.new result }
{
    if MOST_INPUT < input.len() {
        return text::put(out, 0, b"too large\n");
    }
    if bound_refused(input) {
        return text::put_ending(out, 0, b"refused ", Refusal::BoundAbove.number() as u64);
    }
    put_split(out, &input[1..], input[0])
}

// The listing of any input: the byte c, the left book, as long as its length field says, and the right book. Where something is wrong it is one line: "too
// large" over 8,192 bytes; "refused 20" where c is absent or above 4; the refusal of a book with its side; "too large" where a book has over 32 cells.
pub fn listing(input: &[u8]) -> Text
    ensures { IsListing input.now result }
{
    let mut bytes = io::buffer();
    let length = put_listing(&mut bytes, input);
    Text { bytes, length }
}
