// Books (01, "Book bytes"): checked once, then read by parts.
#![tactic(auto)]

ghost use Rattle.std.specs.Prelude.{◌&&◌, ◌≡◌, ◌+◌, ◌-◌, ◌*◌, ◌≤◌, ◌<◌, ltb, length, option_map, IfOk};
ghost use Rattle.theory.specs.Graph.{same};
ghost use Rattle.outcome.specs.Outcome.{code};
ghost use Rattle.outcome.specs.Refused.{refusal_in};
ghost use Rattle.book.specs.Book.{version_of, cells_of, links_of, recording_place, recording_at, link_width, link_start, link_place, link_at, counts_refusal, head_refusal, preceding, link_refusal, links_refusal, book_refusal, book_answer, book_outcome, as_link};
ghost use Rattle.book.specs.BookGraph.{heard, passes, hides_beyond, seen_recording};
ghost use Rattle.book.specs.BookLinks.{links_before, links_after, first_link, RangeOut, part_from, links_answer, links_part, links_outcome};

mod accepted;

pub use accepted::Book;
use outcome::{Part, Refusal, Refused};
use std::ops::Range;

// A cell of the left book.
#[derive(Clone, Copy)]
pub struct LeftCell(pub u8);

// A cell of the right book.
#[derive(Clone, Copy)]
pub struct RightCell(pub u8);

// A recording's number. Recordings are compared by `same` only, which a silent one never passes; to differ is to be the same as oneself and not as the other.
// Stays: with no derived equality, by which a silent one would equal itself; `same` promises `passes`.
#[derive(Clone, Copy)]
pub struct Recording(pub u32);

// A link: from a cell, by a label, to a cell. Links are ordered as triples.
#[derive(Clone, Copy, PartialEq, Eq, PartialOrd, Ord)]
pub struct BookLink {
    pub from: u8,
    pub label: u16,
    pub to: u8,
}

// Which cells are hidden, of a left and of a right book: bit i of a word hides cell i.
#[derive(Clone, Copy)]
pub struct Hidden {
    pub left: u64,
    pub right: u64,
}

// What the check of a book answers: its counts.
#[derive(Clone, Copy)]
pub struct Counts {
    pub cells: u8,
    pub links: u16,
}

// What Links answers beside the part: how many links it holds and the byte where it starts (0 where it is empty).
#[derive(Clone, Copy)]
pub struct LinksPart {
    pub count: u16,
    pub start: u16,
}

// The version.
pub fn version_of(bytes: &[u8]) -> u8
    requires { 8 ≤ length bytes.now }
    ensures { result ≡ version_of bytes.now }
{
    bytes[4]
}

// The number of cells.
pub fn cells_of(bytes: &[u8]) -> usize
    requires { 8 ≤ length bytes.now }
    ensures { (result ≡ cells_of bytes.now) × (result < 256) }
{
    bytes[5] as usize
}

// The number of links.
pub fn links_of(bytes: &[u8]) -> usize
    requires { 8 ≤ length bytes.now }
    ensures { (result ≡ links_of bytes.now) × (result < 65536) }
{
    fields::get::<2>(bytes, 6) as usize
}

// How many bytes a link takes: 3 in version 1, 4 in version 2.
fn link_width(bytes: &[u8]) -> usize
    requires { 8 ≤ length bytes.now }
    ensures { (result ≡ link_width bytes.now) × (result ≤ 4) }
{
    2 + fields::label_width(version_of(bytes))
}

// The byte where link k starts, after the recordings of so many cells.
pub fn link_start(bytes: &[u8], cells: usize, k: usize) -> usize
    requires { (8 ≤ length bytes.now) × (cells < 256) × (k < 65536) }
    ensures { (result ≡ link_start bytes.now cells k) × (result ≤ 8 + 4 * cells + 4 * k) }
{
    let width = link_width(bytes);
    8 + 4 * cells + width * k
}

// The byte where link k starts.
fn link_place(bytes: &[u8], k: usize) -> usize
    requires { (8 ≤ length bytes.now) × (k ≤ 512) }
    ensures { (result ≡ link_place bytes.now k) × (result ≤ 4096) }
{
    link_start(bytes, cells_of(bytes), k)
}

// The newest version of a book, and its most cells and links.
const MOST_VERSION: u8 = 2;

pub const MOST_CELLS: usize = 64;

pub const MOST_LINKS: usize = 512;

// Checks the header's counts.
fn check_counts(bytes: &[u8]) -> Result<(), Refusal>
    requires { 8 ≤ length bytes.now }
    ensures { refusal_in result ≡ counts_refusal bytes.now }
{
    let n = cells_of(bytes);
    if n < 1 {
        return Err(Refusal::BookCounts);
    }
    if MOST_CELLS < n {
        return Err(Refusal::BookCounts);
    }
    let e = links_of(bytes);
    if MOST_LINKS < e {
        return Err(Refusal::BookCounts);
    }
    let l = fields::get::<4>(bytes, 0) as usize;
    if l != link_place(bytes, e) {
        return Err(Refusal::OtherSize);
    }
    Ok(())
}

// Checks the header.
fn check_head(bytes: &[u8]) -> Result<(), Refusal>
    ensures { refusal_in result ≡ head_refusal bytes.now }
{
    if bytes.len() < 8 {
        return Err(Refusal::FewBytes);
    }
    let l = fields::get::<4>(bytes, 0) as usize;
    if l != bytes.len() {
        return Err(Refusal::OtherLength);
    }
    let version = version_of(bytes);
    if version < 1 {
        return Err(Refusal::OtherVersion);
    }
    if MOST_VERSION < version {
        return Err(Refusal::OtherVersion);
    }
    check_counts(bytes)
}

// Link k of a book whose header is not refused.
fn read_link(bytes: &[u8], k: usize) -> BookLink
    requires { (head_refusal bytes.now ≡ 0) × (k < links_of bytes.now) }
    ensures { as_link result ≡ link_at bytes.now k }
{
    let at = link_place(bytes, k);
    let version = version_of(bytes);
    let from = bytes[at];
    let label = fields::get_label(bytes, at + 1, version);
    let width = fields::label_width(version);
    let to = bytes[at + 1 + width];
    BookLink { from, label, to }
}

// Checks link k, which stands behind the link before it where there is one, and gives it.
fn check_link(bytes: &[u8], k: usize, before: Option<BookLink>) -> Result<BookLink, Refusal>
    requires { (head_refusal bytes.now ≡ 0) × (k < links_of bytes.now) × (option_map as_link before ≡ preceding bytes.now k) }
    ensures refusal { refusal_in result ≡ link_refusal bytes.now k }
    ensures read { IfOk result (λ l. as_link l ≡ link_at bytes.now k) }
{
    let n = cells_of(bytes);
    let link = read_link(bytes, k);
    if n <= link.from as usize {
        return Err(Refusal::LinkCell);
    }
    if n <= link.to as usize {
        return Err(Refusal::LinkCell);
    }
    let Some(before) = before else {
        return Ok(link);
    };
    if before < link {
        return Ok(link);
    }
    Err(Refusal::LinkOrder)
}

// Checks the links, from the front.
fn check_links(bytes: &[u8]) -> Result<(), Refusal>
    requires { head_refusal bytes.now ≡ 0 }
    ensures { refusal_in result ≡ links_refusal bytes.now 0 (links_of bytes.now) }
{
    let mut before = None;
    for k in 0..links_of(bytes) {
        before = Some(check_link(bytes, k, before)?);
    }
    Ok(())
}

// Check a book: its cells and links, or the first refusal of 1 to 7 that applies.
pub fn check(bytes: &[u8]) -> Result<Counts, Refusal>
    ensures { result ≡ book_answer bytes.now }
{
    let book = Book::check(bytes)?;
    Ok(Counts {
        cells: book.cells() as u8,
        links: book.links() as u16,
    })
}

// The check's answer as one number: n and e, or the refusal of the only book.
pub fn check_code(bytes: &[u8]) -> u64
    ensures { result ≡ code (book_outcome (book_answer bytes.now)) }
{
    match check(bytes) {
        Ok(counts) => outcome::accepted(counts.cells as u32, counts.links as u32),
        Err(refusal) => refusal.of(Part::LeftBook).code(),
    }
}

// The recording of a cell, where its bytes are there.
pub fn recording_at(bytes: &[u8], cell: usize) -> Recording
    requires { recording_place (cell + 1) ≤ length bytes.now }
    ensures { result.0 ≡ recording_at bytes.now cell }
{
    Recording(fields::get::<4>(bytes, 8 + 4 * cell))
}

// Whether both recordings have a sound: recording 0 is silent. Nothing else asks whether one is.
fn both_heard(a: Recording, b: Recording) -> bool
    ensures { result ≡ (heard a.0 && heard b.0) }
{
    if a.0 == 0 {
        return false;
    }
    b.0 != 0
}

// Whether two recordings are heard and same.
pub fn same(a: Recording, b: Recording) -> bool
    ensures { result ≡ passes same a.0 b.0 }
{
    if !both_heard(a, b) {
        return false;
    }
    a.0 == b.0
}

// The number of the first link out of a cell, or of a later one, where the counts of cells and links are at hand.
pub fn first_by_counts(bytes: &[u8], cells: usize, links: usize, cell: usize) -> usize
    requires { (cells < 256) × (links < 65536) × (link_start bytes.now cells links ≤ length bytes.now) }
    ensures { (result ≡ links_before cell (links_after bytes.now cells links)) × (result ≤ links) }
{
    for k in 0..links {
        let at = link_start(bytes, cells, k);
        if cell <= bytes[at] as usize {
            return k;
        }
    }
    links
}

// The part of the book that holds the links of a range.
fn part_from(bytes: &[u8], links: Range<usize>) -> LinksPart
    requires { (8 ≤ length bytes.now) × (links.start ≤ links.end) × (links.end ≤ 512) }
    ensures { result ≡ part_from bytes.now links.start (links.end - links.start) }
{
    let count = links.end - links.start;
    if count == 0 {
        return LinksPart { count: 0, start: 0 };
    }
    let start = link_place(bytes, links.start);
    LinksPart {
        count: count as u16,
        start: start as u16,
    }
}

// The companion of Links: how many links lead out of the cell and where their part starts; the book's refusal, or 26 where it has no
// such cell. Any number may be handed in.
pub fn links_answer(bytes: &[u8], cell: usize) -> Result<LinksPart, Refused>
    ensures { result ≡ links_answer bytes.now cell }
{
    let book = Book::check(bytes).map_err(|refusal| refusal.of(Part::LeftBook))?;
    if book.cells() <= cell {
        return Err(Refusal::NoPlace.of(Part::Call));
    }
    Ok(part_from(bytes, book.links_range(cell)))
}

// Links: the part of the lent book that holds the links out of the cell. It is empty where there are none, and on a refusal.
pub fn links(bytes: &[u8], cell: usize) -> &[u8]
    ensures { result.now ≡ links_part bytes.now cell }
{
    match links_answer(bytes, cell) {
        Ok(part) => {
            let width = link_width(bytes);
            let from = part.start as usize;
            let end = from + width * (part.count as usize);
            &bytes[from..end]
        }
        Err(_) => &bytes[..0],
    }
}

// The companion's answer as one number: the count and the start, the refusal of the only book, or 26 of the call.
pub fn links_code(bytes: &[u8], cell: usize) -> u64
    ensures { result ≡ code (links_outcome (links_answer bytes.now cell)) }
{
    match links_answer(bytes, cell) {
        Ok(part) => outcome::accepted(part.count as u32, part.start as u32),
        Err(refused) => refused.code(),
    }
}

impl<'a> Book<'a> {
    // The book of bytes that the check accepts, or the first refusal of 1 to 7 that applies.
    pub fn check(bytes: &'a [u8]) -> Result<Book<'a>, Refusal>
        ensures refusal { refusal_in result ≡ book_refusal bytes.now }
        ensures lent { IfOk result (λ b. b.bytes ≡ bytes.entry) }
    {
        check_head(bytes)?;
        check_links(bytes)?;
        Ok(Book { bytes })
    }

    // The version.
    pub fn version(self) -> u8
        ensures { result ≡ version_of self.entry.bytes.now }
    {
        version_of(self.bytes)
    }

    // The number of cells.
    pub fn cells(self) -> usize
        ensures { (result ≡ cells_of self.entry.bytes.now) × (result ≤ 64) }
    {
        cells_of(self.bytes)
    }

    // The number of links.
    pub fn links(self) -> usize
        ensures { (result ≡ links_of self.entry.bytes.now) × (result ≤ 512) }
    {
        links_of(self.bytes)
    }

    // Whether it has the cell.
    pub fn has_cell(self, cell: usize) -> bool
        ensures { result ≡ ltb cell (cells_of self.entry.bytes.now) }
    {
        cell < self.cells()
    }

    // The recording of a cell.
    pub fn recording(self, cell: usize) -> Recording
        requires { cell < cells_of self.bytes.now }
        ensures { result.0 ≡ recording_at self.entry.bytes.now cell }
    {
        recording_at(self.bytes, cell)
    }

    // Whether the word hides what is no cell of it: it has a bit at or above the number of cells (31).
    pub fn hides_beyond(self, hidden: u64) -> bool
        ensures { result ≡ hides_beyond hidden self.entry.bytes.now }
    {
        words::full(self.cells() as u8) < hidden
    }

    // The recording of a cell as it is seen: silent where the word hides the cell.
    pub fn recording_seen(self, hidden: u64, cell: usize) -> Recording
        requires { cell < cells_of self.bytes.now }
        ensures { result.0 ≡ seen_recording hidden self.entry.bytes.now cell }
    {
        if words::has(hidden, cell as u8) {
            return Recording(0);
        }
        self.recording(cell)
    }

    // Link k.
    pub fn link(self, k: usize) -> BookLink
        requires { k < links_of self.bytes.now }
        ensures { as_link result ≡ link_at self.entry.bytes.now k }
    {
        read_link(self.bytes, k)
    }

    // The number of the first link out of a cell, or of a later one.
    fn first_link(self, cell: usize) -> usize
        ensures { (result ≡ first_link self.entry.bytes.now cell) × (result ≤ links_of self.entry.bytes.now) }
    {
        first_by_counts(self.bytes, self.cells(), self.links(), cell)
    }

    // The links out of a cell, by number.
    fn links_range(self, cell: usize) -> Range<usize>
        requires { cell < cells_of self.bytes.now }
        ensures { RangeOut self.entry.bytes.now cell result.start result.end }
    {
        self.first_link(cell)..self.first_link(cell + 1)
    }
}
