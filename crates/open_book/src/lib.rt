// An opened book (01: "opens a checked book once and keeps its bytes and counts for reading links"): a struct that holds the lent bytes and
// the counts n and e. Its readers go by these, and check an accepted book no second time.
#![tactic(auto)]

ghost use Rattle.std.specs.Prelude.{◌≡◌, ◌≤◌, ◌<◌, length};
ghost use Rattle.book.specs.Book.{link_start, book_answer};
ghost use Rattle.book.specs.BookLinks.{links_part};
ghost use Rattle.open_book.specs.Opened.{opened, open_answer, has_kept, open_recording, run_kept, open_part};

use book::{Counts, Recording};
use outcome::Refusal;

// The bytes of the links out of a cell, by counts whose links lie in the bytes.
fn run_of(bytes: &[u8], cells: usize, links: usize, cell: usize) -> &[u8]
    requires { (cell < cells) × (cells < 256) × (links < 65536) × (link_start bytes.now cells links ≤ length bytes.now) }
    ensures { result.now ≡ run_kept bytes.now cells links cell }
{
    let first = book::first_by_counts(bytes, cells, links, cell);
    let end = book::first_by_counts(bytes, cells, links, cell + 1);
    let from = book::link_start(bytes, cells, first);
    let to = book::link_start(bytes, cells, end);
    &bytes[from..to]
}

// An opened book: the lent bytes, and its cells and links as checked. Only `open` makes one.
// Stays: it holds no `book::Book`, since a refused book is opened too (01), and `opened_answer` speaks of both.
#[derive(Clone, Copy)]
pub struct OpenBook<'a> {
    bytes: &'a [u8],
    cells: u8,
    links: u16,
}

impl<'a> OpenBook<'a> {
    // Opens a book: checks it, and keeps its bytes and counts. A refused book is opened too, as one without cells.
    pub fn open(bytes: &'a [u8]) -> OpenBook<'a>
        ensures { result ≡ opened bytes.entry }
    {
        let counts = book::check(bytes).unwrap_or(Counts { cells: 0, links: 0 });
        OpenBook {
            bytes,
            cells: counts.cells,
            links: counts.links,
        }
    }

    // What the check answered: n and e, or the refusal. Where there are no cells the book was refused, and is asked for its refusal.
    pub fn answer(self) -> Result<Counts, Refusal>
        ensures { result ≡ open_answer self.entry }
    {
        if self.cells == 0 {
            return book::check(self.bytes);
        }
        Ok(Counts {
            cells: self.cells,
            links: self.links,
        })
    }

    // Whether there is such a cell, by the counts kept: it is below n, and the cells and links lie in the bytes, as those of an opened book do.
    fn has_cell(self, cell: usize) -> bool
        ensures { result ≡ has_kept self.entry.bytes.now self.entry.cells self.entry.links cell }
    {
        let n = self.cells as usize;
        if n <= cell {
            return false;
        }
        if self.bytes.len() < 8 {
            return false;
        }
        book::link_start(self.bytes, n, self.links as usize) <= self.bytes.len()
    }

    // The recording of a cell, or none where the book has no such cell, as a refused one has none. (A reader, and no operation with refusals of
    // its own numbers.)
    pub fn recording(self, cell: usize) -> Option<Recording>
        ensures { result ≡ open_recording self.entry cell }
    {
        if self.has_cell(cell) {
            return Some(book::recording_at(self.bytes, cell));
        }
        None
    }

    // Links: the part of the lent book that holds the links out of the cell. It is empty where there are none, and where the book has no
    // such cell, as a refused one has none.
    pub fn links_out(self, cell: usize) -> &'a [u8]
        ensures { result.now ≡ open_part self.entry cell }
    {
        if self.has_cell(cell) {
            return run_of(self.bytes, self.cells as usize, self.links as usize, cell);
        }
        &self.bytes[..0]
    }
}

// Links, by an opened book: for callers that hold no such struct.
pub fn links(bytes: &[u8], cell: usize) -> &[u8]
    ensures { result.now ≡ links_part bytes.now cell }
{
    OpenBook::open(bytes).links_out(cell)
}
