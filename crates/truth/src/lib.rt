// Truth and Claim (01): where the questions of a sheet are true.
#![tactic(auto)]

ghost use Rattle.std.specs.Prelude.{◌≡◌, not, ◌&&◌, ◌<◌, ltb, min, length};
ghost use Rattle.theory.specs.Meaning.{holds};
ghost use Rattle.book.specs.Book.{cells_of};
ghost use Rattle.book.specs.BookGraph.{hides, seen_of};
ghost use Rattle.sheet.specs.Sheet.{count_of, question_of};
ghost use Rattle.sheet.specs.Known.{EntriesFit};
ghost use Rattle.truth.specs.Truth.{first_words, truth_words, parts, Told, IsTruth, IsTruthCode, IsClaim, IsClaimCode};
ghost use Rattle.truth.specs.SeenCells.{seen_word};

use book::{Book, Hidden, LeftCell, RightCell};
use edges::Rows;
use outcome::{Part, Refusal, Refused};
use sheet::{Question, Sheet};

// A sheet has many steps where it is longer than so many more entries without steps could make it.
const MANY: usize = 12;

// The cells of a book that the word does not hide.
fn seen(book: Book<'_>, hidden: u64) -> u64
    ensures { result ≡ seen_word hidden book.entry.bytes.now }
{
    let n = book.cells() as u8;
    words::minus(words::full(n), hidden)
}

// Whether an accepted sheet, of which `upto` entries are asked, has many steps, judged by its length: an entry without steps has at most 6 bytes. Nothing
// is promised of the answer, which chooses between two ways to the same words.
fn many_steps(sheet: &[u8], upto: usize) -> bool {
    let entries = sheet.len() / 6;
    MANY < entries.saturating_sub(upto)
}

// Writes the words of the first `upto` entries of a sheet, of a book.
fn write_words(book: Book<'_>, hidden: u64, sheet: Sheet<'_>, upto: usize, words: &mut [u64])
    requires { EntriesFit sheet.bytes.now upto (length words.old) }
    ensures { words.new ≡ first_words book.entry.bytes.now hidden sheet.entry.bytes.now upto words.old }
{
    let many = many_steps(sheet.bytes, upto);
    let mut links = edges::no_links();
    edge_groups::load(book, hidden, many, &mut links);
    let mut rows = Rows {
        same: [0; 64],
        differ: [0; 64],
    };
    edges::passing(book, hidden, &mut rows);
    let every = seen(book, hidden);
    evaluate::evaluate(every, &links, &rows, sheet, upto, words);
}

// Truth: writes for each entry the set of the book's cells where its question is true, one word an entry; words from the number of
// entries on stay. The word hides cells, which count as absent. Refused: the book's refusal, 31 where the word has a bit at or above the
// number of cells, the sheet's refusal, or 24 where there are fewer words than entries; the words stay.
pub fn truth(book: &[u8], hidden: u64, sheet: &[u8], words: &mut [u64]) -> Result<(), Refused>
    ensures { IsTruth book.now hidden sheet.now words.old result words.new }
{
    let book = Book::check(book).map_err(|r| r.of(Part::LeftBook))?;
    if book.hides_beyond(hidden) {
        return Err(Refusal::HiddenBeyond.of(Part::LeftBook));
    }
    let sheet = Sheet::check(sheet).map_err(|r| r.of(Part::Sheet))?;
    let q = sheet.entries() as usize;
    if words.len() < q {
        return Err(Refusal::FewWords.of(Part::Call));
    }
    write_words(book, hidden, sheet, q, words);
    Ok(())
}

// Writes the words of the first `upto` entries; whether the question of one of them is true at a cell of the book that is not hidden.
fn true_at(
    book: Book<'_>,
    hidden: u64,
    sheet: Sheet<'_>,
    upto: usize,
    entry: Question,
    cell: u8,
    words: &mut [u64],
) -> bool
    requires { EntriesFit sheet.bytes.now upto (length words.old) × (entry.0 < upto) × (cell < cells_of book.bytes.now) }
    ensures { Told (not (hides hidden cell) && holds (seen_of hidden book.entry.bytes.now) (question_of sheet.entry.bytes.now entry.0) cell) (first_words book.entry.bytes.now hidden sheet.entry.bytes.now upto words.old) result words.new }
{
    write_words(book, hidden, sheet, upto, words);
    let k = entry.0 as usize;
    words::has(words[k], cell)
}

// Whether an entry of a sheet of q entries is true at the left and false at the right cell, and neither is hidden. Here each cell meets its own book.
fn asked(
    left: Book<'_>,
    right: Book<'_>,
    hidden: Hidden,
    sheet: Sheet<'_>,
    q: usize,
    entry: Question,
    cell: LeftCell,
    other: RightCell,
    words: &mut [u64],
) -> bool
    requires { EntriesFit sheet.bytes.now q (length words.old) × (q ≡ count_of sheet.bytes.now) × (entry.0 < q) × (cell.0 < cells_of left.bytes.now) × (other.0 < cells_of right.bytes.now) }
    ensures { Told (parts left.entry.bytes.now right.entry.bytes.now hidden sheet.entry.bytes.now entry.0 cell.0 other.0) (truth_words right.entry.bytes.now hidden.right sheet.entry.bytes.now words.old) result words.new }
{
    let k = entry.0 as usize;
    let here = true_at(left, hidden.left, sheet, k + 1, entry, cell.0, words);
    let there = true_at(right, hidden.right, sheet, q, entry, other.0, words);
    if words::has(hidden.right, other.0) {
        return false;
    }
    if here {
        return !there;
    }
    false
}

// Whether the left book has the cell.
// Stays: two functions that differ in a type, so that handing a cell to the book of the other side does not compile (01).
fn in_left(left: Book<'_>, cell: LeftCell) -> bool
    ensures { result ≡ ltb cell.0 (cells_of left.entry.bytes.now) }
{
    left.has_cell(cell.0 as usize)
}

// Whether the right book has the cell.
fn in_right(right: Book<'_>, cell: RightCell) -> bool
    ensures { result ≡ ltb cell.0 (cells_of right.entry.bytes.now) }
{
    right.has_cell(cell.0 as usize)
}

// Claim: whether the question of the entry is true at the left cell and false at the right cell, whoever wrote the sheet; no where a cell is
// hidden. The words end as Truth of the right book, for yes and for no. Refused: the left book's refusal, the right book's, 31 where a word
// has a bit at or above the number of its book's cells, the left word first, the sheet's refusal, 24 where there are fewer words than
// entries, 25 where the sheet has no such entry, 26 where a cell is not in its book; the words stay.
pub fn claim(
    left: &[u8],
    right: &[u8],
    hidden: Hidden,
    sheet: &[u8],
    entry: Question,
    cell: LeftCell,
    other: RightCell,
    words: &mut [u64],
) -> Result<bool, Refused>
    ensures { IsClaim left.now right.now hidden sheet.now entry.0 cell.0 other.0 words.old result words.new }
{
    let left = Book::check(left).map_err(|r| r.of(Part::LeftBook))?;
    let right = Book::check(right).map_err(|r| r.of(Part::RightBook))?;
    if left.hides_beyond(hidden.left) {
        return Err(Refusal::HiddenBeyond.of(Part::LeftBook));
    }
    if right.hides_beyond(hidden.right) {
        return Err(Refusal::HiddenBeyond.of(Part::RightBook));
    }
    let sheet = Sheet::check(sheet).map_err(|r| r.of(Part::Sheet))?;
    let q = sheet.entries() as usize;
    if words.len() < q {
        return Err(Refusal::FewWords.of(Part::Call));
    }
    if q <= entry.0 as usize {
        return Err(Refusal::NoEntry.of(Part::Call));
    }
    if !in_left(left, cell) {
        return Err(Refusal::NoPlace.of(Part::Call));
    }
    if !in_right(right, other) {
        return Err(Refusal::NoPlace.of(Part::Call));
    }
    Ok(asked(left, right, hidden, sheet, q, entry, cell, other, words))
}

// Truth, its answer as one number: 0; the refusal of the only book, 31 among them, or of the sheet; or 24, of the call.
pub fn truth_code(book: &[u8], hidden: u64, sheet: &[u8], words: &mut [u64]) -> u64
    ensures { IsTruthCode book.now hidden sheet.now words.old result words.new }
{
    match truth(book, hidden, sheet, words) {
        Ok(()) => outcome::accepted(0, 0),
        Err(refused) => refused.code(),
    }
}

// Claim of an entry and cells of any numbers, its answer as one number: first value 1 for yes, 0 for no; the refusal of a book, 31 among
// them, or of the sheet; or 24, 25 or 26, of the call. A number that is too large for an entry or a cell becomes the largest, which no sheet or book has.
pub fn claim_code(
    left: &[u8],
    right: &[u8],
    hidden: Hidden,
    sheet: &[u8],
    entry: usize,
    cell: usize,
    other: usize,
    words: &mut [u64],
) -> u64
    ensures { IsClaimCode left.now right.now hidden sheet.now entry cell other words.old result words.new }
{
    let question = Question(entry.min(65535) as u16);
    let here = LeftCell(cell.min(255) as u8);
    let there = RightCell(other.min(255) as u8);
    match claim(left, right, hidden, sheet, question, here, there, words) {
        Ok(yes) => outcome::accepted(yes as u32, 0),
        Err(refused) => refused.code(),
    }
}
