// The library for C callers (include/cuhnavel.h): bytes, words, map places and numbers in, an outcome as one number out.
#![tactic(auto)]

ghost use Rattle.std.specs.Prelude.{◌≡◌};
ghost use Rattle.outcome.specs.Outcome.{code};
ghost use Rattle.book.specs.Book.{book_answer, book_outcome};
ghost use Rattle.book.specs.BookGraph.{hiding};
ghost use Rattle.book.specs.BookLinks.{links_answer, links_outcome};
ghost use Rattle.sheet.specs.Sheet.{sheet_answer, sheet_outcome};
ghost use Rattle.truth.specs.Truth.{IsTruthCode, IsClaimCode};
ghost use Rattle.theory.specs.Bisimulation.{one_sided, two_sided};
ghost use Rattle.compare.specs.Compare.{lent, IsCompareCode};
ghost use Rattle.answers.specs.Row.{row_answer, row_outcome, word_in};
ghost use Rattle.answers.specs.Pair.{pair_answer, pair_outcome};
ghost use Rattle.question_text.specs.Answer.{length_answer, text_outcome, IsWriteCode};

use book::Hidden;

// Check a book: its cells and links, or the first refusal of 1 to 7 that applies, of the only book.
#[unsafe(no_mangle)]
pub extern "C" fn cuhnavel_check_book(bytes: &[u8]) -> u64
    ensures { result ≡ code (book_outcome (book_answer bytes.now)) }
{
    book::check_code(bytes)
}

// Check a sheet: its entries and bound, or the first refusal of 1 to 3 and 8 to 14 that applies, of the sheet.
#[unsafe(no_mangle)]
pub extern "C" fn cuhnavel_check_sheet(bytes: &[u8]) -> u64
    ensures { result ≡ code (sheet_outcome (sheet_answer bytes.now)) }
{
    sheet::check_code(bytes)
}

// Compare: place i × m + j of the map becomes 0 where left cell i and right cell j of m are matched, else the number of a question that parts them;
// the room starts with the sheet of these questions, and the scratch becomes zeros. The values are the sheet's length and the number of matched
// pairs. A cell whose bit a word has set is hidden: it and its links count as absent, and its places of the map become 65,535. Refused, all lists being as before:
// 20, the refusal of the left book, of the right, 31 of the left or of the right where its word hides a cell that it has not, 21, 22 or 23.
#[unsafe(no_mangle)]
pub extern "C" fn cuhnavel_compare(
    left: &[u8],
    right: &[u8],
    bound: usize,
    left_hidden: u64,
    right_hidden: u64,
    map: &mut [u16],
    room: &mut [u8],
    scratch: &mut [u8],
) -> u64
    ensures { IsCompareCode two_sided left.now right.now bound (hiding left_hidden right_hidden) (lent map.old room.old scratch.old) result (lent map.new room.new scratch.new) }
{
    let hidden = Hidden {
        left: left_hidden,
        right: right_hidden,
    };
    compare::compare_code(left, right, bound, hidden, true, map, room, scratch)
}

// Compare one-way: as Compare, with the clauses from left to right only. Place i × m + j of the map becomes 0 where right cell j covers left cell i, else the
// number of a question without "not" that is true at i and false at j; the values are the sheet's length and the number of covered pairs.
#[unsafe(no_mangle)]
pub extern "C" fn cuhnavel_compare_one_way(
    left: &[u8],
    right: &[u8],
    bound: usize,
    left_hidden: u64,
    right_hidden: u64,
    map: &mut [u16],
    room: &mut [u8],
    scratch: &mut [u8],
) -> u64
    ensures { IsCompareCode one_sided left.now right.now bound (hiding left_hidden right_hidden) (lent map.old room.old scratch.old) result (lent map.new room.new scratch.new) }
{
    let hidden = Hidden {
        left: left_hidden,
        right: right_hidden,
    };
    compare::compare_code(left, right, bound, hidden, false, map, room, scratch)
}

// Truth: for each entry of the sheet the word of the book's cells where it is true; the other words, and on a refusal all, are as
// before. A cell whose bit is set in `hidden` counts as absent, and no word has it. Refused: the refusal of the only book, 31 among them, of the sheet, or 24.
#[unsafe(no_mangle)]
pub extern "C" fn cuhnavel_truth(book: &[u8], hidden: u64, sheet: &[u8], words: &mut [u64]) -> u64
    ensures { IsTruthCode book.now hidden sheet.now words.old result words.new }
{
    truth::truth_code(book, hidden, sheet, words)
}

// Claim: 1 where the entry is true at cell `cell` of the left book and false at cell `other` of the right, else 0; the words end as Truth of
// the right book. It is 0 where one of the cells is hidden. Refused, the words being as before: the refusal of the left book, of the right, 31 of either, of the
// sheet, or 24, 25 or 26.
#[unsafe(no_mangle)]
pub extern "C" fn cuhnavel_claim(
    left: &[u8],
    right: &[u8],
    left_hidden: u64,
    right_hidden: u64,
    sheet: &[u8],
    entry: usize,
    cell: usize,
    other: usize,
    words: &mut [u64],
) -> u64
    ensures { IsClaimCode left.now right.now (hiding left_hidden right_hidden) sheet.now entry cell other words.old result words.new }
{
    let hidden = Hidden {
        left: left_hidden,
        right: right_hidden,
    };
    truth::claim_code(left, right, hidden, sheet, entry, cell, other, words)
}

// Row: how many places of row i of the map, m places long, hold 0. Refused: 27 or 26.
#[unsafe(no_mangle)]
pub extern "C" fn cuhnavel_row(map: &[u16], m: usize, i: usize) -> u64
    ensures { result ≡ code (row_outcome (row_answer map.now m i)) }
{
    answers::row_code(map, m, i)
}

// Row's word: the set of the places of the row that hold 0; 0 where Row refuses.
#[unsafe(no_mangle)]
pub extern "C" fn cuhnavel_row_word(map: &[u16], m: usize, i: usize) -> u64
    ensures { result ≡ word_in (row_answer map.now m i) }
{
    answers::row_word(map, m, i)
}

// Pair: the number of the question that parts the pair and the byte where its entry starts, 0 and 0 where the pair is matched, 65,535 and 0 where a cell of it is
// hidden. Refused: the
// sheet's refusal, or 26 or 25.
#[unsafe(no_mangle)]
pub extern "C" fn cuhnavel_pair(map: &[u16], place: usize, sheet: &[u8]) -> u64
    ensures { result ≡ code (pair_outcome (pair_answer map.now place sheet.now)) }
{
    answers::pair_code(map, place, sheet)
}

// Links: how many links lead out of the cell and the byte of the book where they start, 0 and 0 where there are none. Refused: the refusal of
// the only book, or 26.
#[unsafe(no_mangle)]
pub extern "C" fn cuhnavel_links(book: &[u8], cell: usize) -> u64
    ensures { result ≡ code (links_outcome (links_answer book.now cell)) }
{
    book::links_code(book, cell)
}

// Question length: how many bytes the text of an entry's question has, as 2^16 × the length. Refused: the sheet's refusal, or 25, 28 or 29.
#[unsafe(no_mangle)]
pub extern "C" fn cuhnavel_question_length(sheet: &[u8], entry: usize) -> u64
    ensures { result ≡ code (text_outcome (length_answer sheet.now entry)) }
{
    question_text::length_code(sheet, entry)
}

// Question text: writes an entry's question out in full at the room's start; the bytes after the text stay. The answer is that of the question length.
// Refused, the room being as before: the sheet's refusal, or 25, 28, 29 or 30.
#[unsafe(no_mangle)]
pub extern "C" fn cuhnavel_question_text(sheet: &[u8], entry: usize, room: &mut [u8]) -> u64
    ensures { IsWriteCode sheet.now entry room.old result room.new }
{
    question_text::text_code(sheet, entry, room)
}
