// The readers of a map of cell pairs: a row of it as a set of right cells, and what a place of it says.
#![tactic(auto)]

ghost use Rattle.std.specs.Prelude.{◌≡◌, ◌+◌, ◌≤◌, ◌<◌, length, get_or};
ghost use Rattle.outcome.specs.Outcome.{code};
ghost use Rattle.outcome.specs.Refused.{refusal_in};
ghost use Rattle.words.specs.Words.{word_of};
ghost use Rattle.answers.specs.Pair.{place_of, pair_answer, pair_outcome};
ghost use Rattle.answers.specs.Row.{zero_from, row_refusal, row_answer, row_outcome, word_in};

use outcome::{Part, Refusal, Refused};
use sheet::{Question, Sheet};

// What Row answers: the set of the right cells that are matched to a left cell, and how many they are.
#[derive(Clone, Copy, PartialEq, Eq, Debug)]
pub struct RowSet {
    pub word: u64,
    pub count: u32,
}

// The most right cells of a book.
const CELLS: usize = 64;

// Checks that row i of a map with m right cells is in the map. Nothing is multiplied, so no m and i are too large.
fn check_row(map: &[u16], m: usize, i: usize) -> Result<(), Refusal>
    ensures { refusal_in result ≡ row_refusal map.now m i }
{
    if m == 0 {
        return Err(Refusal::RowLength);
    }
    if CELLS < m {
        return Err(Refusal::RowLength);
    }
    if map.len() / m <= i {
        return Err(Refusal::NoPlace);
    }
    Ok(())
}

// The set of those of the m places from `base` on that hold 0.
fn zeros(map: &[u16], base: usize, m: usize) -> u64
    requires { (m ≤ 64) × (base + m ≤ length map.now) }
    ensures { result ≡ word_of m (zero_from map.now base) }
{
    words::those(m, |j| map[base + j] == 0)
}

// Row: the word whose bit j is set where place i × m + j of the map holds 0, and how many bits are set, for any m and i.
// Refused: 27 where m is 0 or above 64, else 26 where the row is not wholly in the map.
pub fn row(map: &[u16], m: usize, i: usize) -> Result<RowSet, Refusal>
    ensures { result ≡ row_answer map.now m i }
{
    check_row(map, m, i)?;
    let word = zeros(map, i * m, m);
    let count = words::count(word);
    Ok(RowSet { word, count })
}

// The answer of `row` as one number: the refusal, or 2^16 × the count. The word is not in it: `row_word` gives that (`word_in`).
pub fn row_code(map: &[u16], m: usize, i: usize) -> u64
    ensures { result ≡ code (row_outcome (row_answer map.now m i)) }
{
    match row(map, m, i) {
        Ok(row) => outcome::accepted(row.count, 0),
        Err(r) => r.of(Part::Call).code(),
    }
}

// The word that `row` answers, 0 where it refuses.
pub fn row_word(map: &[u16], m: usize, i: usize) -> u64
    ensures { result ≡ word_in (row_answer map.now m i) }
{
    match row(map, m, i) {
        Ok(row) => row.word,
        Err(_) => 0,
    }
}

// What Pair answers: matched; hidden, where a cell of the pair is; or parted, by the question of that number, whose entry starts at that byte of the sheet.
#[derive(Clone, Copy, PartialEq, Eq, Debug)]
pub enum Said {
    Matched,
    Hidden,
    Parted { question: Question, start: usize },
}

// What a place of a map says of its pair. Pair takes it apart before it reads the question's entry.
#[derive(Clone, Copy, PartialEq, Eq, Debug)]
enum Place {
    Matched,
    Hidden,
    Parted(Question),
}

// What the number at a place of the map says: matched at 0, hidden at 65,535, else parted, by the question of that number.
fn place_of(map: &[u16], place: usize) -> Place
    requires { place < length map.now }
    ensures { result ≡ place_of (get_or map.now place 0) }
{
    match map[place] {
        0 => Place::Matched,
        sheet::HIDDEN_PLACE => Place::Hidden,
        number => Place::Parted(Question(number)),
    }
}

// What Pair answers of an accepted sheet.
fn pair_of(map: &[u16], place: usize, sheet: Sheet<'_>) -> Result<Said, Refused>
    ensures { result ≡ pair_answer map.now place sheet.entry.bytes.now }
{
    if map.len() <= place {
        return Err(Refusal::NoPlace.of(Part::Call));
    }
    match place_of(map, place) {
        Place::Matched => Ok(Said::Matched),
        Place::Hidden => Ok(Said::Hidden),
        Place::Parted(question) => {
            if sheet.entries() <= question.0 {
                return Err(Refusal::NoEntry.of(Part::Call));
            }
            let start = sheet.entry_start(question);
            Ok(Said::Parted { question, start })
        }
    }
}

// Pair: whether the pair at a place of the map is matched, or has a hidden cell, else the question that parts it and the byte of the sheet where its
// entry starts. Refused: the sheet's own refusal, also where the pair is matched; 26 where the place is outside the map; 25 where the number
// at the place is not that of an entry.
pub fn pair(map: &[u16], place: usize, bytes: &[u8]) -> Result<Said, Refused>
    ensures { result ≡ pair_answer map.now place bytes.now }
{
    match Sheet::check(bytes) {
        Ok(sheet) => pair_of(map, place, sheet),
        Err(r) => Err(r.of(Part::Sheet)),
    }
}

// The answer of `pair` as one number: the refusal + 2^8 × part (3 where it is the sheet's), or 2^16 × the question + 2^40 × the byte, the question being
// 65,535 where a cell is hidden.
pub fn pair_code(map: &[u16], place: usize, bytes: &[u8]) -> u64
    ensures { result ≡ code (pair_outcome (pair_answer map.now place bytes.now)) }
{
    match pair(map, place, bytes) {
        Ok(Said::Matched) => outcome::accepted(0, 0),
        Ok(Said::Hidden) => outcome::accepted(sheet::HIDDEN_PLACE as u32, 0),
        Ok(Said::Parted { question, start }) => outcome::accepted(question.0 as u32, start as u32),
        Err(refused) => refused.code(),
    }
}
