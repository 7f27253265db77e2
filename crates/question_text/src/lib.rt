// A question of a sheet written out in full (02, request 2026-01), and the length of its text.
#![tactic(auto)]

ghost use Rattle.std.specs.Prelude.{[], ◌∷◌, ◌++◌, ◌≡◌, ◌+◌, ◌≤◌, ◌<◌, length, get_or, drop};
ghost use Rattle.outcome.specs.Outcome.{code};
ghost use Rattle.fields.specs.Runs.{PutBytes};
ghost use Rattle.sheet.specs.Entry.{kind_number, kind_of, step_in, numbers};
ghost use Rattle.sheet.specs.Sheet.{count_of, entry_at, question_of, sheet_refusal};
ghost use Rattle.sheet.specs.Reading.{Readable, HasNumber, HasStep, steps_of};
ghost use Rattle.text.specs.Text.{ascii};
ghost use Rattle.question_text.specs.Writing.{label_text, junction_by, sign_by, Started, EntryAt, WayOf, between, steps_text_of, way_text_of, second_text};
ghost use Rattle.question_text.specs.Answer.{text_of, question_answer, length_answer, text_outcome, IsWrite, IsWriteCode};

mod source;

use outcome::{Part, Refusal, Refused};
use question_measure::{MOST_CHAIN, MOST_LENGTH};
use sheet::{Kind, Question, Sheet, Steps};
use source::Source;

// The most entries of a sheet.
const ENTRIES: usize = sheet::MOST_ENTRIES as usize;

// ---- what is read of the sheet

// Number i of the not, and or or at `at`.
fn part(sheet: &[u8], at: usize, i: usize) -> usize
    requires { HasNumber sheet.now at i }
    ensures { result ≡ get_or (numbers (entry_at sheet.now at)) i 0 }
{
    sheet::number(sheet, at, i).0 as usize
}

// The number of the test of step i of a way.
fn tested(sheet: &[u8], way: Steps, i: usize) -> usize
    requires { HasStep sheet.now way i }
    ensures { result ≡ (step_in (steps_of sheet.now way) i).test }
{
    sheet::test(sheet, way, i).0 as usize
}

// The label of step i of a way.
fn labelled(sheet: &[u8], way: Steps, i: usize) -> u64
    requires { HasStep sheet.now way i }
    ensures { result ≡ (step_in (steps_of sheet.now way) i).label }
{
    sheet::label(sheet, way, i) as u64
}

// The byte where an entry starts, in four bytes: an accepted sheet is shorter than its length field can say.
fn start_of(sheet: &[u8], at: usize) -> u32
    requires { (sheet_refusal sheet.now ≡ 0) × Readable sheet.now at }
    ensures { result ≡ at }
{
    at as u32
}

// Lists where the first entries of a sheet start, one for each place of the list.
fn list_starts(sheet: Sheet<'_>, starts: &mut [u32])
    requires { length starts.old ≤ count_of sheet.bytes.now }
    ensures { Started sheet.entry.bytes.now starts.new (length starts.new) }
{
    let mut at = sheet.entry_start(Question(0));
    for start in starts.iter_mut() {
        *start = start_of(sheet.bytes, at);
        at = sheet::next_start(sheet.bytes, at);
    }
}

// ---- the small pieces

// Writes two bytes at `at`, and gives the place after them.
fn put_both(room: &mut [u8], at: usize, first: u8, second: u8) -> usize
    requires { at + 2 ≤ length room.old }
    ensures { PutBytes room.old at (first ∷ second ∷ []) room.new result }
{
    let next = text::put_byte(room, at, first);
    text::put_byte(room, next, second)
}

// Writes the start of a step at `at`: a slash and its label. Gives the place after it.
fn put_label(room: &mut [u8], at: usize, label: u64) -> usize
    requires { at + length (label_text label) ≤ length room.old }
    ensures { PutBytes room.old at (label_text label) room.new result }
{
    let next = text::put_byte(room, at, b'/');
    text::put_number(room, next, label)
}

// The byte between the parts of an and or an or.
fn junction(kind: Kind) -> u8
    ensures { result ≡ junction_by (kind_number kind) }
{
    match kind {
        Kind::And => b'&',
        _ => b'|',
    }
}

// Writes the sign between the ways of a same or a differ at `at`, and gives the place after it. (There is room for either: a way follows.)
fn put_sign(room: &mut [u8], at: usize, kind: Kind) -> usize
    requires { at + 2 ≤ length room.old }
    ensures { PutBytes room.old at (sign_by (kind_number kind)) room.new result }
{
    match kind {
        Kind::Same => text::put_byte(room, at, b'='),
        _ => put_both(room, at, b'!', b'='),
    }
}

// Writes a true at `at`, and gives the place after it.
fn put_true(room: &mut [u8], at: usize) -> usize
    requires { at + 3 ≤ length room.old }
    ensures { PutBytes room.old at (ascii "<.>") room.new result }
{
    let next = put_both(room, at, b'<', b'.');
    text::put_byte(room, next, b'>')
}

// ---- the writers of questions and ways call each other: the entry's number falls from a question to its parts and to the tests of its ways, and the
// steps left fall in the loop over a way

// Writes the question of entry k at `at`, and gives the place after it.
#[cycle(writers)]
fn put_question(source: &Source<'_>, k: usize, room: &mut [u8], at: usize) -> usize
    requires { (k < length source.now.starts.now) × (at + length (text_of source.now.sheet.now k) ≤ length room.old) }
    ensures { PutBytes room.old at (text_of source.now.sheet.now k) room.new result }
{
    // Entry 0 is a true, and most steps and parts name it: it need not be read.
    if k == 0 {
        return put_true(room, at);
    }
    let start = source.starts[k] as usize;
    let kind = sheet::kind(source.sheet, start);
    // By `<`, and a few tests on each side of it: a table of jumps, which a match of all the kinds becomes, costs more than the tests.
    if kind.number() < Kind::Way.number() {
        match kind {
            Kind::True => put_true(room, at),
            Kind::Not => put_not(source, k, start, room, at),
            _ => put_two(source, k, start, kind, room, at),
        }
    } else {
        match kind {
            Kind::Way => put_exists(source, k, start, room, at),
            _ => put_comparison(source, k, start, kind, room, at),
        }
    }
}

// Writes a byte, the question of the entry i before k, and a byte.
#[cycle(writers)]
fn put_between(
    source: &Source<'_>,
    k: usize,
    i: usize,
    before: u8,
    after: u8,
    room: &mut [u8],
    at: usize,
) -> usize
    requires { (k ≤ length source.now.starts.now) × (i < k) × (at + length (between before (text_of source.now.sheet.now i) after) ≤ length room.old) }
    ensures { PutBytes room.old at (between before (text_of source.now.sheet.now i) after) room.new result }
{
    let next = text::put_byte(room, at, before);
    let next = put_question(source, i, room, next);
    text::put_byte(room, next, after)
}

// Writes the not of entry k, which starts at `start`.
#[cycle(writers)]
fn put_not(source: &Source<'_>, k: usize, start: usize, room: &mut [u8], at: usize) -> usize
    requires { EntryAt source.now.sheet.now source.now.starts.now k start × (kind_of (entry_at source.now.sheet.now start) ≡ 1) × (at + length (text_of source.now.sheet.now k) ≤ length room.old) }
    ensures { PutBytes room.old at (text_of source.now.sheet.now k) room.new result }
{
    let i = part(source.sheet, start, 0);
    let next = text::put_byte(room, at, b'!');
    put_between(source, k, i, b'(', b')', room, next)
}

// Writes the and or or of entry k.
#[cycle(writers)]
fn put_two(
    source: &Source<'_>,
    k: usize,
    start: usize,
    kind: Kind,
    room: &mut [u8],
    at: usize,
) -> usize
    requires { EntryAt source.now.sheet.now source.now.starts.now k start × (kind_number kind ≡ kind_of (entry_at source.now.sheet.now start)) × (2 ≤ kind_number kind) × (kind_number kind < 4) × (at + length (text_of source.now.sheet.now k) ≤ length room.old) }
    ensures { PutBytes room.old at (text_of source.now.sheet.now k) room.new result }
{
    let i = part(source.sheet, start, 0);
    let next = put_between(source, k, i, b'(', junction(kind), room, at);
    let j = part(source.sheet, start, 1);
    let next = put_question(source, j, room, next);
    text::put_byte(room, next, b')')
}

// Writes the way of entry k.
#[cycle(writers)]
fn put_exists(source: &Source<'_>, k: usize, start: usize, room: &mut [u8], at: usize) -> usize
    requires { EntryAt source.now.sheet.now source.now.starts.now k start × (kind_of (entry_at source.now.sheet.now start) ≡ 4) × (at + length (text_of source.now.sheet.now k) ≤ length room.old) }
    ensures { PutBytes room.old at (text_of source.now.sheet.now k) room.new result }
{
    let way = sheet::first_way(source.sheet, start);
    let next = text::put_byte(room, at, b'<');
    let next = put_way(source, k, way, room, next);
    text::put_byte(room, next, b'>')
}

// Writes the same or differ of entry k.
#[cycle(writers)]
fn put_comparison(
    source: &Source<'_>,
    k: usize,
    start: usize,
    kind: Kind,
    room: &mut [u8],
    at: usize,
) -> usize
    requires { EntryAt source.now.sheet.now source.now.starts.now k start × (kind_number kind ≡ kind_of (entry_at source.now.sheet.now start)) × (5 ≤ kind_number kind) × (at + length (text_of source.now.sheet.now k) ≤ length room.old) }
    ensures { PutBytes room.old at (text_of source.now.sheet.now k) room.new result }
{
    let first = sheet::first_way(source.sheet, start);
    let next = text::put_byte(room, at, b'<');
    let next = put_way(source, k, first, room, next);
    put_second(source, k, start, kind, room, next)
}

// Writes the sign of the same or differ of entry k, its second way, and its end. (The way is read here, so that it need not be kept
// while the first is written.)
#[cycle(writers)]
fn put_second(
    source: &Source<'_>,
    k: usize,
    start: usize,
    kind: Kind,
    room: &mut [u8],
    at: usize,
) -> usize
    requires { EntryAt source.now.sheet.now source.now.starts.now k start × (kind_number kind ≡ kind_of (entry_at source.now.sheet.now start)) × (5 ≤ kind_number kind) × (at + length (second_text source.now.sheet.now (kind_number kind) start) ≤ length room.old) }
    ensures { PutBytes room.old at (second_text source.now.sheet.now (kind_number kind) start) room.new result }
{
    let way = sheet::second_way(source.sheet, start);
    let next = put_sign(room, at, kind);
    let next = put_way(source, k, way, room, next);
    text::put_byte(room, next, b'>')
}

// Writes a way of entry k: a dot, or its steps.
#[cycle(writers)]
fn put_way(source: &Source<'_>, k: usize, way: Steps, room: &mut [u8], at: usize) -> usize
    requires { WayOf source.now.sheet.now source.now.starts.now k way × (at + length (way_text_of source.now.sheet.now way) ≤ length room.old) }
    ensures { PutBytes room.old at (way_text_of source.now.sheet.now way) room.new result }
{
    if way.count == 0 {
        return text::put_byte(room, at, b'.');
    }
    put_steps(source, k, way, room, at)
}

// Writes the steps of a way of entry k, one after another. (By a loop: a call of itself for the steps left would have up to 60
// calls under way for each reference of a chain.)
#[cycle(writers)]
fn put_steps(source: &Source<'_>, k: usize, steps: Steps, room: &mut [u8], at: usize) -> usize
    requires { WayOf source.now.sheet.now source.now.starts.now k steps × (at + length (steps_text_of source.now.sheet.now steps) ≤ length room.old) }
    ensures { PutBytes room.old at (steps_text_of source.now.sheet.now steps) room.new result }
{
    let version = steps.version;
    let mut from = steps.start;
    let mut next = at;
    for _ in 0..steps.count {
        let step = Steps {
            start: from,
            count: 1,
            version,
        };
        next = put_step(source, k, step, room, next);
        from += sheet::steps_size(version, 1);
    }
    next
}

// Writes one step of a way of entry k: its label, and its test by the question of an earlier entry.
#[cycle(writers)]
fn put_step(source: &Source<'_>, k: usize, step: Steps, room: &mut [u8], at: usize) -> usize
    requires { WayOf source.now.sheet.now source.now.starts.now k step × (step.count ≡ 1) × (at + length (steps_text_of source.now.sheet.now step) ≤ length room.old) }
    ensures { PutBytes room.old at (steps_text_of source.now.sheet.now step) room.new result }
{
    let label = labelled(source.sheet, step, 0);
    let next = put_label(room, at, label);
    let test = tested(source.sheet, step, 0);
    put_between(source, k, test, b'[', b']', room, next)
}

// ---- the operations

// Of an entry of an accepted sheet: 28, 29, or the length.
fn entry_answer(sheet: Sheet<'_>, question: Question) -> Result<u32, Refused>
    requires { question.0 < count_of sheet.bytes.now }
    ensures { result ≡ question_answer (question_of sheet.entry.bytes.now question.0) }
{
    let m = question_measure::measure_of(sheet, question);
    if MOST_CHAIN < m.chain {
        return Err(Refusal::LongChain.of(Part::Call));
    }
    if MOST_LENGTH < m.length {
        return Err(Refusal::LongText.of(Part::Call));
    }
    Ok(m.length as u32)
}

// The length of the text of an entry of any number.
fn length_of(sheet: &[u8], entry: usize) -> Result<u32, Refused>
    ensures { result ≡ length_answer sheet.now entry }
{
    let sheet = Sheet::check(sheet).map_err(|refusal| refusal.of(Part::Sheet))?;
    if sheet.entries() as usize <= entry {
        return Err(Refusal::NoEntry.of(Part::Call));
    }
    entry_answer(sheet, Question(entry as u16))
}

// Writes the text of entry k of an accepted sheet at the start of room that has enough bytes.
fn put_text(sheet: Sheet<'_>, k: usize, room: &mut [u8])
    requires { (k < count_of sheet.bytes.now) × (length (text_of sheet.bytes.now k) ≤ length room.old) }
    ensures { room.new ≡ text_of sheet.entry.bytes.now k ++ drop (length (text_of sheet.entry.bytes.now k)) room.old }
{
    let mut all = [0; ENTRIES];
    let starts = &mut all[..k + 1];
    list_starts(sheet, starts);
    let source = Source {
        sheet: sheet.bytes,
        starts,
    };
    put_question(&source, k, room, 0);
}

// Writes the text of an entry of any number.
fn write_of(sheet: &[u8], entry: usize, room: &mut [u8]) -> Result<u32, Refused>
    ensures { IsWrite sheet.now entry room.old result room.new }
{
    let length = length_of(sheet, entry)?;
    if room.len() < length as usize {
        return Err(Refusal::TextRoom.of(Part::Call));
    }
    put_text(Sheet { bytes: sheet }, entry, room);
    Ok(length)
}

// The exact length of the text of an entry's question, without writing it. Refused: the sheet's refusal; 25 where the sheet has no such
// entry; 28 where a chain of more than 1,024 references leads from it; 29 where the length exceeds 4,294,967,295.
pub fn question_length(sheet: &[u8], entry: Question) -> Result<u32, Refused>
    ensures { result ≡ length_answer sheet.now entry.0 }
{
    length_of(sheet, entry.0 as usize)
}

// Writes the question of an entry out in full at the room's start, and answers the length; bytes after the text stay. Refused as
// `question_length`, and last 30 where there is less room than the length; the room then stays.
pub fn question_text(sheet: &[u8], entry: Question, room: &mut [u8]) -> Result<u32, Refused>
    ensures { IsWrite sheet.now entry.0 room.old result room.new }
{
    write_of(sheet, entry.0 as usize, room)
}

// An answer as one number: refusal + 2^8 × part (3, the sheet, where it is the sheet's), or 2^16 × the length.
fn number_of(answer: Result<u32, Refused>) -> u64
    ensures { result ≡ code (text_outcome answer) }
{
    match answer {
        Ok(n) => outcome::accepted(n % 16777216, n / 16777216),
        Err(refused) => refused.code(),
    }
}

// `question_length` of an entry of any number, its answer as one number.
pub fn length_code(sheet: &[u8], entry: usize) -> u64
    ensures { result ≡ code (text_outcome (length_answer sheet.now entry)) }
{
    number_of(length_of(sheet, entry))
}

// `question_text` of an entry of any number, its answer as one number.
pub fn text_code(sheet: &[u8], entry: usize, room: &mut [u8]) -> u64
    ensures { IsWriteCode sheet.now entry room.old result room.new }
{
    number_of(write_of(sheet, entry, room))
}
