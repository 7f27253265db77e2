// A sheet of questions: checked once, then read entry by entry.
#![tactic(auto)]

ghost use Rattle.std.specs.Prelude.{◌≡◌, ℕ, List, [], ◌∷◌, ◌+◌, ◌*◌, ◌≤◌, ◌<◌, IfOk, length, get_or};
ghost use Rattle.outcome.specs.Outcome.{code};
ghost use Rattle.outcome.specs.Refused.{refusal_in};
ghost use Rattle.sheet.specs.Entry.{kind_number, kind_of, first_way_lem, second_way, step_in, tests, numbers};
ghost use Rattle.sheet.specs.Sheet.{version_of, head_size, step_width, number_width, number_at, steps_at, entry_at, next_at, head_refusal, numbers_refusal, body_refusal, count_refusal, entry_refusal, entries_refusal, sheet_refusal, sheet_answer, sheet_outcome};
ghost use Rattle.sheet.specs.Reading.{Readable, HasNumber, HasWay, HasStep, Reads, steps_of, first_place, second_place};

use outcome::{Part, Refusal};

mod accepted;
mod kinds;

pub use accepted::Sheet;
pub use kinds::Kind;

// The number of an entry.
#[derive(Clone, Copy, PartialEq, Eq, Debug)]
pub struct Question(pub u16);

// What the check of a sheet finds where it accepts: how many entries the sheet has, and its bound.
#[derive(Clone, Copy, PartialEq, Eq, Debug)]
pub struct Heading {
    pub entries: u16,
    pub bound: u8,
}

// The bytes of the header and of a number.
const HEAD: usize = 8;

const NUMBER: usize = 2;

// The latest version, the largest bound, the most entries, and the most steps of a way.
pub const MOST_VERSION: u8 = 2;

pub const MOST_BOUND: u8 = 4;

pub const MOST_ENTRIES: u16 = 16385;

// What a map has in place of an entry's number where a cell is hidden.
pub const HIDDEN_PLACE: u16 = 65535;

const MOST_STEPS: usize = 60;

// The bytes of so many steps in a sheet of a version.
pub fn steps_size(version: u8, count: usize) -> usize
    requires { count ≤ 512 }
    ensures { (result ≡ step_width version * count) × (result ≤ 4 * count) }
{
    let width = fields::label_width(version) + NUMBER;
    width * count
}

// Checks the header.
fn check_head(s: &[u8]) -> Result<(), Refusal>
    ensures { refusal_in result ≡ head_refusal s.now }
{
    if s.len() < HEAD {
        return Err(Refusal::FewBytes);
    }
    let l = fields::get::<4>(s, 0) as usize;
    if l != s.len() {
        return Err(Refusal::OtherLength);
    }
    let v = s[4];
    if v == 0 {
        return Err(Refusal::OtherVersion);
    }
    if MOST_VERSION < v {
        return Err(Refusal::OtherVersion);
    }
    let c = s[5];
    if MOST_BOUND < c {
        return Err(Refusal::SheetCounts);
    }
    let q = fields::get::<2>(s, 6) as u16;
    if q == 0 {
        return Err(Refusal::SheetCounts);
    }
    if MOST_ENTRIES < q {
        return Err(Refusal::SheetCounts);
    }
    Ok(())
}

// Checks that the number at `at` names an entry before n.
// Stays: the checks take the sheet, n and a place one by one: each call has another place, and of the version and the bound each check gets what it reads, where a
// struct of all would give it more.
fn check_number(s: &[u8], n: u16, at: usize) -> Result<(), Refusal>
    requires { at + number_width ≤ length s.now }
    ensures { refusal_in result ≡ numbers_refusal n (number_at s.now at ∷ []) }
{
    let i = fields::get::<2>(s, at) as u16;
    if i < n {
        return Ok(());
    }
    Err(Refusal::NotEarlier)
}

// Checks that the test of the step at `at` names an entry before n.
fn check_test(s: &[u8], v: u8, n: u16, at: usize) -> Result<(), Refusal>
    requires { at + step_width v * 1 ≤ length s.now }
    ensures { refusal_in result ≡ numbers_refusal n (tests (steps_at v s.now at 1)) }
{
    check_number(s, n, at + fields::label_width(v))
}

// Checks that the tests of the two steps from `at` on name entries before n.
fn check_two_tests(s: &[u8], v: u8, n: u16, at: usize) -> Result<(), Refusal>
    requires { at + step_width v * 2 ≤ length s.now }
    ensures { refusal_in result ≡ numbers_refusal n (tests (steps_at v s.now at 2)) }
{
    check_test(s, v, n, at)?;
    check_test(s, v, n, at + steps_size(v, 1))
}

// Checks that the tests of `count` steps from `base` on name entries before n. It goes by two steps, so that where the loop lies in a program hardly changes
// its time.
fn check_tests(s: &[u8], v: u8, n: u16, base: usize, count: usize) -> Result<(), Refusal>
    requires { base + step_width v * count ≤ length s.now }
    ensures { refusal_in result ≡ numbers_refusal n (tests (steps_at v s.now base count)) }
{
    let mut at = base;
    for _pair in 0..count / 2 {
        check_two_tests(s, v, n, at)?;
        at += steps_size(v, 2);
    }
    if count % 2 == 0 {
        return Ok(());
    }
    check_test(s, v, n, at)
}

// Checks the body of a true, in whatever sheet and entry. Like a not, an and and an or it has no steps, so neither the version nor the bound matters.
fn check_true(size: usize) -> Result<(), Refusal>
    ensures { (s : List ℕ) (n at : ℕ) → refusal_in result ≡ body_refusal 0 s 0 n 0 at size }
{
    if size != 0 {
        return Err(Refusal::BodyBytes);
    }
    Ok(())
}

// Checks the body of a not.
fn check_not(s: &[u8], n: u16, at: usize, size: usize) -> Result<(), Refusal>
    requires { at + size ≤ length s.now }
    ensures { refusal_in result ≡ body_refusal 0 s.now 0 n 1 at size }
{
    if size != NUMBER {
        return Err(Refusal::BodyBytes);
    }
    check_number(s, n, at)
}

// Checks the body of an and or an or.
fn check_both(s: &[u8], n: u16, at: usize, size: usize) -> Result<(), Refusal>
    requires { at + size ≤ length s.now }
    ensures { refusal_in result ≡ body_refusal 0 s.now 0 n 2 at size }
{
    if size != 2 * NUMBER {
        return Err(Refusal::BodyBytes);
    }
    check_number(s, n, at)?;
    check_number(s, n, at + NUMBER)
}

// Checks the body of a way. Its steps are not limited by the bound.
fn check_way(s: &[u8], v: u8, n: u16, at: usize, size: usize) -> Result<(), Refusal>
    requires { at + size ≤ length s.now }
    ensures { refusal_in result ≡ body_refusal v s.now 0 n 4 at size }
{
    if size < 1 {
        return Err(Refusal::BodyBytes);
    }
    let k = s[at] as usize;
    if MOST_STEPS < k {
        return Err(Refusal::ManySteps);
    }
    if size != 1 + steps_size(v, k) {
        return Err(Refusal::BodyBytes);
    }
    check_tests(s, v, n, at + 1, k)
}

// Checks the body of a same or a differ.
fn check_comparison(s: &[u8], v: u8, c: u8, n: u16, at: usize, size: usize) -> Result<(), Refusal>
    requires { at + size ≤ length s.now }
    ensures { refusal_in result ≡ body_refusal v s.now c n 5 at size }
{
    if size < 2 {
        return Err(Refusal::BodyBytes);
    }
    let k = s[at];
    if c < k {
        return Err(Refusal::ManySteps);
    }
    let j = s[at + 1];
    if c < j {
        return Err(Refusal::ManySteps);
    }
    let count = k as usize + j as usize;
    if size != 2 + steps_size(v, count) {
        return Err(Refusal::BodyBytes);
    }
    check_tests(s, v, n, at + 2, count)
}

// Checks the body of an entry without steps: of a true, a not, an and or an or.
fn check_plain(s: &[u8], n: u16, kind: Kind, at: usize, size: usize) -> Result<(), Refusal>
    requires { (at + size ≤ length s.now) × (kind_number kind < 4) }
    ensures { refusal_in result ≡ body_refusal 0 s.now 0 n (kind_number kind) at size }
{
    match kind {
        Kind::True => check_true(size),
        Kind::Not => check_not(s, n, at, size),
        _ => check_both(s, n, at, size),
    }
}

// Checks the body of entry n.
fn check_body(
    s: &[u8],
    v: u8,
    c: u8,
    n: u16,
    kind: Kind,
    at: usize,
    size: usize,
) -> Result<(), Refusal>
    requires { at + size ≤ length s.now }
    ensures { refusal_in result ≡ body_refusal v s.now c n (kind_number kind) at size }
{
    // A `<`, and no match of all kinds: that becomes a table of jumps, and a jump through a table costs more than these tests.
    if kind.number() < Kind::Way.number() {
        return check_plain(s, n, kind, at, size);
    }
    if kind == Kind::Way {
        return check_way(s, v, n, at, size);
    }
    check_comparison(s, v, c, n, at, size)
}

// The count byte of the entry at `at`: so many bytes follow it, and one or more.
fn check_count(s: &[u8], at: usize) -> Result<usize, Refusal>
    ensures refusal { refusal_in result ≡ count_refusal s.now at }
    ensures count { IfOk result (λ count. (count ≡ get_or s.now at 0) × (0 < count) × (at + count < length s.now)) }
{
    if s.len() <= at {
        return Err(Refusal::EntryBytes);
    }
    let count = s[at] as usize;
    if count == 0 {
        return Err(Refusal::EntryBytes);
    }
    if s.len() - at <= count {
        return Err(Refusal::EntryBytes);
    }
    Ok(count)
}

// Checks entry 0, which follows the header and is a true.
fn check_first(s: &[u8]) -> Result<(), Refusal>
    ensures { (v c : ℕ) → refusal_in result ≡ entry_refusal v s.now c 0 head_size }
{
    let count = check_count(s, HEAD)?;
    let kind = Kind::try_from(s[HEAD + 1])?;
    if kind != Kind::True {
        return Err(Refusal::FirstEntry);
    }
    check_true(count - 1)
}

// Checks entry n, another than entry 0, which starts at `at`.
fn check_entry(s: &[u8], v: u8, c: u8, n: u16, at: usize) -> Result<(), Refusal>
    requires { 0 < n }
    ensures { refusal_in result ≡ entry_refusal v s.now c n at }
{
    let count = check_count(s, at)?;
    let kind = Kind::try_from(s[at + 1])?;
    check_body(s, v, c, n, kind, at + 2, count - 1)
}

// Checks q entries, of which the first follows the header. (That is checked by itself, so that the loop over the others asks of none whether it is the first.)
fn check_entries(s: &[u8], c: u8, q: u16) -> Result<(), Refusal>
    requires { (head_size ≤ length s.now) × (0 < q) }
    ensures { refusal_in result ≡ entries_refusal (version_of s.now) s.now c 0 head_size q }
{
    check_first(s)?;
    let v = s[4];
    let mut at = next_start(s, HEAD);
    for n in 1..q {
        check_entry(s, v, c, n, at)?;
        at = next_start(s, at);
    }
    if at < s.len() {
        return Err(Refusal::EntryBytes);
    }
    Ok(())
}

// Check a sheet: its entries and its bound, or the first of 01's refusals that applies: 1 fewer than 8 bytes; 2 its length is not
// that of `bytes`; 3 version; 8 bound or entries out of range; entry by entry 9, 10, 13, 14, 11, 14, 12; at the end 9.
pub fn check(bytes: &[u8]) -> Result<Heading, Refusal>
    ensures { result ≡ sheet_answer bytes.now }
{
    check_head(bytes)?;
    let bound = bytes[5];
    let entries = fields::get::<2>(bytes, 6) as u16;
    check_entries(bytes, bound, entries)?;
    Ok(Heading { entries, bound })
}

// The answer of `check` as one number: refusal + 2^8 × part (3, the sheet, on a refusal) + 2^16 × entries + 2^40 × bound.
pub fn check_code(bytes: &[u8]) -> u64
    ensures { result ≡ code (sheet_outcome (sheet_answer bytes.now)) }
{
    match check(bytes) {
        Ok(Heading { entries, bound }) => outcome::accepted(entries as u32, bound as u32),
        Err(refusal) => refusal.of(Part::Sheet).code(),
    }
}

// ---- the entries of an accepted sheet, each read where it starts

// Where the steps of a way stand in a sheet, and the version in which they are written.
#[derive(Clone, Copy)]
pub struct Steps {
    pub start: usize,
    pub count: usize,
    pub version: u8,
}

// The byte where the entry after the one at `at` starts.
pub fn next_start(s: &[u8], at: usize) -> usize
    requires { Readable s.now at }
    ensures { result ≡ next_at s.now at }
{
    at + 1 + s[at] as usize
}

// The kind of the entry at `at`.
pub fn kind(s: &[u8], at: usize) -> Kind
    requires { Readable s.now at }
    ensures { kind_number result ≡ kind_of (entry_at s.now at) }
{
    Kind::try_from(s[at + 1]).unwrap()
}

// Number i of the not, and or or at `at`.
pub fn number(s: &[u8], at: usize, i: usize) -> Question
    requires { HasNumber s.now at i }
    ensures { result.0 ≡ get_or (numbers (entry_at s.now at)) i 0 }
{
    Question(fields::get::<2>(s, at + 2 + NUMBER * i) as u16)
}

// Where the steps stand of the way at `at`, or of the first way of the same or differ there.
pub fn first_way(s: &[u8], at: usize) -> Steps
    requires { HasWay s.now at 4 }
    ensures { Reads s.now (first_place s.now at) (first_way_lem (entry_at s.now at)) result }
{
    let version = s[4];
    let count = s[at + 2] as usize;
    let start = match kind(s, at) {
        Kind::Way => at + 3,
        _ => at + 4,
    };
    Steps {
        start,
        count,
        version,
    }
}

// Where the steps stand of the second way of the same or differ at `at`.
pub fn second_way(s: &[u8], at: usize) -> Steps
    requires { HasWay s.now at 5 }
    ensures { Reads s.now (second_place s.now at) (second_way (entry_at s.now at)) result }
{
    let version = s[4];
    let first = s[at + 2] as usize;
    let count = s[at + 3] as usize;
    Steps {
        start: at + 4 + steps_size(version, first),
        count,
        version,
    }
}

// The label of step i of a way.
pub fn label(s: &[u8], way: Steps, i: usize) -> u16
    requires { HasStep s.now way i }
    ensures { result ≡ (step_in (steps_of s.now way) i).label }
{
    let start = way.start;
    let version = way.version;
    fields::get_label(s, start + steps_size(version, i), version)
}

// The question that is tested after step i of a way.
pub fn test(s: &[u8], way: Steps, i: usize) -> Question
    requires { HasStep s.now way i }
    ensures { result.0 ≡ (step_in (steps_of s.now way) i).test }
{
    let start = way.start;
    let version = way.version;
    let at = start + steps_size(version, i);
    Question(fields::get::<2>(s, at + fields::label_width(version)) as u16)
}
