// The words of a sheet's entries, one after another, over the tables of a graph: sets of nodes as words.
#![tactic(auto)]

ghost use Rattle.std.specs.Prelude.{◌≡◌, ◌^◌, ◌≤◌, ◌<◌, length, get_or};
ghost use Rattle.theory.specs.Search.{list};
ghost use Rattle.sheet.specs.Entry.{kind_of, step_in, numbers};
ghost use Rattle.sheet.specs.Sheet.{entry_at};
ghost use Rattle.sheet.specs.Reading.{steps_of, HasNumber};
ghost use Rattle.sheet.specs.Known.{WayKnown, EntryKnown, EntriesFit};
ghost use Rattle.edges.specs.LinkTables.{forward, backward};
ghost use Rattle.evaluate.specs.Evaluation.{way_word, Ended, comparison_word, pair_word, entry_word, evaluated};
ghost use Rattle.evaluate.specs.GivenTables.{tables_of};

use edges::{Links, Rows};
use sheet::{Kind, Question, Sheet, Steps};

// The word of the entry that number i of the not, and or or at `at` names.
fn named_word(sheet: &[u8], at: usize, i: usize, known: &[u64]) -> u64
    requires { HasNumber sheet.now at i × EntryKnown sheet.now at (length known.now) }
    ensures { result ≡ get_or known.now (get_or (numbers (entry_at sheet.now at)) i 0) 0 }
{
    let k = sheet::number(sheet, at, i).0 as usize;
    known[k]
}

// The word of the entry that the test of step i of a way names.
fn tested_word(sheet: &[u8], way: Steps, i: usize, known: &[u64]) -> u64
    requires { (i < way.count) × WayKnown sheet.now way (length known.now) }
    ensures { result ≡ get_or known.now (step_in (steps_of sheet.now way) i).test 0 }
{
    let k = sheet::test(sheet, way, i).0 as usize;
    known[k]
}

// The nodes with a way of the steps, from the last step to the first over one word.
fn way_word(every: u64, links: &Links, sheet: &[u8], way: Steps, known: &[u64]) -> u64
    requires { WayKnown sheet.now way (length known.now) }
    ensures { result ≡ way_word every (backward links.now) known.now (steps_of sheet.now way) }
{
    let mut out = every;
    for i in (0..way.count).rev() {
        let label = sheet::label(sheet, way, i);
        let tested = tested_word(sheet, way, i, known);
        out = edges::image(links, label, words::meet(tested, out));
    }
    out
}

// Writes for each node the set of that node.
fn singles(rows: &mut [u64; 64])
    requires { length rows.old ≡ 64 }
    ensures { rows.new ≡ list 64 (λ x. 2 ^ x) }
{
    for x in 0..64 {
        rows[x] = words::only(x as u8);
    }
}

// Writes for each node the ends of the ways of the steps from it, from the last step to the first for all nodes together. The answer is false where it was
// left off because no way has an end.
fn end_rows(links: &Links, sheet: &[u8], way: Steps, known: &[u64], rows: &mut [u64; 64]) -> bool
    requires { WayKnown sheet.now way (length known.now) × (length rows.old ≡ 64) }
    ensures { Ended (forward links.now) known.now (steps_of sheet.now way) result rows.new }
{
    singles(rows);
    for i in (0..way.count).rev() {
        let label = sheet::label(sheet, way, i);
        let tested = tested_word(sheet, way, i, known);
        if !edges::gather(links, label, tested, rows) {
            return false;
        }
    }
    true
}

// The nodes of `every` with an end in their first row and an end in their second that pass.
fn comparison_word(every: u64, rows: &[u64; 64], firsts: &[u64; 64], seconds: &[u64; 64]) -> u64
    ensures { result ≡ comparison_word every rows.now firsts.now seconds.now }
{
    let mut out: u64 = 0;
    let mut left = every;
    while left != 0 {
        let x = words::lowest(left);
        let i = x as usize;
        if edges::any_passes(firsts[i], seconds[i], rows) {
            out = words::with(out, x);
        }
        left = words::without(left, x);
    }
    out
}

// The word of the same or differ at `at`, from the rows of that comparison.
fn pair_word(
    every: u64,
    links: &Links,
    rows: &[u64; 64],
    sheet: &[u8],
    at: usize,
    known: &[u64],
) -> u64
    requires { EntryKnown sheet.now at (length known.now) × (5 ≤ kind_of (entry_at sheet.now at)) }
    ensures { result ≡ pair_word every rows.now (forward links.now) known.now (entry_at sheet.now at) }
{
    let first = sheet::first_way(sheet, at);
    let second = sheet::second_way(sheet, at);
    let mut firsts = [0u64; 64];
    if !end_rows(links, sheet, first, known, &mut firsts) {
        return 0;
    }
    let mut seconds = [0u64; 64];
    if !end_rows(links, sheet, second, known, &mut seconds) {
        return 0;
    }
    comparison_word(every, rows, &firsts, &seconds)
}

// The word of the entry at `at`, from the words of the entries before it.
fn entry_word(every: u64, links: &Links, rows: &Rows, sheet: &[u8], at: usize, known: &[u64]) -> u64
    requires { EntryKnown sheet.now at (length known.now) }
    ensures { result ≡ entry_word (tables_of every links.now rows.now) known.now (entry_at sheet.now at) }
{
    let kind = sheet::kind(sheet, at);
    // By `<`, and a few tests on each side of it: a table of jumps, which a match of all the kinds becomes, costs more than the tests.
    if kind.number() < Kind::Way.number() {
        match kind {
            Kind::True => every,
            Kind::Not => every ^ named_word(sheet, at, 0, known),
            _ => {
                let a = named_word(sheet, at, 0, known);
                let b = named_word(sheet, at, 1, known);
                match kind {
                    Kind::And => words::meet(a, b),
                    _ => words::union(a, b),
                }
            }
        }
    } else {
        match kind {
            Kind::Way => {
                let way = sheet::first_way(sheet, at);
                way_word(every, links, sheet, way, known)
            }
            Kind::Same => pair_word(every, links, &rows.same, sheet, at, known),
            _ => pair_word(every, links, &rows.differ, sheet, at, known),
        }
    }
}

// Writes the words of the first `upto` entries of a sheet, from the front, over the nodes of `every`.
pub fn evaluate(
    every: u64,
    links: &Links,
    rows: &Rows,
    sheet: Sheet<'_>,
    upto: usize,
    known: &mut [u64],
)
    requires { EntriesFit sheet.bytes.now upto (length known.old) }
    ensures { known.new ≡ evaluated (tables_of every links.now rows.now) sheet.entry.bytes.now upto known.old }
{
    let mut at = sheet.entry_start(Question(0));
    for k in 0..upto {
        known[k] = entry_word(every, links, rows, sheet.bytes, at, known);
        at = sheet::next_start(sheet.bytes, at);
    }
}
