// How long the text of a sheet's question is, and its longest chain of references (02, request 2026-01), without writing: both are computed entry by
// entry, from those of the entries before.
#![tactic(auto)]

ghost use Rattle.std.specs.Prelude.{◌≡◌, ◌+◌, ◌≤◌, ◌<◌, length, get_or};
ghost use Rattle.sheet.specs.Entry.{step_in, numbers};
ghost use Rattle.sheet.specs.Sheet.{count_of, entry_at, question_of};
ghost use Rattle.sheet.specs.Reading.{HasNumber, HasWay, steps_of};
ghost use Rattle.sheet.specs.Known.{WayKnown, EntryKnown};
ghost use Rattle.question_measure.specs.Measures.{measured, beside, longer, referred, step_measure, steps_measure, way_measure, pair_measure, entry_measure};
ghost use Rattle.question_measure.specs.MeasureLaws.{Measured};

use sheet::{Kind, Question, Sheet, Steps};

// The most references of a chain, and the most bytes of a text.
pub const MOST_CHAIN: u16 = 1024;

pub const MOST_LENGTH: u64 = 4294967295;

// One more than there may be of each.
const CHAIN_CAP: u16 = MOST_CHAIN + 1;

const LENGTH_CAP: u64 = MOST_LENGTH + 1;

// The most entries of a sheet.
const ENTRIES: usize = sheet::MOST_ENTRIES as usize;

// How many references the longest chain from a question has, up to 1,025, and how many bytes its text has, up to 2 to the 32.
#[derive(Clone, Copy)]
pub struct Measure {
    pub chain: u16,
    pub length: u64,
}

impl Measure {
    // This part and another beside each other.
    fn beside(self, other: Measure) -> Measure
        ensures { result ≡ beside self other }
    {
        Measure {
            chain: self.chain.max(other.chain).min(CHAIN_CAP),
            length: self.length.saturating_add(other.length).min(LENGTH_CAP),
        }
    }

    // This part and n bytes more.
    fn longer(self, n: u64) -> Measure
        ensures { result ≡ longer self n }
    {
        Measure {
            chain: self.chain.min(CHAIN_CAP),
            length: self.length.saturating_add(n).min(LENGTH_CAP),
        }
    }
}

// The chains and lengths of a sheet's entries, as far as they are known.
// Stays: two lists, since one of `Measure` has 16 bytes a place in place of 10, and include/cuhnavel.h promises the stack of the length.
#[derive(Drop)]
struct Known {
    chains: [u16; ENTRIES],
    lengths: [u64; ENTRIES],
}

impl Known {
    // A reference to entry i: one reference more.
    fn referred(&self, i: usize) -> Measure
        requires { i < length self.now.chains }
        ensures { result ≡ referred self.now.chains self.now.lengths i }
    {
        Measure {
            chain: self.chains[i].saturating_add(1).min(CHAIN_CAP),
            length: self.lengths[i].min(LENGTH_CAP),
        }
    }

    // A reference to the entry that number i of the not, and or or at `at` names.
    fn named(&self, sheet: &[u8], at: usize, i: usize) -> Measure
        requires { HasNumber sheet.now at i × EntryKnown sheet.now at (length self.now.chains) }
        ensures { result ≡ referred self.now.chains self.now.lengths (get_or (numbers (entry_at sheet.now at)) i 0) }
    {
        let k = sheet::number(sheet, at, i).0 as usize;
        self.referred(k)
    }

    // Step i of a way: a slash, the label, and a reference to the test's entry in brackets.
    fn step(&self, sheet: &[u8], way: Steps, i: usize) -> Measure
        requires { (i < way.count) × WayKnown sheet.now way (length self.now.chains) }
        ensures { result ≡ step_measure self.now.chains self.now.lengths (step_in (steps_of sheet.now way) i) }
    {
        let label = sheet::label(sheet, way, i);
        let k = sheet::test(sheet, way, i).0 as usize;
        let digits = text::digits(label as u64);
        self.referred(k).longer(3 + digits)
    }

    // The steps of a way, from the last to the first.
    fn steps(&self, sheet: &[u8], way: Steps) -> Measure
        requires { WayKnown sheet.now way (length self.now.chains) }
        ensures { result ≡ steps_measure self.now.chains self.now.lengths (steps_of sheet.now way) }
    {
        let mut out = Measure {
            chain: 0,
            length: 0,
        };
        for i in (0..way.count).rev() {
            out = self.step(sheet, way, i).beside(out);
        }
        out
    }

    // A way: a dot if it has no steps.
    fn way(&self, sheet: &[u8], way: Steps) -> Measure
        requires { WayKnown sheet.now way (length self.now.chains) }
        ensures { result ≡ way_measure self.now.chains self.now.lengths (steps_of sheet.now way) }
    {
        if way.count == 0 {
            return Measure {
                chain: 0,
                length: 1,
            };
        }
        self.steps(sheet, way)
    }

    // The two ways of the same or differ at `at`.
    fn ways(&self, sheet: &[u8], at: usize) -> Measure
        requires { HasWay sheet.now at 5 × EntryKnown sheet.now at (length self.now.chains) }
        ensures { result ≡ pair_measure self.now.chains self.now.lengths (entry_at sheet.now at) }
    {
        let first = self.way(sheet, sheet::first_way(sheet, at));
        let second = self.way(sheet, sheet::second_way(sheet, at));
        first.beside(second)
    }

    // The entry at `at`, from the entries before it.
    fn entry(&self, sheet: &[u8], at: usize) -> Measure
        requires { EntryKnown sheet.now at (length self.now.chains) }
        ensures { result ≡ entry_measure self.now.chains self.now.lengths (entry_at sheet.now at) }
    {
        let kind = sheet::kind(sheet, at);
        // By `<`, and a few tests on each side of it: a table of jumps, which a match of all the kinds becomes, costs more than the tests.
        if kind.number() < Kind::Way.number() {
            match kind {
                Kind::True => Measure {
                    chain: 0,
                    length: 3,
                },
                Kind::Not => self.named(sheet, at, 0).longer(3),
                _ => {
                    let first = self.named(sheet, at, 0);
                    let second = self.named(sheet, at, 1);
                    first.beside(second).longer(3)
                }
            }
        } else {
            match kind {
                Kind::Way => self.way(sheet, sheet::first_way(sheet, at)).longer(2),
                Kind::Same => self.ways(sheet, at).longer(3),
                _ => self.ways(sheet, at).longer(4),
            }
        }
    }

    // Lists the chains and lengths of the first `upto` entries of a sheet, from the front.
    fn list(&mut self, sheet: Sheet<'_>, upto: usize)
        requires { upto ≤ count_of sheet.bytes.now }
        ensures { Measured sheet.entry.bytes.now upto self.new.chains self.new.lengths }
    {
        let mut at = sheet.entry_start(Question(0));
        for k in 0..upto {
            let m = self.entry(sheet.bytes, at);
            self.chains[k] = m.chain;
            self.lengths[k] = m.length;
            at = sheet::next_start(sheet.bytes, at);
        }
    }
}

// The longest chain and the length of the text of an entry's question, each up to its limit.
pub fn measure_of(sheet: Sheet<'_>, question: Question) -> Measure
    requires { question.0 < count_of sheet.bytes.now }
    ensures { result ≡ measured (question_of sheet.entry.bytes.now question.0) }
{
    let mut known = Known {
        chains: [0; ENTRIES],
        lengths: [0; ENTRIES],
    };
    let k = question.0 as usize;
    known.list(sheet, k + 1);
    Measure {
        chain: known.chains[k],
        length: known.lengths[k],
    }
}
