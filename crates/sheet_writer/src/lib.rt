// Writing a sheet into lent room: its entries one after another, each at the byte where the one before it ended, and its header last.
#![tactic(auto)]

ghost use Rattle.std.specs.Prelude.{[], ◌∷◌, ◌≡◌, ◌+◌, ◌*◌, ◌^◌, ◌<◌, ◌≤◌, length};
ghost use Rattle.std.proofs.lemmas.List.Edits.{sets};
ghost use Rattle.fields.specs.Label.{label_width};
ghost use Rattle.sheet.specs.Entry.{truth, negation, conjunction, disjunction, way, entry_with, kind_number, most_steps};
ghost use Rattle.sheet.specs.Sheet.{head_size, most_bound, step_width};
ghost use Rattle.sheet.specs.Encoding.{encode_steps, header};
ghost use Rattle.sheet_writer.specs.Writing.{step, steps_given, PutEntry, PutPlain, StepsFit, WaysFit, PutWays};

use sheet::{Kind, Question};

// A step of a way: its label, and the question that is tested at the cell reached.
#[derive(Clone, Copy, PartialEq, Eq, Debug)]
pub struct Step {
    pub label: u16,
    pub test: Question,
}

// Writes two bytes at `at`.
fn put_pair(room: &mut [u8], at: usize, first: u8, second: u8)
    requires { at + 2 ≤ length room.old }
    ensures { room.new ≡ sets room.old at (first ∷ second ∷ []) }
{
    room[at] = first;
    room[at + 1] = second;
}

// Writes the bytes with which an entry starts, at `at`: how many follow the first, and the kind.
fn put_head(room: &mut [u8], at: usize, size: u8, kind: Kind)
    requires { at + 2 ≤ length room.old }
    ensures { room.new ≡ sets room.old at (size ∷ kind_number kind ∷ []) }
{
    put_pair(room, at, size, kind.number());
}

// Writes the header of a sheet of `total` bytes at the room's start.
pub fn put_header(room: &mut [u8], version: u8, total: u32, bound: u8, entries: u16)
    requires { head_size ≤ length room.old }
    ensures { room.new ≡ sets room.old 0 (header version total bound entries) }
{
    fields::put::<4>(room, 0, total);
    put_pair(room, 4, version, bound);
    fields::put::<2>(room, 6, entries as u32);
}

// Writes a true at `at`, and gives the byte after it.
pub fn put_true(room: &mut [u8], at: usize) -> usize
    requires { at + 2 ≤ length room.old }
    ensures { PutPlain room.old at truth room.new result }
{
    put_head(room, at, 1, Kind::True);
    at + 2
}

// Writes "not q" at `at`, and gives the byte after it.
pub fn put_not(room: &mut [u8], at: usize, q: Question) -> usize
    requires { at + 4 ≤ length room.old }
    ensures { PutPlain room.old at (negation q.0) room.new result }
{
    put_head(room, at, 3, Kind::Not);
    fields::put::<2>(room, at + 2, q.0 as u32);
    at + 4
}

// Writes an and or an or at `at`, and gives the byte after it.
fn put_two(room: &mut [u8], at: usize, kind: Kind, p: Question, q: Question) -> usize
    requires { (at + 6 ≤ length room.old) × (2 ≤ kind_number kind) × (kind_number kind ≤ 3) }
    ensures { PutPlain room.old at (entry_with (kind_number kind) p.0 q.0 [] []) room.new result }
{
    put_head(room, at, 5, kind);
    fields::put::<2>(room, at + 2, p.0 as u32);
    fields::put::<2>(room, at + 4, q.0 as u32);
    at + 6
}

// Writes "p and q" at `at`, and gives the byte after it.
pub fn put_and(room: &mut [u8], at: usize, p: Question, q: Question) -> usize
    requires { at + 6 ≤ length room.old }
    ensures { PutPlain room.old at (conjunction p.0 q.0) room.new result }
{
    put_two(room, at, Kind::And, p, q)
}

// Writes "p or q" at `at`, and gives the byte after it.
pub fn put_or(room: &mut [u8], at: usize, p: Question, q: Question) -> usize
    requires { at + 6 ≤ length room.old }
    ensures { PutPlain room.old at (disjunction p.0 q.0) room.new result }
{
    put_two(room, at, Kind::Or, p, q)
}

// Writes a step at `at`: its label, and the number of its test; and gives the byte after it.
fn put_step(room: &mut [u8], at: usize, version: u8, given: Step) -> usize
    requires { (at + step_width version ≤ length room.old) × (given.label < 256 ^ label_width version) }
    ensures bytes { room.new ≡ sets room.old at (encode_steps version (step given.label given.test.0 ∷ [])) }
    ensures end { result ≡ at + step_width version }
{
    let width = fields::label_width(version);
    fields::put_label(room, at, version, given.label);
    fields::put::<2>(room, at + width, given.test.0 as u32);
    at + width + 2
}

// Writes steps from `base` on, and gives the byte after them.
fn put_steps(room: &mut [u8], base: usize, version: u8, steps: &[Step]) -> usize
    requires { StepsFit version room.old base steps.now }
    ensures bytes { room.new ≡ sets room.old base (encode_steps version (steps_given steps.now)) }
    ensures end { result ≡ base + step_width version * length steps.now }
{
    let mut at = base;
    for &given in steps {
        at = put_step(room, at, version, given);
    }
    at
}

// Writes "there is a way" of the steps given, at most 60, at `at`, and gives the byte after it.
pub fn put_way(room: &mut [u8], at: usize, version: u8, steps: &[Step]) -> usize
    requires { (length steps.now ≤ most_steps version) × StepsFit version room.old (at + 3) steps.now }
    ensures { PutEntry version room.old at (way (steps_given steps.now)) room.new result }
{
    let size = sheet::steps_size(version, steps.len());
    put_head(room, at, (2 + size) as u8, Kind::Way);
    room[at + 2] = steps.len() as u8;
    put_steps(room, at + 3, version, steps)
}

// Writes the count byte, the kind and the step counts of a same or a differ at `at`.
fn put_counts(room: &mut [u8], at: usize, version: u8, kind: Kind, count: usize, count2: usize)
    requires { (at + 4 ≤ length room.old) × (count ≤ most_bound) × (count2 ≤ most_bound) }
    ensures { room.new ≡ sets room.old at ((3 + step_width version * (count + count2)) ∷ kind_number kind ∷ count ∷ count2 ∷ []) }
{
    let size = sheet::steps_size(version, count + count2);
    put_head(room, at, (3 + size) as u8, kind);
    put_pair(room, at + 2, count as u8, count2 as u8);
}

// Writes the steps of two ways from `at` on, and gives the byte after them.
fn put_ways(room: &mut [u8], at: usize, version: u8, first: &[Step], second: &[Step]) -> usize
    requires { WaysFit version room.old at first.now second.now }
    ensures { PutWays version room.old at (steps_given first.now) (steps_given second.now) room.new result }
{
    let mid = put_steps(room, at, version, first);
    put_steps(room, mid, version, second)
}

// Writes a same or a differ of two ways at `at`, at most 4 steps each, and gives the byte after it.
pub fn put_comparison(
    room: &mut [u8],
    at: usize,
    version: u8,
    kind: Kind,
    first: &[Step],
    second: &[Step],
) -> usize
    requires { (5 ≤ kind_number kind) × WaysFit version room.old (at + 4) first.now second.now }
    ensures { PutEntry version room.old at (entry_with (kind_number kind) 0 0 (steps_given first.now) (steps_given second.now)) room.new result }
{
    put_counts(room, at, version, kind, first.len(), second.len());
    put_ways(room, at + 4, version, first, second)
}
