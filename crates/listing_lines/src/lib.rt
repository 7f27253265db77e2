// The lines of a listing, written into lent bytes.
#![tactic(auto)]

ghost use Rattle.std.specs.Prelude.{◌+◌, ◌*◌, ◌≤◌, length};
ghost use Rattle.compare_laws.specs.Places.{unparted};
ghost use Rattle.words.specs.Words.{tally};
ghost use Rattle.answers.specs.RowLaws.{Whole};
ghost use Rattle.text.specs.Text.{Wrote};
ghost use Rattle.listing_lines.specs.Lines.{head_line, row_line, total_line, cell_line, row_lines, pairs_in, pair_lines, head_most, row_most, total_most, pair_most, Sized, WroteRows};

use answers::RowSet;

// Row lines that were written: the byte after them, and how many matched pairs they tell of.
#[derive(Clone, Copy)]
struct Rows {
    end: usize,
    matched: usize,
}

// Writes the sizes and the bound at `at`, and gives the byte after the line.
fn put_head(out: &mut [u8], at: usize, n: usize, m: usize, c: u8) -> usize
    requires { at + head_most ≤ length out.old }
    ensures { Wrote out.old at (head_line n m c) head_most out.new result }
{
    let end = text::put_labelled(out, at, b"books ", n as u64);
    let end = text::put_labelled(out, end, b" ", m as u64);
    text::put_ending(out, end, b" bound ", c as u64)
}

// Writes a left cell, its count and its word at `at`, and gives the byte after the line.
fn put_row(out: &mut [u8], at: usize, i: usize, row: RowSet) -> usize
    requires { at + row_most ≤ length out.old }
    ensures { Wrote out.old at (row_line i row.count row.word) row_most out.new result }
{
    let end = text::put_labelled(out, at, b"row ", i as u64);
    let end = text::put_labelled(out, end, b" count ", row.count as u64);
    text::put_ending(out, end, b" word ", row.word)
}

// Writes the totals at `at`, and gives the byte after the line.
fn put_totals(out: &mut [u8], at: usize, matched: usize, parted: usize) -> usize
    requires { at + total_most ≤ length out.old }
    ensures { Wrote out.old at (total_line matched parted) total_most out.new result }
{
    let end = text::put_labelled(out, at, b"matched ", matched as u64);
    text::put_ending(out, end, b" parted ", parted as u64)
}

// Writes the line of left cell i, as Row answers it from the map, at `at`.
fn put_cell(out: &mut [u8], at: usize, map: &[u16], m: usize, i: usize) -> Rows
    requires { (at + row_most ≤ length out.old) × Whole map.now m i }
    ensures { WroteRows out.old at (cell_line m (unparted m map.now) i) row_most (tally m (unparted m map.now i)) out.new result }
{
    let row = answers::row(map, m, i).unwrap();
    let end = put_row(out, at, i, row);
    Rows {
        end,
        matched: row.count as usize,
    }
}

// Writes the lines of the n left cells from `at` on.
fn put_rows(out: &mut [u8], at: usize, map: &[u16], n: usize, m: usize) -> Rows
    requires { (at + row_most * n ≤ length out.old) × Sized map.now n m }
    ensures { WroteRows out.old at (row_lines n m (unparted m map.now)) (row_most * n) (pairs_in n m (unparted m map.now)) out.new result }
{
    let mut end = at;
    let mut matched = 0;
    for i in 0..n {
        let row = put_cell(out, end, map, m, i);
        end = row.end;
        matched += row.matched;
    }
    Rows { end, matched }
}

// Writes the listing of a map of n left and m right cells at the bound c from `at` on, and gives the byte after it.
pub fn put_pairs(out: &mut [u8], at: usize, map: &[u16], n: usize, m: usize, c: u8) -> usize
    requires { (at + pair_most n ≤ length out.old) × Sized map.now n m }
    ensures { Wrote out.old at (pair_lines n m c (unparted m map.now)) (pair_most n) out.new result }
{
    let end = put_head(out, at, n, m, c);
    let rows = put_rows(out, end, map, n, m);
    let matched = rows.matched;
    put_totals(out, rows.end, matched, n * m - matched)
}
