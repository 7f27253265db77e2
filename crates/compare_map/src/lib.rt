// The map of a comparison: begun, counted, and read as a relation in words. A relation of left and right cells is a row a left cell: the
// set of the right cells that are related to it.
#![tactic(auto)]

ghost use Rattle.std.specs.Prelude.{◌≡◌, ◌*◌, ◌≤◌, ◌<◌, length, replicate};
ghost use Rattle.theory.specs.Search.{list};
ghost use Rattle.book.specs.BookGraph.{showing};
ghost use Rattle.compare_laws.specs.Places.{start_at, zeros};
ghost use Rattle.compare_map.specs.Relation.{Mapped, rows_of, column_of, columns_of};

use book::Hidden;

// The relation that a map of n left and m right cells tells: row i has the right cells j whose place i × m + j holds 0. The rows from n on
// are empty.
pub fn rows_of(map: &[u16], n: usize, m: usize) -> [u64; 64]
    requires { Mapped map.now n m }
    ensures { result ≡ rows_of map.now n m }
{
    let mut rows = [0u64; 64];
    for i in 0..n {
        rows[i] = answers::row_word(map, m, i);
    }
    rows
}

// The left cells, of n, that right cell j is related to.
#[tactic(auto, unfolding(crate::specs::Relation::column_of))]
fn column_of(rows: &[u64; 64], n: usize, j: u8) -> u64
    requires { (n ≤ 64) × (j < 64) }
    ensures { result ≡ column_of rows.now n j }
{
    words::those(n, |i| words::has(rows[i], j))
}

// The relation from the right: row j has the left cells, of n, whose row has j, for each of m right cells. The rows from m on are empty.
pub fn columns_of(rows: &[u64; 64], n: usize, m: usize) -> [u64; 64]
    requires { (n ≤ 64) × (m ≤ 64) }
    ensures { result ≡ columns_of rows.now n m }
{
    let mut columns = [0u64; 64];
    for j in 0..m {
        columns[j] = column_of(rows, n, j as u8);
    }
    columns
}

// How many places of the map hold 0.
pub fn zeros(map: &[u16]) -> usize
    ensures { result ≡ zeros map.now }
{
    map.iter().filter(|place| **place == 0).count()
}

// What place k of a map, m places a row, holds before the first round: 0, or 65,535 where a cell of its pair is hidden.
fn start_at(k: usize, m: usize, hidden: Hidden) -> u16
    requires { (1 ≤ m) × (m ≤ 64) × (k < 64 * m) }
    ensures { result ≡ start_at m (showing hidden.left) (showing hidden.right) k }
{
    let i = (k / m) as u8;
    if words::has(hidden.left, i) {
        return sheet::HIDDEN_PLACE;
    }
    let j = (k % m) as u8;
    if words::has(hidden.right, j) {
        return sheet::HIDDEN_PLACE;
    }
    0
}

// Makes the map what it is before the first round, for n left and m right cells.
pub fn start_map(map: &mut [u16], m: usize, hidden: Hidden)
    requires { (1 ≤ m) × (m ≤ 64) × (length map.old ≤ 64 * m) }
    ensures { map.new ≡ list (length map.old) (start_at m (showing hidden.left) (showing hidden.right)) }
{
    for (k, place) in map.iter_mut().enumerate() {
        *place = start_at(k, m, hidden);
    }
}

// Sets every byte to 0.
pub fn clear_bytes(bytes: &mut [u8])
    ensures { bytes.new ≡ replicate (length bytes.old) 0 }
{
    bytes.fill(0);
}
