// Sets of up to 64 cells, as words: cell i is in the set where bit i is set.
#![tactic(auto)]

ghost use Rattle.std.specs.Prelude.{◌≡◌, ℕ, Bool, true, ◌↔◌, ◌-◌, ◌^◌, ◌≤◌, ◌<◌};
ghost use Rattle.std.specs.Int.Bits.{bit_and, bit_or};
ghost use Rattle.words.specs.Words.{bit, word_of, IsCount, IsLowest, IsWithout, Inside, IsMinus};

// Whether cell i is in w.
pub fn has(w: u64, i: u8) -> bool
    requires { i < 64 }
    ensures { result ≡ bit w i }
{
    (w >> i) & 1 == 1
}

// The set of the one cell i.
pub fn only(i: u8) -> u64
    requires { i < 64 }
    ensures { result ≡ 2 ^ i }
{
    1 << i
}

// The cells of w, and cell i.
pub fn with(w: u64, i: u8) -> u64
    requires { i < 64 }
    ensures { result ≡ bit_or w (2 ^ i) }
{
    w | only(i)
}

// The cells that are in a or in b.
pub fn union(a: u64, b: u64) -> u64
    ensures { result ≡ bit_or a b }
{
    a | b
}

// The cells that are in both a and b.
pub fn meet(a: u64, b: u64) -> u64
    ensures { result ≡ bit_and a b }
{
    a & b
}

// The cells of a that are not in b.
pub fn minus(a: u64, b: u64) -> u64
    ensures { IsMinus a b result }
{
    a ^ (a & b)
}

// Whether every cell of a is in b.
pub fn inside(a: u64, b: u64) -> bool
    ensures { (result ≡ true) ↔ Inside a b }
{
    (a & b) == a
}

// The n lowest cells.
pub fn full(n: u8) -> u64
    requires { n ≤ 64 }
    ensures { result ≡ 2 ^ n - 1 }
{
    if n == 64 {
        return 0xffff_ffff_ffff_ffff;
    }
    (1 << n) - 1
}

// How many cells w has.
pub fn count(w: u64) -> u32
    ensures { IsCount w result }
{
    u64::count_ones(w)
}

// The lowest cell of a set that is not empty.
pub fn lowest(w: u64) -> u8
    requires { 0 < w }
    ensures { IsLowest w result }
{
    u64::trailing_zeros(w) as u8
}

// The cells of w but its lowest, cell i.
pub fn without(w: u64, i: u8) -> u64
    requires { IsLowest w i }
    ensures { IsWithout w i result }
{
    w & (w - 1)
}

// The set of those of the n lowest cells of which a test holds.
pub fn those<F: Fn(usize) -> bool>(n: usize, test: F) -> u64
    requires few { n ≤ 64 }
    requires callable { (x : ℕ) → x < n → F.pre test x }
    ensures { (p : ℕ → Bool) → ((x : ℕ) (r : Bool) → x < n → F.post test x r → r ≡ p x) → result ≡ word_of n p }
{
    let mut out = 0u64;
    for x in 0..n {
        if test(x) {
            out = with(out, x as u8);
        }
    }
    out
}
