// Which cells a round has to look at again: a pair stays as long as no pair near it is parted, so a round searches only the pairs both of whose cells
// are near one that lost a pair in the round before.
#![tactic(auto)]

ghost use Rattle.std.specs.Prelude.{◌≡◌, ◌≤◌};
ghost use Rattle.search_links.specs.Hops.{Opened};
ghost use Rattle.compare_near.specs.Near.{changed, behind, near_to, reach_of_lem};

// The cells, of n, whose row is not what it was.
#[tactic(auto, unfolding(crate::specs::Near::changed))]
fn changed(before: &[u64; 64], after: &[u64; 64], n: usize) -> u64
    requires { n ≤ 64 }
    ensures { result ≡ changed before.now after.now n }
{
    words::those(n, |i| before[i] != after[i])
}

// The cells, of n, that a link leads from to a cell of w.
#[tactic(auto, unfolding(crate::specs::Near::behind))]
fn behind(starts: &[u16; 65], to: &[u8; 512], n: usize, w: u64) -> u64
    requires { Opened starts.now to.now × (n ≤ 64) }
    ensures { result ≡ behind starts.now to.now n w }
{
    words::those(n, |x| search_links::leads(starts, to, x as u8, w))
}

// The cells of w, and those, of n, that at most d links lead from to a cell of w.
fn near_to(starts: &[u16; 65], to: &[u8; 512], n: usize, w: u64, d: u8) -> u64
    requires { Opened starts.now to.now × (n ≤ 64) }
    ensures { result ≡ near_to starts.now to.now n w d }
{
    let mut out = w;
    for _k in 0..d {
        let more = behind(starts, to, n, out);
        out = words::union(out, more);
    }
    out
}

// The cells, of n, near those whose row is not what it was: so near that a clause of theirs for the bound may depend on it.
pub fn near_changes(
    starts: &[u16; 65],
    to: &[u8; 512],
    n: usize,
    before: &[u64; 64],
    after: &[u64; 64],
    bound: u8,
) -> u64
    requires { Opened starts.now to.now × (n ≤ 64) }
    ensures { result ≡ near_to starts.now to.now n (changed before.now after.now n) (reach_of_lem bound) }
{
    let w = changed(before, after, n);
    if bound == 0 {
        return near_to(starts, to, n, w, 1);
    }
    near_to(starts, to, n, w, bound)
}
