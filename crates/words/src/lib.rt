// Words and corners read and written one at a time: each asks only that its index is there.
#![tactic(auto)]

ghost use Rattle.std.specs.Prelude.{◌≡◌, ◌%◌, ◌<◌, ◌≤◌, length, set};
ghost use Rattle.halfedges.specs.Place.{at, nx, pv};

use halfedges::{after, before, wide};

// The word at i, as an index.
pub fn word(work: &[u32], i: usize) -> usize
    requires { i < length work.now }
    ensures { result ≡ at work.now i }
{
    wide(work[i])
}

// x becomes the word at i.
pub fn put(work: &mut [u32], i: usize, x: usize)
    requires { (i < length work.old) × (x < 4294967296) }
    ensures { work.new ≡ set work.old i x }
{
    work[i] = x as u32;
}

// The corner that follows the one at the place k in its triangle, and the one before it.
pub fn ahead(corners: &[u32], k: usize) -> usize
    requires { (length corners.now % 3 ≡ 0) × (length corners.now ≤ 98304) × (k < length corners.now) }
    ensures { result ≡ at corners.now (nx k) }
{
    wide(corners[after(k)])
}

pub fn behind(corners: &[u32], k: usize) -> usize
    requires { (length corners.now % 3 ≡ 0) × (length corners.now ≤ 98304) × (k < length corners.now) }
    ensures { result ≡ at corners.now (pv k) }
{
    wide(corners[before(k)])
}
