// Reads vectors, which are calls with the answers that they must have, in a text of words, and replays
// them. What stands at a word of the text, and what a list in it is, is `specs/Words.antt`.
#![tactic(auto)]

ghost use Rattle.std.specs.Prelude.{◌≡◌, true, ◌↔◌, ℕ, ◌+◌, ◌*◌, ◌≤◌, ◌<◌, List, length};
ghost use Rattle.vectors.specs.Words.{digit_of, count_of, word_at, joined as Words·joined, float_at, byte_at, elements, listed_is, Reads, IsAt, lent_at, left_at, clears_of, EndsSo};
ghost use Rattle.vectors.specs.Replay.{onward};
ghost use Rattle.std.proofs.Common.{rules};

// A list that was read: its length, and the word after it.
#[derive(Clone, Copy, Debug, PartialEq, Eq)]
pub struct Listed {
    pub len: usize,
    pub next: usize,
}

// What the lists of a text hold.
pub trait Element: Copy {
    // How many words an element is.
    const WIDTH: usize;

    ghost WIDTH: { ℕ };

    ghost stands_at: { List ℕ → ℕ → Self };

    // The element at word k.
    fn at(text: &[u8], k: usize) -> Self
        ensures { result ≡ stands_at text.now k };

    // Whether two elements are the same, bit for bit.
    fn same(self, other: Self) -> bool
        ensures { (result ≡ true) ↔ (self ≡ other) };

    ghost narrow: { WIDTH ≤ 2 };
}

impl Element for u32 {
    const WIDTH: usize = 1;

    ghost WIDTH = { 1 };

    ghost stands_at = { word_at };

    ghost narrow = { Prim.search rules };

    fn at(text: &[u8], k: usize) -> u32 {
        word(text, k)
    }

    fn same(self, other: u32) -> bool {
        self == other
    }
}

impl Element for u8 {
    const WIDTH: usize = 1;

    ghost WIDTH = { 1 };

    ghost stands_at = { byte_at };

    ghost narrow = { Prim.search rules };

    fn at(text: &[u8], k: usize) -> u8 {
        (word(text, k) % 256) as u8
    }

    fn same(self, other: u8) -> bool {
        self == other
    }
}

impl Element for f64 {
    const WIDTH: usize = 2;

    ghost WIDTH = { 2 };

    ghost stands_at = { float_at };

    ghost narrow = { Prim.search rules };

    fn at(text: &[u8], k: usize) -> f64 {
        if k >= count(text) {
            return 0.0;
        }
        joined(word(text, k), word(text, k + 1))
    }

    // 0 and -0 are not, and NaN and NaN are.
    fn same(self, other: f64) -> bool {
        if self.is_nan() {
            return other.is_nan();
        }
        if other.is_nan() {
            return false;
        }
        self.to_bits() == other.to_bits()
    }
}

// How many words the text has.
pub fn count(text: &[u8]) -> usize
    ensures { result ≡ count_of text.now }
{
    text.len() / 9
}

// Any byte that is no digit counts as 0, a capital letter, too, which `to_digit` would read.
fn digit(b: u8) -> u32
    ensures { (result ≡ digit_of b) × (result < 16) }
{
    match b {
        b'0'..=b'9' => u32::from(b - b'0'),
        b'a'..=b'f' => u32::from(b - b'a' + 10),
        _ => 0,
    }
}

// Word k, and 0 past the last (not None: a vector that is cut off is refused by its length, once).
pub fn word(text: &[u8], k: usize) -> u32
    ensures { result ≡ word_at text.now k }
{
    if k >= count(text) {
        return 0;
    }
    let at = k * 9;
    let mut value: u32 = 0;
    for i in 0..8 {
        value = value * 16 + digit(text[at + i]);
    }
    value
}

// The number whose bits two words are. (A NaN is a constant: `from_bits` takes none. `scores` has the same over its
// work words: this crate knows no other.)
fn joined(high: u32, low: u32) -> f64
    ensures { result ≡ Words·joined high low }
{
    let bits = u64::from(high) * 4294967296 + u64::from(low);
    if bits % 0x8000_0000_0000_0000 > 0x7ff0_0000_0000_0000 {
        return f64::NAN;
    }
    f64::from_bits(bits)
}

// Finds the list at word k, to be read into `room` places.
fn find<T: Element>(text: &[u8], k: usize, room: usize) -> Option<Listed>
    ensures { listed_is T.WIDTH text.now k room result }
{
    if k >= count(text) {
        return None;
    }
    let len = word(text, k) as usize;
    if len > room {
        return None;
    }
    let next = k + 1 + len * T::WIDTH;
    if next > count(text) {
        return None;
    }
    Some(Listed { len, next })
}

fn fill<T: Element>(text: &[u8], from: usize, list: &mut [T])
    requires { from + length list.old * T.WIDTH ≤ count_of text.now }
    ensures { list.new ≡ elements (T.stands_at text.now) T.WIDTH from (length list.old) }
{
    for (i, x) in list.iter_mut().enumerate() {
        *x = T::at(text, from + i * T::WIDTH);
    }
}

// Reads the list at word k to the start of `list`.
pub fn read<T: Element>(text: &[u8], k: usize, list: &mut [T]) -> Option<Listed>
    ensures { Reads (T.stands_at text.now) T.WIDTH text.now k list.old list.new result }
{
    let listed = find::<T>(text, k, list.len())?;
    fill(text, k + 1, &mut list[..listed.len]);
    Some(listed)
}

// Whether a list is the one at word k.
pub fn is_at<T: Element>(text: &[u8], k: usize, list: &[T]) -> bool
    ensures { (result ≡ true) ↔ IsAt (T.stands_at text.now) T.WIDTH text.now k list.now }
{
    if k >= count(text) {
        return false;
    }
    if word(text, k) as usize != list.len() {
        return false;
    }
    for (i, x) in list.iter().enumerate() {
        if !x.same(T::at(text, k + 1 + i * T::WIDTH)) {
            return false;
        }
    }
    true
}

fn lent(i: usize) -> u32
    ensures { result ≡ lent_at i }
{
    ((i % 4294967296) as u32) ^ 0x5a5a_5a5a
}

// Fills words that are to be lent, as the original's were.
pub fn lend(list: &mut [u32])
    ensures { list.new ≡ elements lent_at 1 0 (length list.old) }
{
    for (i, x) in list.iter_mut().enumerate() {
        *x = lent(i);
    }
}

fn left(n: usize, i: usize) -> u32
    ensures { result ≡ left_at n i }
{
    if i < n { 0 } else { lent(i) }
}

// Whether of words that were lent the first n are 0 and the others as they were.
fn cleared(list: &[u32], n: usize) -> bool
    ensures { (result ≡ true) ↔ (list.now ≡ elements (left_at n) 1 0 (length list.now)) }
{
    for (i, x) in list.iter().enumerate() {
        if *x != left(n, i) {
            return false;
        }
    }
    true
}

// How many work words a call clears that is answered by the number and needs so many: none where
// it is refused before the work words are known to be enough.
fn clears(number: u32, needed: usize) -> usize
    ensures { result ≡ clears_of number needed }
{
    match number {
        1..=3 => 0,
        _ => needed,
    }
}

// Whether a call on these points and corners ends with the number and the place that stand from word k on,
// and leaves the work words as it must.
pub fn ends_so(
    text: &[u8],
    k: usize,
    number: u32,
    place: &[u32; 2],
    points: &[f64],
    corners: &[u32],
    work: &[u32],
) -> bool
    requires { (k + 3 ≤ count_of text.now) × (length points.now ≤ 96) × (length corners.now ≤ 96) }
    ensures { (result ≡ true) ↔ EndsSo text.now k number place.now points.now corners.now work.now }
{
    // (The count is written out: this crate knows no other.)
    let needed = corners.len() / 3 * 32 + points.len() / 3 * 16;
    number == word(text, k)
        && *place == [word(text, k + 1), word(text, k + 2)]
        && cleared(work, clears(number, needed))
}

// A vector that was replayed: the word after it, and whether its call ends as it must.
#[derive(Clone, Copy, Debug, PartialEq, Eq)]
pub struct Replayed {
    pub next: usize,
    pub agreed: bool,
}

// How many vectors were replayed, and how many of their calls end as they must.
#[derive(Clone, Copy, Debug, PartialEq, Eq)]
pub struct Tally {
    pub vectors: u64,
    pub same: u64,
}

// What is replayed on the surface with which each vector begins. Its lists are no struct, since a call lends
// them one by one.
pub trait Program {
    // Replays the vector whose words behind the surface begin at word k. The work words are lent.
    fn run(
        text: &[u8],
        k: usize,
        points: &mut [f64],
        corners: &mut [u32],
        labels: &mut [u8],
        work: &mut [u32],
    ) -> Option<Replayed>
        requires inside { k ≤ count_of text.now + 1 }
        requires few { (length points.old ≤ 96) × (length corners.old ≤ 96) × (length labels.old ≤ 32) }
        ensures { onward text.now k result };
}

// Replays the vector at word k.
fn vector<P: Program>(text: &[u8], k: usize) -> Option<Replayed>
    ensures { onward text.now k result }
{
    let mut points = [0.0f64; 96];
    let mut corners = [0u32; 96];
    let mut labels = [0u8; 32];
    let mut work = [0u32; 2048];
    let p = read(text, k, &mut points)?;
    let c = read(text, p.next, &mut corners)?;
    let l = read(text, c.next, &mut labels)?;
    let w = word(text, l.next) as usize;
    if w > 2048 {
        return None;
    }
    lend(&mut work[..w]);
    P::run(
        text,
        l.next + 1,
        &mut points[..p.len],
        &mut corners[..c.len],
        &mut labels[..l.len],
        &mut work[..w],
    )
}

// Replays the vectors of the text, one after the other, up to one that is not whole or too long.
pub fn replay<P: Program>(text: &[u8]) -> Tally
    ensures { result.same ≤ result.vectors }
{
    let mut tally = Tally {
        vectors: 0,
        same: 0,
    };
    let mut k: usize = 0;
    // Each vector says where the next one begins.
    while k < count(text) {
        let Some(replayed) = vector::<P>(text, k) else {
            return tally;
        };
        tally.vectors += 1;
        tally.same += u64::from(replayed.agreed);
        k = replayed.next;
    }
    tally
}
