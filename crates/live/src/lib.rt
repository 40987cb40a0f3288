// The live list of the decoder: a struct by value, whose methods hand the new list back.
// An entry is one number, cost * 2^32 + place * 32 + parent, so that entries are in order where the numbers are. The parent is below
// 32 and the place below 2^27. Places are in the lexicographic order of the prefixes: a child's is twice its parent's, plus the bit.
// Where a place has reached 2^26, one more bit would not fit, and the parents' places are counted anew, by rank.
#![tactic(auto)]

ghost use Rattle.std.specs.Prelude.{◌≡◌, [], ◌∷◌, ◌+◌, ◌-◌, ◌*◌, ◌%◌, ◌≤◌, ◌<◌, min, length, take, get_or, replicate, leb};
ghost use Rattle.spec.specs.Decoder.{insert_by, sort_by};
ghost use Rattle.live.specs.Entries.{code_of, cost_of, place_of, bit_of, parent_of, below, crowded, lex_of, branches, children_of};
ghost use Rattle.live.specs.Rising.{Rising};
ghost use Rattle.live.specs.Lists.{entries, insert_all, Holds, Filled};
ghost use Rattle.live.specs.Lost.{Dropped, Cut, Split};
ghost use Rattle.live.specs.Stands.{Rep, Position};

// The paths that are live, best first: the first `count` of `code`. The least cost that was ever dropped is `lost`, 2^32 - 1 where
// nothing was. It is an array with a count and no Vec, since the decoder has no heap.
#[derive(Drop)]
pub struct Live {
    pub count: usize,
    pub lost: u32,
    pub code: [u64; 33],
}

// What an entry has: the cost of its prefix, its last bit, and the rank of its parent in the list before.
pub fn entry_cost(code: u64) -> u32
    ensures { result ≡ cost_of code }
{
    (code / 4294967296) as u32
}

pub fn entry_bit(code: u64) -> u8
    ensures { result ≡ bit_of code }
{
    (code / 32 % 2) as u8
}

pub fn entry_parent(code: u64) -> usize
    ensures { result ≡ parent_of code }
{
    (code % 32) as usize
}

fn entry_place(code: u64) -> u64
    ensures { result ≡ place_of code }
{
    code / 32 % 134217728
}

// An entry as one number.
fn entry(cost: u32, place: u64, parent: usize) -> u64
    requires { (place < 134217728) × (parent < 32) }
    ensures { result ≡ code_of cost place parent }
{
    (cost as u64) * 4294967296 + place * 32 + (parent as u64)
}

// The place of a child by a bit, from its parent's lexicographic number.
fn child_place(x: u64, b: u8) -> u64
    requires { x < 67108864 }
    ensures { (result ≡ 2 * x + b % 2) × (result < 134217728) }
{
    2 * x + (b % 2) as u64
}

pub fn lesser(a: u32, b: u32) -> u32
    ensures { result ≡ min a b }
{
    a.min(b)
}

// Whether an entry has a place without room for one more bit.
fn is_crowded(entries: &[u64]) -> bool
    ensures { result ≡ crowded entries.now }
{
    entries.iter().any(|x| 67108864 <= entry_place(*x))
}

// How many entries have a place below t.
fn places_below(entries: &[u64], t: u64) -> u64
    ensures { result ≡ below t entries.now }
{
    entries.iter().filter(|x| entry_place(**x) < t).count() as u64
}

// The lexicographic number of the entry at rank i, counted anew where the entries are crowded.
fn lex(entries: &[u64], anew: bool, i: usize) -> u64
    requires { (i < length entries.now) × (length entries.now ≤ 32) × (anew ≡ crowded entries.now) }
    ensures { (result < 67108864) × (result ≡ lex_of entries.now (get_or entries.now i 0)) }
{
    let place = entry_place(entries[i]);
    if anew {
        return places_below(entries, place);
    }
    place
}

// Puts v among the first n of a, which are in order, from the end down to the place of v. `partition_point` and `rotate_right` were
// tried, and take twice as long.
fn insert(a: &mut [u64; 33], n: usize, v: u64)
    requires { (n < 33) × (length a.old ≡ 33) × Rising (take n a.old) }
    ensures { (length a.new ≡ 33) × (take (n + 1) a.new ≡ insert_by leb v (take n a.old)) }
{
    for k in (0..n).rev() {
        let x = a[k];
        if x < v {
            a[k + 1] = v;
            return;
        }
        a[k + 1] = x;
    }
    a[0] = v;
}

// Puts v among the first n of a, of which l at most are kept, and says how many there are then. One that is worse than the last of
// l is left out; for a better one the last goes.
fn put(a: &mut [u64; 33], n: usize, l: usize, v: u64) -> usize
    requires { (n ≤ l) × (0 < l) × (l ≤ 33) × (length a.old ≡ 33) × Rising (take n a.old) }
    ensures { Filled a.new result l (take l (insert_by leb v (take n a.old))) }
{
    if n == l {
        let k = n - 1;
        if a[k] < v {
            return n;
        }
        insert(a, k, v);
        return n;
    }
    insert(a, n, v);
    n + 1
}

// Puts the first child in and, at a clear position, the one by the bit 1.
fn put_branches(a: &mut [u64; 33], n: usize, l: usize, frozen: u8, first: u64, one: u64) -> usize
    requires { (n ≤ l) × (0 < l) × (l ≤ 33) × (length a.old ≡ 33) × Rising (take n a.old) }
    ensures { Filled a.new result l (take l (insert_all (branches frozen first one) (take n a.old))) }
{
    let m = put(a, n, l, first);
    if frozen == 0 {
        return put(a, m, l, one);
    }
    m
}

// The children of each entry, two or, at a frozen position, one: the best l, in order, become the first of `out`, and the result says
// how many. A first child goes on by a bit of `bits` at a cost of `firsts`, a second by 1 at a cost of `ones`. What is left out of them
// is not counted. It works on arrays, since a list by value that is handed to a loop and back is copied both times.
fn put_children(
    out: &mut [u64; 33],
    entries: &[u64],
    frozen: u8,
    bits: &[u8; 32],
    firsts: &[u32; 32],
    ones: &[u32; 32],
    l: usize,
) -> usize
    requires { (length entries.now ≤ 32) × (0 < l) × (l ≤ 33) × (length out.old ≡ 33) }
    ensures { Filled out.new result l
        (take l (sort_by leb (children_of frozen entries.now bits.now firsts.now ones.now (length entries.now)))) }
{
    let anew = is_crowded(entries);
    let mut m = 0;
    for i in 0..entries.len() {
        let x = lex(entries, anew, i);
        let place = child_place(x, bits[i]);
        let first = entry(firsts[i], place, i);
        let one = entry(ones[i], 2 * x + 1, i);
        m = put_branches(out, m, l, frozen, first, one);
    }
    m
}

impl Live {
    // The empty prefix alone.
    pub fn start() -> Self
        ensures { Holds result 1 (0 ∷ []) × Rep 0 ([] ∷ []) (entries result) × (result.lost ≡ 4294967295) }
    {
        Self {
            count: 1,
            lost: 4294967295,
            code: [0; 33],
        }
    }

    // The list without its last entry, whose cost is lost.
    pub fn drop(self) -> Self
        requires { (0 < self.count) × (self.count ≤ 33) }
        ensures { Dropped self result }
    {
        let last = self.count - 1;
        let code = self.code;
        let lost = lesser(entry_cost(code[last]), self.lost);
        Self {
            count: last,
            lost,
            code,
        }
    }

    // The best l of a list of l + 1 at most: the last is dropped where there is one too many.
    pub fn cut(self, l: usize) -> Self
        requires { (self.count ≤ l + 1) × (l ≤ 32) }
        ensures { Cut l self result }
    {
        if l < self.count {
            return self.drop();
        }
        self
    }

    // The best l children of the entries, in order, by the bits and costs of `put_children`. What is lost is not counted anew.
    // Inline, since at a call a list that is handed back is copied.
    #[inline(always)]
    fn children(
        &self,
        frozen: u8,
        bits: &[u8; 32],
        firsts: &[u32; 32],
        ones: &[u32; 32],
        l: usize,
    ) -> Self
        requires { (self.now.count ≤ 32) × (0 < l) × (l ≤ 33) }
        ensures { Holds result l (take l (sort_by leb (children_of frozen (entries self.now) bits.now firsts.now ones.now self.now.count)))
            × (result.lost ≡ self.now.lost) }
    {
        let mut out = [0u64; 33];
        let entries = &self.code[..self.count];
        let count = put_children(&mut out, entries, frozen, bits, firsts, ones, l);
        Self {
            count,
            lost: self.lost,
            code: out,
        }
    }

    // The two children of each entry, in order, as many as l + 1 of the best.
    pub fn split(self, zeros: &[u32; 32], ones: &[u32; 32], l: usize) -> Self
        requires { (self.count ≤ 32) × (l ≤ 32) }
        ensures { Split (l + 1) zeros.now ones.now self result }
    {
        let bits = [0u8; 32];
        self.children(0, &bits, zeros, ones, l + 1)
    }

    // A clear position: each path splits in two, and the best l of the children stay. The best of the others is the one that is cut off.
    pub fn clear(self, zeros: &[u32; 32], ones: &[u32; 32], l: usize) -> Self
        requires { (self.count ≤ 32) × (l ≤ 32) }
        ensures { Position 0 l (replicate 32 0) zeros.now ones.now self result }
    {
        self.split(zeros, ones, l).cut(l)
    }

    // A frozen position: each path goes on by its own bit, at the cost of that, and none is lost.
    pub fn freeze(self, bits: &[u8; 32], costs: &[u32; 32], l: usize) -> Self
        requires { (self.count ≤ l) × (0 < l) × (l ≤ 32) }
        ensures { Position 1 l bits.now costs.now costs.now self result }
    {
        self.children(1, bits, costs, costs, l)
    }
}
