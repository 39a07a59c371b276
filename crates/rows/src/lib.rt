// Fixed rows in age order, for the caches: where a row stands in a ring of places, and comparing ids by their bytes.
#![tactic(auto)]

ghost use Rattle.std.specs.Prelude.{◌≡◌, ◌+◌, ◌*◌, ◌&&◌, take, drop, get_or};
ghost use Rattle.rows.specs.Rows.{place_of};
ghost use Rattle.rows.specs.Ids.{same_bytes, precedes_bytes, index_of, among, distinct};
ghost use Rattle.rows.specs.Buckets.{bucket_of};
ghost use Rattle.rows.specs.Store.{in_use, id_at, ids_in, all_up_to};

// A lent store has `cap` places of one size; `count` of them are in use, from `start` on and from the last place to the first, the oldest first.
#[derive(Clone, Copy)]
pub struct Ring {
    pub cap: usize,
    pub start: usize,
    pub count: usize,
}

// Ids in a lent store: places of `size` bytes each, the id in place p being the first `lens[p]` bytes of that place.
#[derive(Clone, Copy)]
pub struct Store<'l, 's> {
    pub lens: &'l [u8],
    pub ids: &'s [u8],
    pub size: usize,
}

// How many buckets of ids there are.
const BUCKETS: usize = 4096;

// The place of the i-th row from the oldest.
#[tactic(auto, using(std::proofs::lemmas::Bool::Decides::nat_tests), unfolding(crate::specs::Rows::place_of))]
pub fn place(ring: Ring, i: usize) -> usize
    ensures { result ≡ place_of ring i }
{
    let behind = ring.cap.saturating_sub(ring.start);
    if i < behind {
        return ring.start + i;
    }
    i - behind
}

// What stands at a place of an array; `past` past its end.
pub fn at_or<T: Copy>(l: &[T], i: usize, past: T) -> T
    ensures { result ≡ get_or l.now i past }
{
    l.get(i).copied().unwrap_or(past)
}

// The first n bytes of a place, cut at the end of the store.
#[tactic(auto, using(crate::specs::StoreLaws::placed))]
fn cut<'s>(ids: &'s [u8], size: usize, p: usize, n: usize) -> &'s [u8]
    ensures { result.now ≡ take n (drop (p * size) ids.now) }
{
    let begin = p.saturating_mul(size).min(ids.len());
    let end = begin + n.min(ids.len() - begin);
    &ids[begin..end]
}

// Whether two parts hold the same bytes. Ids of one publisher differ at their ends, so the last bytes are compared first.
#[tactic(auto, using(std::proofs::lemmas::Bool::Decides::nat_tests), unfolding(crate::specs::Ids::same_bytes))]
pub fn same(a: &[u8], b: &[u8]) -> bool
    ensures { result ≡ same_bytes a.now b.now }
{
    if a.len() != b.len() {
        return false;
    }
    for i in (0..a.len()).rev() {
        if a[i] != b[i] {
            return false;
        }
    }
    true
}

// Whether a comes before b in byte order, a prefix first. The library's `a < b` says the same, and takes many times as long.
#[tactic(auto, using(std::proofs::lemmas::Bool::Decides::nat_tests), unfolding(crate::specs::Ids::precedes_bytes))]
pub fn precedes(a: &[u8], b: &[u8]) -> bool
    ensures { result ≡ precedes_bytes a.now b.now }
{
    for i in 0..a.len().min(b.len()) {
        if a[i] != b[i] {
            return a[i] < b[i];
        }
    }
    a.len() < b.len()
}

// Whether the lengths in use are at most `most`.
#[tactic(auto, using(crate::specs::RowsLaws::walked), unfolding(crate::specs::Store::all_up_to, crate::specs::Store::in_use))]
pub fn all_within(lens: &[u8], ring: Ring, most: u8) -> bool
    ensures { result ≡ all_up_to most (in_use ring lens.now) }
{
    for i in 0..ring.count {
        let p = place(ring, i);
        if most < at_or(lens, p, 0) {
            return false;
        }
    }
    true
}

// The bucket of an id, from all of its bytes.
#[tactic(auto, unfolding(crate::specs::Buckets::bucket_of))]
fn bucket(id: &[u8]) -> usize
    ensures { result ≡ bucket_of id.now }
{
    let mut x: usize = 0;
    for i in (0..id.len()).rev() {
        x = (x * 33 + id[i] as usize) % BUCKETS;
    }
    x
}

impl<'l, 's> Store<'l, 's> {
    // The id in a place: empty past the end of the lengths, and cut at the end of the store. A product of numbers below 2^32 fits, so that only a large
    // one is divided for.
    #[tactic(auto, using(crate::specs::StoreLaws::placed), unfolding(crate::specs::Store::id_at))]
    pub fn id_at(self, p: usize) -> &'s [u8]
        ensures { result.now ≡ id_at self.entry.size self.entry.lens.now self.entry.ids.now p }
    {
        let Store { lens, ids, size } = self;
        if lens.len() <= p {
            return &ids[..0];
        }
        let n = lens[p] as usize;
        if p < 4294967296 && size < 4294967296 {
            let begin = p * size;
            let end = begin + n;
            if end <= ids.len() {
                return &ids[begin..end];
            }
        }
        cut(ids, size, p, n)
    }

    // Which row from the `from`-th on holds an id first, counted from the oldest; where none does, `count`, or `from` if that is more.
    // Inlined, so that it is made for the size and the arrays of each caller.
    #[tactic(auto, using(crate::specs::RowsLaws::walked), unfolding(crate::specs::Store::ids_in, crate::specs::Ids::index_of))]
    #[inline(always)]
    pub fn find_from(self, ring: Ring, from: usize, id: &[u8]) -> usize
        ensures { result ≡ from + index_of id.now (drop from (ids_in self.entry.size ring self.entry.lens.now self.entry.ids.now)) }
    {
        for i in from..ring.count {
            let p = place(ring, i);
            if same(self.id_at(p), id) {
                return i;
            }
        }
        from.max(ring.count)
    }

    // Whether an id's bucket has been met and the id stands in a row from the `from`-th on.
    #[tactic(auto, using(crate::specs::StoreLaws::find_among), unfolding(crate::specs::Store::ids_in))]
    fn again(self, ring: Ring, from: usize, id: &[u8], met: bool) -> bool
        ensures { result ≡ (met && among id.now (drop from (ids_in self.entry.size ring self.entry.lens.now self.entry.ids.now))) }
    {
        met && self.find_from(ring, from, id) < ring.count
    }

    // Whether no id stands in two rows. From the newest to the oldest: equal ids have one bucket, so an id is looked for in the later rows only where
    // its bucket has been met.
    pub fn differ(self, ring: Ring) -> bool
        ensures { result ≡ distinct (ids_in self.entry.size ring self.entry.lens.now self.entry.ids.now) }
    {
        let mut met = [false; BUCKETS];
        for i in (0..ring.count).rev() {
            let p = place(ring, i);
            let id = self.id_at(p);
            let b = bucket(id);
            if self.again(ring, i + 1, id, met[b]) {
                return false;
            }
            met[b] = true;
        }
        true
    }
}
