// Recently seen message ids, from seen.rs: ids in a lent store, a row of 129 bytes each; their lengths and expiries by value. The rows are a ring,
// so that an id that leaves moves no other, and a freed row is used again.
#![tactic(auto)]

pub mod told;

ghost use Rattle.std.specs.Prelude.{◌≡◌, ◌+◌, ◌*◌, ◌≤◌, ◌<◌, length};
ghost use Rattle.std.proofs.lemmas.List.Edits.{sets};
ghost use Rattle.rows.specs.Rows.{place_of};
ghost use Rattle.rows.specs.Store.{InStore, in_use};
ghost use Rattle.seen.specs.Entries.{until};
ghost use Rattle.seen.specs.State.{id_size, ring_of, spent, fresh, dropped, appended};
ghost use Rattle.seen.specs.Calls.{faulty, lent_of, held_in, cleaned, can_enter, insert_answer, contains_answer, next_answer};
ghost use Rattle.seen.specs.Unique.{Enters, Inserts, Cleans};

use basis::Fault;
use rows::{Ring, Store, all_within, at_or, place};

pub const ID_SIZE: usize = 129;

pub const MAX_IDS: usize = 256;

#[derive(Clone, Copy)]
pub struct SeenCache {
    pub start: usize,
    pub count: usize,
    pub expiry: [u64; MAX_IDS],
    pub len: [u8; MAX_IDS],
}

// Why a call on an id did nothing: what is wrong with the lent state; or the id has so many bytes, more than a row (refusal 33).
#[derive(Clone, Copy)]
pub enum SeenError {
    Fault(Fault),
    TooLong(usize),
}

impl From<Fault> for SeenError {
    ghost from_gives = { λ f e. e ≡ faulty f };

    fn from(fault: Fault) -> SeenError {
        SeenError::Fault(fault)
    }
}

// What an insert finds of its id.
#[derive(Clone, Copy)]
pub enum Entry {
    Fresh,
    Held,
}

#[derive(Clone, Copy)]
pub struct Inserted {
    pub answer: Result<Entry, SeenError>,
    pub cache: SeenCache,
}

// How many are left.
#[derive(Clone, Copy)]
pub struct Cleaned {
    pub answer: Result<usize, Fault>,
    pub cache: SeenCache,
}

// now + ttl, stopping at the largest.
#[tactic(auto, unfolding(crate::specs::Entries::until))]
pub fn expiry_of(at: u64, ttl: u64) -> u64
    ensures { result ≡ until at ttl }
{
    at.saturating_add(ttl)
}

// How many of the oldest have expired: those in front of the first that has not.
#[tactic(auto, using(rows::specs::RowsLaws::walked), unfolding(crate::specs::State::spent, rows::specs::Store::in_use))]
fn expired(expiry: &[u64], ring: Ring, at: u64) -> usize
    ensures { result ≡ spent at (in_use ring expiry.now) }
{
    for i in 0..ring.count {
        let p = place(ring, i);
        if at < at_or(expiry, p, 0) {
            return i;
        }
    }
    ring.count
}

// Whether a row can be put: the rows in use lie in the arrays and in a store of `room` bytes, at most `max` of them are to be, and an id of n bytes
// fits a row.
#[tactic(auto, using(std::proofs::lemmas::Bool::Decides::nat_tests), unfolding(crate::specs::Calls::can_enter))]
fn can_enter(ring: Ring, max: usize, room: usize, n: usize) -> bool
    ensures { result ≡ can_enter max ring room n }
{
    ring.start <= ring.cap
        && ring.count <= ring.cap
        && ring.cap <= MAX_IDS
        && ring.cap * ID_SIZE <= room
        && max <= ring.cap
        && n <= ID_SIZE
}

// Writes an id into the store from `at` on.
fn write_id(store: &mut [u8], at: usize, id: &[u8])
    requires { at + length id.now ≤ length store.old }
    ensures { store.new ≡ sets store.old at id.now }
{
    store[at..at + id.len()].copy_from_slice(id);
}

impl SeenCache {
    // A cache that holds nothing.
    #[tactic(auto, unfolding(crate::specs::State::fresh))]
    pub fn new() -> Self
        ensures { result ≡ fresh }
    {
        SeenCache {
            start: 0,
            count: 0,
            expiry: [0; MAX_IDS],
            len: [0; MAX_IDS],
        }
    }

    // Its rows, in a store of `cap` places.
    pub fn ring(self, cap: usize) -> Ring
        ensures { result ≡ ring_of cap self }
    {
        Ring {
            cap,
            start: self.start,
            count: self.count,
        }
    }

    // Whether a store and the cache can be used together: 41 for a store that is no whole rows or has more than 256, 42 for a cache that is not
    // well formed.
    #[tactic(auto, using(std::proofs::lemmas::Bool::Decides::nat_tests), unfolding(crate::specs::Calls::lent_of, crate::specs::Calls::whole_rows, crate::specs::Calls::cap_of, crate::specs::State::well_formed))]
    pub fn lent(self, store: &[u8]) -> Result<(), Fault>
        ensures { result ≡ lent_of self store.now }
    {
        let cap = store.len() / ID_SIZE;
        if store.len() % ID_SIZE != 0 || MAX_IDS < cap {
            return Err(Fault::BadStore);
        }
        if cap < self.start || cap < self.count {
            return Err(Fault::Malformed);
        }
        let ring = self.ring(cap);
        let ids = Store {
            lens: &self.len,
            ids: store,
            size: ID_SIZE,
        };
        if all_within(&self.len, ring, ID_SIZE as u8) && ids.differ(ring) {
            return Ok(());
        }
        Err(Fault::Malformed)
    }

    // Without the k oldest.
    #[tactic(auto, unfolding(crate::specs::State::dropped))]
    fn without(mut self, cap: usize, k: usize) -> Self
        requires { k ≤ self.count }
        ensures { result ≡ dropped cap k self }
    {
        let start = place(self.ring(cap), k);
        self.start = start;
        self.count = self.count - k;
        self
    }

    // With a row more, the newest.
    fn append(mut self, store: &mut [u8], cap: usize, id: &[u8], expires: u64) -> Self
        requires in_store { InStore (ring_of cap self) self.len }
        requires count_lt_cap { self.count < cap }
        requires id_size_in_bounds { cap * id_size ≤ length store.old }
        requires id_len_bound { length id.now ≤ id_size }
        ensures value { result ≡ appended cap (length id.now) expires self }
        ensures store_after { store.new ≡ sets store.old (place_of (ring_of cap self) self.count * id_size) id.now }
    {
        let count = self.count;
        let p = place(self.ring(cap), count);
        write_id(store, p * ID_SIZE, id);
        self.expiry[p] = expires;
        self.len[p] = id.len() as u8;
        self.count = count + 1;
        self
    }

    // Whether an id is held, in a state that need not be tested.
    pub fn holds(self, store: &[u8], cap: usize, id: &[u8]) -> bool
        ensures { result ≡ held_in cap self store.now id.now }
    {
        let ring = self.ring(cap);
        let ids = Store {
            lens: &self.len,
            ids: store,
            size: ID_SIZE,
        };
        ids.find_from(ring, 0, id) < ring.count
    }

    // Without what has expired, in a state that need not be tested.
    #[tactic(auto, using(crate::specs::StateLaws::spent_in), unfolding(crate::specs::Calls::cleaned))]
    pub fn clean(self, cap: usize, at: u64) -> Self
        ensures { result ≡ cleaned cap at self }
    {
        let ring = self.ring(cap);
        let expiry = self.expiry;
        let k = expired(&expiry, ring, at);
        self.without(cap, k)
    }

    // With an id that is not held: the oldest leave until at most `max` remain. A state that was tested can take it; where one cannot, nothing changes.
    pub fn enter(self, store: &mut [u8], cap: usize, id: &[u8], expires: u64, max: usize) -> Self
        ensures { Enters cap max expires self store.old id.now result store.new }
    {
        if can_enter(self.ring(cap), max, store.len(), id.len()) {
            let count = self.count;
            if max == 0 {
                return self.without(cap, count);
            }
            let k = (count + 1).saturating_sub(max);
            let rest = self.without(cap, k);
            return rest.append(store, cap, id, expires);
        }
        self
    }

    // What an insert answers.
    #[tactic(auto, using(std::proofs::lemmas::Bool::Decides::nat_tests), unfolding(crate::specs::Calls::insert_answer, crate::specs::Calls::contains_answer, crate::specs::Calls::cap_of))]
    fn entry(self, store: &[u8], id: &[u8], max_entries: usize) -> Result<Entry, SeenError>
        ensures { result ≡ insert_answer max_entries self store.now id.now }
    {
        if store.len() / ID_SIZE < max_entries {
            return Err(SeenError::Fault(Fault::BadSetting));
        }
        if self.contains(store, id)? {
            return Ok(Entry::Held);
        }
        Ok(Entry::Fresh)
    }

    // Records an id; the oldest leave until at most `max_entries` remain.
    pub fn insert(
        self,
        store: &mut [u8],
        id: &[u8],
        at: u64,
        ttl: u64,
        max_entries: usize,
    ) -> Inserted
        ensures { Inserts max_entries at ttl self store.old id.now result store.new }
    {
        let answer = self.entry(store, id, max_entries);
        if let Ok(Entry::Fresh) = answer {
            let cap = store.len() / ID_SIZE;
            let expires = expiry_of(at, ttl);
            let cache = self.enter(store, cap, id, expires, max_entries);
            return Inserted { answer, cache };
        }
        Inserted {
            answer,
            cache: self,
        }
    }

    // Whether an id is held.
    #[tactic(auto, using(std::proofs::lemmas::Bool::Decides::nat_tests), unfolding(crate::specs::Calls::contains_answer, crate::specs::Calls::cap_of))]
    pub fn contains(self, store: &[u8], id: &[u8]) -> Result<bool, SeenError>
        ensures { result ≡ contains_answer self store.now id.now }
    {
        self.lent(store)?;
        if ID_SIZE < id.len() {
            return Err(SeenError::TooLong(id.len()));
        }
        Ok(self.holds(store, store.len() / ID_SIZE, id))
    }

    // Drops from the front while the expiry is at most `at`.
    #[tactic(auto, unfolding(crate::specs::Calls::gc_answer, crate::specs::Calls::gc_cache, crate::specs::Calls::cap_of))]
    pub fn gc(self, store: &[u8], at: u64) -> Cleaned
        ensures { Cleans at self store.now result }
    {
        match self.lent(store) {
            Ok(()) => {
                let cache = self.clean(store.len() / ID_SIZE, at);
                Cleaned {
                    answer: Ok(cache.count),
                    cache,
                }
            }
            Err(fault) => Cleaned {
                answer: Err(fault),
                cache: self,
            },
        }
    }

    // The expiry of the oldest.
    #[tactic(auto, using(std::proofs::lemmas::Bool::Decides::nat_tests), unfolding(crate::specs::Calls::next_answer, crate::specs::Calls::cap_of))]
    pub fn next_expiry(self, store: &[u8]) -> Result<Option<u64>, Fault>
        ensures { result ≡ next_answer self store.now }
    {
        self.lent(store)?;
        if self.count == 0 {
            return Ok(None);
        }
        let p = place(self.ring(store.len() / ID_SIZE), 0);
        Ok(Some(self.expiry[p]))
    }
}
