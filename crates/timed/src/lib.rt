// Loops over calls of the two caches, for the benchmark in bench/: a program in C times whole loops. What a loop answers depends on every call, so that
// none can be left out. Only that they are safe and end is proved.
#![tactic(auto)]

use basis::{Edition, Fault};
use mcache::{GossipError, MessageCache, PutDone, PutError};
use seen::{Inserted, SeenCache, SeenError};

// How long an id is here, mark and all.
const ID: usize = 65;

// The place of the next part of a slice, in parts of this size: after the last comes the first.
fn next(at: usize, size: usize, len: usize) -> usize {
    let n = at.wrapping_add(size);
    if len <= n {
        return 0;
    }
    n
}

// Another byte in a place of the store that holds nothing, so that no call can be taken to be the last one again.
fn touch(store: &mut [u8], p: usize, turn: u64) {
    if p < store.len() {
        store[p] = (turn % 256) as u8;
    }
}

// ---- the seen cache

fn insert_at(cache: SeenCache, store: &mut [u8], ids: &[u8], at: usize, max: usize) -> Inserted {
    if ids.len() < ID || ids.len() - ID < at {
        return Inserted {
            answer: Err(SeenError::Fault(Fault::BadStore)),
            cache,
        };
    }
    let end = at + ID;
    cache.insert(store, &ids[at..end], 0, 1000, max)
}

fn contains_at(cache: SeenCache, store: &[u8], ids: &[u8], at: usize) -> bool {
    if ids.len() < ID || ids.len() - ID < at {
        return false;
    }
    let end = at + ID;
    cache.contains(store, &ids[at..end]).unwrap_or(false)
}

// The cache after so many inserts of the ids in turn.
fn inserts(cache: SeenCache, store: &mut [u8], ids: &[u8], max: usize, times: u64) -> SeenCache {
    let mut c = cache;
    let mut at: usize = 0;
    for _ in 0..times {
        let r = insert_at(c, store, ids, at, max);
        c = r.cache;
        at = next(at, ID, ids.len());
    }
    c
}

// Inserts; how many ids are held then.
pub fn timed_seen_insert(store: &mut [u8], ids: &[u8], max: usize, times: u64) -> u64 {
    let c = inserts(SeenCache::new(), store, ids, max, times);
    c.count as u64
}

// Fills a cache with the first `max` ids, and asks for others in turn; how many were held.
pub fn timed_seen_contains(
    store: &mut [u8],
    ids: &[u8],
    asked: &[u8],
    max: usize,
    times: u64,
) -> u64 {
    let c = inserts(SeenCache::new(), store, ids, max, max as u64);
    let mut held: u64 = 0;
    let mut at: usize = 0;
    for _ in 0..times {
        if contains_at(c, store, asked, at) {
            held = held.wrapping_add(1);
        }
        at = next(at, ID, asked.len());
    }
    held
}

// The same, and only the test of the lent state, so many times.
pub fn timed_seen_lent(store: &mut [u8], ids: &[u8], max: usize, times: u64) -> u64 {
    let c = inserts(SeenCache::new(), store, ids, max, max as u64);
    let mut fine: u64 = 0;
    for i in 0..times {
        touch(store, 128, i);
        if c.lent(store).is_ok() {
            fine = fine.wrapping_add(1);
        }
    }
    fine
}

// ---- the message cache

fn put_at(cache: MessageCache, store: &mut [u8], bodies: &[u8], at: usize, size: usize) -> PutDone {
    if bodies.len() < size || bodies.len() - size < at {
        return PutDone {
            answer: Err(PutError::Faulty(Fault::BadStore)),
            cache,
        };
    }
    let end = at + size;
    cache.put(store, Edition::V11, &bodies[at..end], 0)
}

// The cache after so many puts of the bodies in turn, each of this size.
fn puts(
    cache: MessageCache,
    store: &mut [u8],
    bodies: &[u8],
    size: usize,
    times: u64,
) -> MessageCache {
    let mut c = cache;
    let mut at: usize = 0;
    for _ in 0..times {
        let r = put_at(c, store, bodies, at, size);
        c = r.cache;
        at = next(at, size, bodies.len());
    }
    c
}

fn filled(store: &mut [u8], bodies: &[u8], size: usize, max: usize, times: u64) -> MessageCache {
    let s = MessageCache::new(4, max, 0);
    puts(s.cache, store, bodies, size, times)
}

// Puts; how many messages are held then.
pub fn timed_cache_put(
    store: &mut [u8],
    bodies: &[u8],
    size: usize,
    max: usize,
    times: u64,
) -> u64 {
    let c = filled(store, bodies, size, max, times);
    c.count as u64
}

fn gossip_count(c: MessageCache, store: &[u8], topic: &[u8]) -> u64 {
    let g = c.gossip_ids(store, topic, 4);
    match g.answer {
        Ok(()) => g.count as u64,
        Err(_) => 0,
    }
}

// Fills a cache with the first `max` bodies, and asks for the ids of a topic; the sum of their numbers.
pub fn timed_cache_gossip(
    store: &mut [u8],
    bodies: &[u8],
    size: usize,
    max: usize,
    topic: &[u8],
    times: u64,
) -> u64 {
    let c = filled(store, bodies, size, max, max as u64);
    let mut told: u64 = 0;
    for i in 0..times {
        touch(store, 4095, i);
        told = told.wrapping_add(gossip_count(c, store, topic));
    }
    told
}

fn got_at(c: MessageCache, store: &[u8], ids: &[u8], at: usize, size: usize) -> u64 {
    if ids.len() < size || ids.len() - size < at {
        return 0;
    }
    let end = at + size;
    c.get(store, &ids[at..end]).len() as u64
}

// The same, and looks ids of this size up in turn; the sum of the lengths of what was found.
pub fn timed_cache_get(
    store: &mut [u8],
    bodies: &[u8],
    size: usize,
    max: usize,
    ids: &[u8],
    id_size: usize,
    times: u64,
) -> u64 {
    let c = filled(store, bodies, size, max, max as u64);
    let mut found: u64 = 0;
    let mut at: usize = 0;
    for _ in 0..times {
        found = found.wrapping_add(got_at(c, store, ids, at, id_size));
        at = next(at, id_size, ids.len());
    }
    found
}

// The same, and only the test of the lent state, so many times.
pub fn timed_cache_lent(
    store: &mut [u8],
    bodies: &[u8],
    size: usize,
    max: usize,
    times: u64,
) -> u64 {
    let c = filled(store, bodies, size, max, max as u64);
    let mut fine: u64 = 0;
    for i in 0..times {
        touch(store, 4095, i);
        if c.lent(store).is_ok() {
            fine = fine.wrapping_add(1);
        }
    }
    fine
}
