// What the benchmark in bench/ links: each loop of the crate timed under its own name. Only that they are safe and end is proved.
#![tactic(auto)]

// Inserts; how many ids are held then.
#[unsafe(no_mangle)]
pub extern "C" fn timed_seen_insert(store: &mut [u8], ids: &[u8], max: usize, times: u64) -> u64 {
    timed::timed_seen_insert(store, ids, max, times)
}

// Fills a cache with the first `max` ids, and asks for others in turn; how many were held.
#[unsafe(no_mangle)]
pub extern "C" fn timed_seen_contains(
    store: &mut [u8],
    ids: &[u8],
    asked: &[u8],
    max: usize,
    times: u64,
) -> u64 {
    timed::timed_seen_contains(store, ids, asked, max, times)
}

// The same, and only the test of the lent state, so many times.
#[unsafe(no_mangle)]
pub extern "C" fn timed_seen_lent(store: &mut [u8], ids: &[u8], max: usize, times: u64) -> u64 {
    timed::timed_seen_lent(store, ids, max, times)
}

// Puts; how many messages are held then.
#[unsafe(no_mangle)]
pub extern "C" fn timed_cache_put(
    store: &mut [u8],
    bodies: &[u8],
    size: usize,
    max: usize,
    times: u64,
) -> u64 {
    timed::timed_cache_put(store, bodies, size, max, times)
}

// Fills a cache with the first `max` bodies, and asks for the ids of a topic; the sum of their numbers.
#[unsafe(no_mangle)]
pub extern "C" fn timed_cache_gossip(
    store: &mut [u8],
    bodies: &[u8],
    size: usize,
    max: usize,
    topic: &[u8],
    times: u64,
) -> u64 {
    timed::timed_cache_gossip(store, bodies, size, max, topic, times)
}

// The same, and looks ids of this size up in turn; the sum of the lengths of what was found.
#[unsafe(no_mangle)]
pub extern "C" fn timed_cache_get(
    store: &mut [u8],
    bodies: &[u8],
    size: usize,
    max: usize,
    ids: &[u8],
    id_size: usize,
    times: u64,
) -> u64 {
    timed::timed_cache_get(store, bodies, size, max, ids, id_size, times)
}

// The same, and only the test of the lent state, so many times.
#[unsafe(no_mangle)]
pub extern "C" fn timed_cache_lent(
    store: &mut [u8],
    bodies: &[u8],
    size: usize,
    max: usize,
    times: u64,
) -> u64 {
    timed::timed_cache_lent(store, bodies, size, max, times)
}
