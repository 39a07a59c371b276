// Kind 11: the numbers of the state and sums over the lent bytes, so that a change can be seen.
use mcache::MessageCache;
use node::Node;
use seen::SeenCache;

// The sum of the sums of all fronts, wrapping: it tells where a byte changed, too.
fn sum(s: &[u8]) -> u64 {
    let mut front: u64 = 0;
    let mut total: u64 = 0;
    for b in s {
        front = front.wrapping_add(*b as u64);
        total = total.wrapping_add(front);
    }
    total
}

fn put_seen(out: &mut [u8], at: usize, seen: SeenCache) -> usize {
    let i = text::put_number(out, at, seen.start as u64);
    text::put_number(out, i, seen.count as u64)
}

fn put_cache(out: &mut [u8], at: usize, cache: MessageCache) -> usize {
    let i = text::put_number(out, at, cache.start as u64);
    let j = text::put_number(out, i, cache.count as u64);
    text::put_number(out, j, cache.next_generation)
}

// The clock; start and count of the seen part; start, count and next arrival number of the cache; the sums of the two stores and of the buffer.
pub(crate) fn put_state(
    node: Node,
    seen_store: &[u8],
    cache_store: &[u8],
    made: &[u8],
    out: &mut [u8],
    at: usize,
) -> usize {
    let seen = node.seen;
    let cache = node.cache;
    let i = text::put_number(out, at, node.clock);
    let j = put_seen(out, i, seen);
    let k = put_cache(out, j, cache);
    let l = text::put_number(out, k, sum(seen_store));
    let m = text::put_number(out, l, sum(cache_store));
    text::put_number(out, m, sum(made))
}
