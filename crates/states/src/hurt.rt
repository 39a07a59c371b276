// Kind 8: a number of the node or of a store set to a value, so that 40, 41 and 42 can be seen. What: 0 ttl, 1 max_seen, 2 clock; of the seen part
// 3 start, 4 count, 5 an expiry, 6 a length; of the cache 7 history_len, 8 max_messages, 9 the next arrival number, 10 start, 11 count, 12 an arrival
// number, 13 a window, 14 a message's length, 15 an id's length, 16 and above 22 a byte of the ids, 19 how many topics a row has, 20 where a topic
// starts, 21 its length, these two in the place 4 · row + slot, 22 the flags; 17 and 18, bytes of the stores, are set where they are lent.
use mcache::MessageCache;
use node::Node;
use seen::SeenCache;

fn hurt_seen(mut seen: SeenCache, what: u64, p: usize, value: u64) -> SeenCache {
    match what {
        3 => seen.start = value as usize,
        4 => seen.count = value as usize,
        5 if p < 256 => seen.expiry[p] = value,
        6 if p < 256 => seen.len[p] = (value % 256) as u8,
        _ => {}
    }
    seen
}

fn hurt_rows(mut cache: MessageCache, what: u64, p: usize, value: u64) -> MessageCache {
    match what {
        12 => cache.generation[p % 64] = value,
        13 => cache.window[p % 64] = (value % 256) as u8,
        14 => cache.len[p % 64] = (value % 65536) as u16,
        15 => cache.id_len[p % 64] = (value % 256) as u8,
        19 => cache.topic_count[p % 64] = (value % 256) as u8,
        20 => cache.topic_start[p % 256] = (value % 65536) as u16,
        21 => cache.topic_len[p % 256] = (value % 65536) as u16,
        _ => cache.ids[p % 8192] = (value % 256) as u8,
    }
    cache
}

fn hurt_cache(mut cache: MessageCache, what: u64, p: usize, value: u64) -> MessageCache {
    match what {
        7 => cache.history_len = value as usize,
        8 => cache.max_messages = value as usize,
        9 => cache.next_generation = value,
        10 => cache.start = value as usize,
        11 => cache.count = value as usize,
        22 => cache.flags = value as usize,
        _ => return hurt_rows(cache, what, p, value),
    }
    cache
}

// With one number set.
pub(crate) fn hurt(mut node: Node, what: u64, p: usize, value: u64) -> Node {
    match what {
        0 => node.ttl = value,
        1 => node.max_seen = value as usize,
        2 => node.clock = value,
        3..=6 => node.seen = hurt_seen(node.seen, what, p, value),
        _ => node.cache = hurt_cache(node.cache, what, p, value),
    }
    node
}
