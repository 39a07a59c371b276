// Kinds 6 to 10, 16 and 17: the cache part.
ghost use Rattle.std.specs.Prelude.{◌≤◌, length};

use super::answers::{put_line, shift_line};
use super::say::{Line, print, print_line, start};
use basis::{Edition, told_fine};
use lines::{refusal_line, told_line};
use mcache::told::{told_gossip, told_lookup, told_put};
use mcache::{GossipIds, MessageCache};
use text::last;

// Room for the most messages.
pub(crate) type CacheStore = [u8; 262144];

#[derive(Clone, Copy)]
pub(crate) struct CachePart {
    pub go: bool,
    pub started: bool,
    pub cache: MessageCache,
}

pub(crate) fn no_cache() -> CachePart {
    CachePart {
        go: true,
        started: false,
        cache: MessageCache::new(1, 0, 0).cache,
    }
}

fn with_go(part: CachePart, go: bool) -> CachePart {
    CachePart { go, ..part }
}

fn bad(part: CachePart) -> CachePart {
    with_go(part, last(b"bad\n"))
}

// With another number for the next arrival.
fn arriving(mut cache: MessageCache, next: u64) -> MessageCache {
    cache.next_generation = next;
    cache
}

// Content of so many bytes that begins with the settings, and some flags.
fn begin(
    n: u64,
    size: usize,
    flags: usize,
    content: &[u8],
    part: CachePart,
    out: &mut Line,
) -> CachePart {
    if content.len() != size {
        return bad(part);
    }
    let history_len = basis::little_at(content, 0, 2) as usize;
    let max_messages = basis::little_at(content, 2, 2) as usize;
    let next = basis::little_at(content, 4, 8);
    let s = MessageCache::new(history_len, max_messages, flags);
    let k = told_line(n, b" cache ok", b" cache", true, told_fine(s.answer), out);
    let go = print_line(out, k);
    if s.answer.is_err() {
        return with_go(part, go);
    }
    CachePart {
        go,
        started: true,
        cache: arriving(s.cache, next),
    }
}

// Kind 16: as kind 6, and then the flags.
fn begin_flagged(n: u64, content: &[u8], part: CachePart, out: &mut Line) -> CachePart {
    let flags = basis::little_at(content, 12, 2) as usize;
    begin(n, 14, flags, content, part, out)
}

// Kind 7, with the body in an edition.
fn put(
    n: u64,
    edition: Edition,
    content: &[u8],
    part: CachePart,
    store: &mut [u8],
    out: &mut Line,
) -> CachePart {
    if content.len() < 2 {
        return bad(part);
    }
    let index = basis::little_at(content, 0, 2) as usize;
    let r = part.cache.put(store, edition, &content[2..], index);
    let k = put_line(n, told_put(r.answer), out);
    CachePart {
        go: print_line(out, k),
        started: true,
        cache: r.cache,
    }
}

// Kind 17: the number of an edition, and then as kind 7.
fn put_in(n: u64, content: &[u8], part: CachePart, store: &mut [u8], out: &mut Line) -> CachePart {
    if content.len() < 1 {
        return bad(part);
    }
    let number = basis::little_at(content, 0, 1);
    if 1 < number {
        return bad(part);
    }
    let edition = basis::edition_of(number);
    put(n, edition, &content[1..], part, store, out)
}

// Kind 8.
fn shift(n: u64, content: &[u8], part: CachePart, store: &[u8], out: &mut Line) -> CachePart {
    if content.len() != 0 {
        return bad(part);
    }
    let r = part.cache.shift(store);
    let k = shift_line(n, told_fine(r.answer), out);
    CachePart {
        go: print_line(out, k),
        started: true,
        cache: r.cache,
    }
}

// A blank, an equals sign and the hex of the id in place p.
fn put_id(id_lens: &[u8], ids: &[u8], p: usize, out: &mut Line, at: usize) -> usize {
    if p < id_lens.len() && p < 64 {
        let base = p * 128;
        let end = base + id_lens[p] as usize;
        if end <= ids.len() {
            let i = text::put_text(out, at, b" =");
            return text::put_hex(out, i, &ids[base..end]);
        }
    }
    at
}

fn say_ids(n: u64, id_lens: &[u8], ids: &[u8], rows: &[u8], count: usize, out: &mut Line) -> bool {
    let s = start(n, b" gossip", out);
    let mut k = text::put_number(out, s, count as u64);
    for i in 0..count {
        if rows.len() <= i {
            return false;
        }
        k = put_id(id_lens, ids, rows[i] as usize, out, k);
    }
    print(out, k)
}

fn say_gossip(n: u64, cache: MessageCache, g: GossipIds, out: &mut Line) -> bool {
    if g.answer.is_ok() {
        return say_ids(n, &cache.id_len, &cache.ids, &g.rows, g.count, out);
    }
    let k = refusal_line(n, b" gossip", true, told_gossip(g.answer), out);
    print_line(out, k)
}

// Kind 9.
fn gossip(n: u64, content: &[u8], part: CachePart, store: &[u8], out: &mut Line) -> CachePart {
    if content.len() < 2 {
        return bad(part);
    }
    let windows = basis::little_at(content, 0, 2) as usize;
    let cache = part.cache;
    let g = cache.gossip_ids(store, &content[2..], windows);
    let go = say_gossip(n, cache, g, out);
    with_go(part, go)
}

// A message that was found, in hex.
fn say_message(n: u64, message: &[u8], out: &mut Line) -> bool {
    let i = start(n, b" get =", out);
    let k = text::put_hex(out, i, message);
    print(out, k)
}

// Kind 10.
fn get(n: u64, content: &[u8], part: CachePart, store: &[u8], out: &mut Line) -> CachePart {
    let cache = part.cache;
    let answer = cache.lookup(store, content);
    if let Ok(true) = answer {
        let message = cache.get(store, content);
        let found = say_message(n, message, out);
        return with_go(part, found);
    }
    let k = told_line(n, b" get -", b" get", true, told_lookup(answer), out);
    let go = print_line(out, k);
    with_go(part, go)
}

// How long the store is for such a setting.
fn places_len(max_messages: usize) -> usize
    ensures { result ≤ 262144 }
{
    if max_messages <= 64 {
        max_messages * 4096
    } else {
        0
    }
}

// A call on a part that was started, with its places of the store.
fn call(
    n: u64,
    kind: u64,
    content: &[u8],
    part: CachePart,
    store: &mut [u8],
    out: &mut Line,
) -> CachePart {
    match kind {
        7 => put(n, Edition::V11, content, part, store, out),
        8 => shift(n, content, part, store, out),
        9 => gossip(n, content, part, store, out),
        10 => get(n, content, part, store, out),
        17 => put_in(n, content, part, store, out),
        _ => bad(part),
    }
}

pub(crate) fn cache_turn(
    n: u64,
    kind: u64,
    content: &[u8],
    part: CachePart,
    store: &mut CacheStore,
    out: &mut Line,
) -> CachePart {
    if kind == 6 {
        return begin(n, 12, 0, content, part, out);
    }
    if kind == 16 {
        return begin_flagged(n, content, part, out);
    }
    if part.started {
        let end = places_len(part.cache.max_messages);
        return call(n, kind, content, part, &mut store[..end], out);
    }
    bad(part)
}
