// Kinds 1 to 5: the seen part.
ghost use Rattle.std.specs.Prelude.{◌≤◌, length};

use super::answers::{clean_line, contains_line, insert_line, next_line};
use super::say::{Line, print_line, say};
use seen::SeenCache;
use seen::told::{told_contains, told_gc, told_insert, told_next};
use text::last;

// Room for the most rows.
pub(crate) type SeenStore = [u8; 33024];

#[derive(Clone, Copy)]
pub(crate) struct SeenPart {
    pub go: bool,
    pub started: bool,
    pub rows: usize,
    pub cache: SeenCache,
}

pub(crate) fn no_seen() -> SeenPart {
    SeenPart {
        go: true,
        started: false,
        rows: 0,
        cache: SeenCache::new(),
    }
}

// The same part, whether to go on aside.
fn with_go(part: SeenPart, go: bool) -> SeenPart {
    SeenPart { go, ..part }
}

fn with_cache(part: SeenPart, cache: SeenCache, go: bool) -> SeenPart {
    SeenPart { go, cache, ..part }
}

fn bad(part: SeenPart) -> SeenPart {
    with_go(part, last(b"bad\n"))
}

// Kind 1.
fn begin(n: u64, content: &[u8], part: SeenPart, out: &mut Line) -> SeenPart {
    if content.len() != 2 {
        return bad(part);
    }
    let rows = basis::little_at(content, 0, 2) as usize;
    if 256 < rows {
        return bad(part);
    }
    SeenPart {
        go: say(n, b" seen ok", out),
        started: true,
        rows,
        cache: SeenCache::new(),
    }
}

// Kind 2.
fn insert(n: u64, content: &[u8], part: SeenPart, store: &mut [u8], out: &mut Line) -> SeenPart {
    if content.len() < 18 {
        return bad(part);
    }
    let now = basis::little_at(content, 0, 8);
    let ttl = basis::little_at(content, 8, 8);
    let max = basis::little_at(content, 16, 2) as usize;
    let r = part.cache.insert(store, &content[18..], now, ttl, max);
    let k = insert_line(n, told_insert(r.answer), out);
    let go = print_line(out, k);
    with_cache(part, r.cache, go)
}

// Kind 3.
fn clean(n: u64, content: &[u8], part: SeenPart, store: &[u8], out: &mut Line) -> SeenPart {
    if content.len() != 8 {
        return bad(part);
    }
    let now = basis::little_at(content, 0, 8);
    let r = part.cache.gc(store, now);
    let k = clean_line(n, told_gc(r.answer), out);
    let go = print_line(out, k);
    with_cache(part, r.cache, go)
}

// Kind 4.
fn next(n: u64, content: &[u8], part: SeenPart, store: &[u8], out: &mut Line) -> SeenPart {
    if content.len() != 0 {
        return bad(part);
    }
    let answer = part.cache.next_expiry(store);
    let k = next_line(n, told_next(answer), out);
    let go = print_line(out, k);
    with_go(part, go)
}

// Kind 5.
fn contains(n: u64, content: &[u8], part: SeenPart, store: &[u8], out: &mut Line) -> SeenPart {
    let answer = part.cache.contains(store, content);
    let k = contains_line(n, told_contains(answer), out);
    let go = print_line(out, k);
    with_go(part, go)
}

// How long the store is for so many rows.
fn rows_len(rows: usize) -> usize
    ensures { result ≤ 33024 }
{
    if rows <= 256 { rows * 129 } else { 0 }
}

// A call on a part that was started, with its rows of the store.
fn call(
    n: u64,
    kind: u64,
    content: &[u8],
    part: SeenPart,
    store: &mut [u8],
    out: &mut Line,
) -> SeenPart {
    match kind {
        2 => insert(n, content, part, store, out),
        3 => clean(n, content, part, store, out),
        4 => next(n, content, part, store, out),
        5 => contains(n, content, part, store, out),
        _ => bad(part),
    }
}

pub(crate) fn seen_turn(
    n: u64,
    kind: u64,
    content: &[u8],
    part: SeenPart,
    store: &mut SeenStore,
    out: &mut Line,
) -> SeenPart {
    if kind == 1 {
        return begin(n, content, part, out);
    }
    if part.started {
        let end = rows_len(part.rows);
        return call(n, kind, content, part, &mut store[..end], out);
    }
    bad(part)
}
