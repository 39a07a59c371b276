// Plays records from standard input on the two caches, a line for each: the record's number from 1, the call, the answer. A record is its
// content's length (u32), its kind (u16) and its content, little-endian. Kinds: 1 seen (rows u16), 2 insert (now u64, ttl u64, max u16, id),
// 3 clean (now u64), 4 next, 5 contains (id), 6 cache (history_len u16, max_messages u16, next arrival number u64), 7 put (index u16, body),
// 8 shift, 9 gossip (windows u16, topic), 10 get (id), 16 as 6, and then flags u16 (bit 0: unsigned messages are allowed; bit 1: groups are
// passed over), 17 an edition u8 (0 is 1.1, 1 is 1.2), and then as 7.
#![tactic(auto)]

mod answers;
mod cache_part;
mod say;
mod seen_part;

use cache_part::{CachePart, CacheStore, cache_turn, no_cache};
use say::Line;
use seen_part::{SeenPart, SeenStore, no_seen, seen_turn};
use text::{Header, HeaderError, last, next_record};

// The two parts of a run, and whether to go on.
#[derive(Clone, Copy)]
struct Run {
    go: bool,
    seen: SeenPart,
    cache: CachePart,
}

// Plays one record.
fn play(
    n: u64,
    kind: u64,
    content: &[u8],
    run: Run,
    seen_store: &mut SeenStore,
    cache_store: &mut CacheStore,
    out: &mut Line,
) -> Run {
    let seen = run.seen;
    let cache = run.cache;
    if kind < 6 {
        let s = seen_turn(n, kind, content, seen, seen_store, out);
        return Run {
            go: s.go,
            seen: s,
            cache,
        };
    }
    let c = cache_turn(n, kind, content, cache, cache_store, out);
    Run {
        go: c.go,
        seen,
        cache: c,
    }
}

// Ends the run with a word.
fn stop(run: Run, word: &[u8]) -> Run {
    let seen = run.seen;
    let cache = run.cache;
    Run {
        go: last(word),
        seen,
        cache,
    }
}

// Reads a record and plays it.
fn turn(
    n: u64,
    content: &mut [u8; 65600],
    run: Run,
    seen_store: &mut SeenStore,
    cache_store: &mut CacheStore,
    out: &mut Line,
) -> Run {
    match next_record(content, 65600) {
        Ok(None) => stop(run, b""),
        Err(HeaderError::Bad) => stop(run, b"bad\n"),
        Err(HeaderError::Long) => stop(run, b"long\n"),
        Ok(Some(Header { kind, len })) => {
            play(n, kind, &content[..len], run, seen_store, cache_store, out)
        }
    }
}

// The count of records only bounds the loop: no run uses it up.
fn main() {
    let mut content = [0u8; 65600];
    let mut seen_store = [0u8; 33024];
    let mut cache_store = [0u8; 262144];
    let mut out = [0u8; 20000];
    let mut run = Run {
        go: true,
        seen: no_seen(),
        cache: no_cache(),
    };
    for n in 1..u64::MAX {
        run = turn(
            n,
            &mut content,
            run,
            &mut seen_store,
            &mut cache_store,
            &mut out,
        );
        if !run.go {
            break;
        }
    }
}
