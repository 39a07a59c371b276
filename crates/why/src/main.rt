// Plays records on a node, as `trace` does, and says why an id is not offered. A record is its content's length (u32), its kind (u16) and its
// content, little-endian. Kinds: 1 settings (ttl u64; max_seen, history_len, max_messages u16), 2 admit (now u64, index u16, verified u8, body),
// 3 heartbeat (now u64), 4 advertise (windows u16, topic), 5 ask (body), 6 serve (body), 12 why (windows u16, length of the id u16, id, topic),
// 13 gateway (a node's bytes, its seen store, its cache store, as the C interface has them), which takes the place of node and stores. The stores
// are lent as long as the settings say, or the node of a gateway.
#![tactic(auto)]

mod gateway;

ghost use Rattle.std.specs.Prelude.{◌≡◌, ◌≤◌, length};
ghost use Rattle.why.specs.Ends.{most_content, ends_run};

use gateway::take_gateway;
use play::calls::{Run, no_question, nothing, stop, why, within};
use play::is_bad;
use stored::NODE_SIZE;
use text::{Header, HeaderError, next_header, read_content};

// How long content of a kind may be: a gateway's as long as the largest.
fn most_content(kind: u64) -> usize
    ensures { result ≡ most_content kind }
{
    if kind == 13 { 307608 } else { 32768 }
}

// Whether the record ends the run: it is none, or a call before a gateway.
fn ends_run(started: bool, kind: u64, content: &[u8]) -> bool
    ensures { result ≡ ends_run started kind content.now }
{
    if kind == 13 {
        return content.len() < NODE_SIZE;
    }
    if kind == 12 {
        if started {
            return no_question(content);
        }
        return true;
    }
    is_bad(started, kind, content)
}

// Kind 12.
fn question(
    n: u64,
    content: &[u8],
    run: Run,
    seen_store: &[u8],
    cache_store: &[u8],
    out: &mut [u8],
) -> Run {
    let seen_len = within(run.seen_len, seen_store.len());
    let cache_len = within(run.cache_len, cache_store.len());
    why(
        n,
        false,
        content,
        run,
        &seen_store[..seen_len],
        &cache_store[..cache_len],
        out,
    )
}

// Answers a record.
fn answer(
    n: u64,
    kind: u64,
    content: &[u8],
    run: Run,
    seen_store: &mut [u8],
    cache_store: &mut [u8],
    made: &mut [u8],
    out: &mut [u8],
) -> Run {
    if ends_run(run.started, kind, content) {
        return stop(run, b"bad\n");
    }
    if kind == 13 {
        return take_gateway(n, content, run, seen_store, cache_store, out);
    }
    if kind == 12 {
        return question(n, content, run, seen_store, cache_store, out);
    }
    play::answer(n, kind, content, run, seen_store, cache_store, made, out)
}

// Reads a record's content and answers it.
fn go_on(
    n: u64,
    kind: u64,
    len: usize,
    content: &mut [u8],
    run: Run,
    seen_store: &mut [u8],
    cache_store: &mut [u8],
    made: &mut [u8],
    out: &mut [u8],
) -> Run
    requires { len ≤ length content.old }
{
    if most_content(kind) < len {
        return stop(run, b"long\n");
    }
    if read_content(content, len) {
        return answer(
            n,
            kind,
            &content[..len],
            run,
            seen_store,
            cache_store,
            made,
            out,
        );
    }
    stop(run, b"bad\n")
}

// Reads a record and answers it.
fn turn(
    n: u64,
    content: &mut [u8; 307608],
    run: Run,
    seen_store: &mut [u8],
    cache_store: &mut [u8],
    made: &mut [u8],
    out: &mut [u8],
) -> Run {
    match next_header(307608) {
        Ok(None) => stop(run, b""),
        Err(HeaderError::Bad) => stop(run, b"bad\n"),
        Err(HeaderError::Long) => stop(run, b"long\n"),
        Ok(Some(Header { kind, len })) => go_on(
            n,
            kind,
            len,
            content,
            run,
            seen_store,
            cache_store,
            made,
            out,
        ),
    }
}

// The count of records only bounds the loop: no run uses it up.
fn main() {
    let mut content = [0u8; 307608];
    let mut seen_store = [0u8; 33024];
    let mut cache_store = [0u8; 262144];
    let mut made = [0u8; 65536];
    let mut out = [0u8; 131350];
    let mut run = nothing();
    for n in 1..u64::MAX {
        run = turn(
            n,
            &mut content,
            run,
            &mut seen_store,
            &mut cache_store,
            &mut made,
            &mut out,
        );
        if !run.go {
            break;
        }
    }
}
