// The calls of a run on a node and their lines: what the programs share that play records. `full` says whether the values beside a refusal and its place
// are printed. A record's content is tested once, by `misfit`: a call takes what is there, a number that is not is 0.
ghost use Rattle.std.specs.Prelude.{◌≡◌, min};
ghost use Rattle.play.specs.Ends.{misfits, no_question};
ghost use Rattle.play.specs.Stores.{store_len};

use answers::{admit_line, advertise_line, ask_line, beat_line, serve_line, set_line, why_line};
use basis::{Edition, Fault, little_at, told_fine};
use node::Node;
use node::told::{told_admit, told_advertise, told_ask, told_beat, told_explain, told_serve};

// The node of a run, whether settings were accepted, how much of each store is lent, and whether to go on.
#[derive(Clone, Copy)]
pub struct Run {
    pub go: bool,
    pub started: bool,
    pub seen_len: usize,
    pub cache_len: usize,
    pub node: Node,
}

// Before settings are accepted: a node that keeps nothing, lent no store.
pub fn nothing() -> Run {
    Run {
        go: true,
        started: false,
        seen_len: 0,
        cache_len: 0,
        node: Node::start(0, 0, 1, 0, 0).node,
    }
}

// Ends the run with a word.
pub fn stop(mut run: Run, word: &[u8]) -> Run {
    io::write_all(1, word);
    run.go = false;
    run
}

// Whether the kind is unknown, or content of such a length is not one of its kind.
pub fn misfit(kind: u64, len: usize) -> bool
    ensures { result ≡ misfits kind len }
{
    match kind {
        1 => len != 14,
        2 => len < 11,
        3 => len != 8,
        4 => len < 2,
        5 => false,
        6 => false,
        _ => true,
    }
}

// Whether content is none of kind 12: its two numbers are cut, or the id is.
pub fn no_question(content: &[u8]) -> bool
    ensures { result ≡ no_question content.now }
{
    if content.len() < 4 {
        return true;
    }
    let id_len = little_at(content, 2, 2) as usize;
    content.len() - 4 < id_len
}

// The lesser: of a length, what is there.
pub fn within(len: usize, most: usize) -> usize
    ensures { result ≡ min len most }
{
    len.min(most)
}

// Prints the first k bytes; the run goes on with this node.
pub fn print(out: &[u8], k: usize, node: Node, mut run: Run) -> Run {
    let end = within(k, out.len());
    run.go = io::write_all(1, &out[..end]);
    run.node = node;
    run
}

// How long the stores are for such settings.
pub fn rows_len(max_seen: usize) -> usize
    ensures { result ≡ store_len 256 129 max_seen }
{
    if max_seen <= 256 {
        return max_seen * 129;
    }
    0
}

pub fn places_len(max_messages: usize) -> usize
    ensures { result ≡ store_len 64 4096 max_messages }
{
    if max_messages <= 64 {
        return max_messages * 4096;
    }
    0
}

// Refused settings change nothing.
fn keep_on(n: u64, run: Run, out: &mut [u8]) -> Run {
    let k = set_line(n, told_fine(Err(Fault::BadSetting)), out);
    let node = run.node;
    print(out, k, node, run)
}

// Settings as kind 1 has them, with some flags. The last setting above `most` meets 40 too.
pub fn set_with(
    n: u64,
    most: usize,
    flags: usize,
    content: &[u8],
    mut run: Run,
    out: &mut [u8],
) -> Run {
    let ttl = little_at(content, 0, 8);
    let max_seen = little_at(content, 8, 2) as usize;
    let history_len = little_at(content, 10, 2) as usize;
    let max_messages = little_at(content, 12, 2) as usize;
    if most < max_messages {
        return keep_on(n, run, out);
    }
    let s = Node::start(ttl, max_seen, history_len, max_messages, flags);
    if s.answer.is_err() {
        return keep_on(n, run, out);
    }
    let k = set_line(n, told_fine(s.answer), out);
    run.started = true;
    run.seen_len = rows_len(max_seen);
    run.cache_len = places_len(max_messages);
    print(out, k, s.node, run)
}

// Kind 1, which names no flags: unsigned messages are not allowed, and groups are refused.
fn set(n: u64, most: usize, content: &[u8], run: Run, out: &mut [u8]) -> Run {
    set_with(n, most, 0, content, run, out)
}

// Kind 2, with the body in an edition.
pub fn admit(
    n: u64,
    full: bool,
    edition: Edition,
    content: &[u8],
    run: Run,
    seen_store: &mut [u8],
    cache_store: &mut [u8],
    out: &mut [u8],
) -> Run {
    let now = little_at(content, 0, 8);
    let index = little_at(content, 8, 2) as usize;
    let verified = little_at(content, 10, 1) == 1;
    let body = within(11, content.len());
    let node = run.node;
    let r = node.admit(
        seen_store,
        cache_store,
        edition,
        &content[body..],
        index,
        verified,
        now,
    );
    let k = admit_line(n, full, told_admit(r.answer), out);
    print(out, k, r.node, run)
}

// Kind 3.
fn beat(
    n: u64,
    full: bool,
    content: &[u8],
    run: Run,
    seen_store: &[u8],
    cache_store: &[u8],
    out: &mut [u8],
) -> Run {
    let now = little_at(content, 0, 8);
    let node = run.node;
    let r = node.heartbeat(seen_store, cache_store, now);
    let k = beat_line(n, full, told_beat(r.answer), out);
    print(out, k, r.node, run)
}

// Kind 4.
fn advertise(
    n: u64,
    full: bool,
    content: &[u8],
    run: Run,
    seen_store: &[u8],
    cache_store: &[u8],
    made: &mut [u8],
    out: &mut [u8],
) -> Run {
    let windows = little_at(content, 0, 2) as usize;
    let topic = within(2, content.len());
    let node = run.node;
    let r = node.advertise(seen_store, cache_store, &content[topic..], windows, made);
    let k = advertise_line(n, full, made, told_advertise(r.answer), out);
    print(out, k, r.node, run)
}

// Kind 5, with the body in an edition.
pub fn ask(
    n: u64,
    full: bool,
    edition: Edition,
    body: &[u8],
    run: Run,
    seen_store: &[u8],
    cache_store: &[u8],
    made: &mut [u8],
    out: &mut [u8],
) -> Run {
    let node = run.node;
    let r = node.ask(seen_store, cache_store, edition, body, made);
    let k = ask_line(n, full, made, told_ask(r.answer), out);
    print(out, k, r.node, run)
}

// Kind 6, with the body in an edition, and beside it a body whose IDONTWANTs count.
pub fn serve(
    n: u64,
    full: bool,
    edition: Edition,
    body: &[u8],
    unwanted: &[u8],
    run: Run,
    seen_store: &[u8],
    cache_store: &[u8],
    made: &mut [u8],
    out: &mut [u8],
) -> Run {
    let node = run.node;
    let r = node.serve(seen_store, cache_store, edition, body, unwanted, made);
    let k = serve_line(n, full, made, told_serve(r.answer), out);
    print(out, k, r.node, run)
}

// Kind 12, which the trace program has not: windows u16, the id's length u16, the id, the topic.
pub fn why(
    n: u64,
    full: bool,
    content: &[u8],
    run: Run,
    seen_store: &[u8],
    cache_store: &[u8],
    out: &mut [u8],
) -> Run {
    let windows = little_at(content, 0, 2) as usize;
    let id_len = little_at(content, 2, 2) as usize;
    let id = within(4, content.len());
    let topic = id + within(id_len, content.len() - id);
    let node = run.node;
    let r = node.explain(
        seen_store,
        cache_store,
        &content[id..topic],
        &content[topic..],
        windows,
    );
    let k = why_line(n, full, told_explain(r.answer), out);
    print(out, k, r.node, run)
}

// A record that fits its kind, with the parts of the stores that are lent. `most` bounds the last setting. A body is read in 1.1, and none is lent beside
// it.
pub fn call_node(
    n: u64,
    most: usize,
    full: bool,
    kind: u64,
    content: &[u8],
    run: Run,
    seen_store: &mut [u8],
    cache_store: &mut [u8],
    made: &mut [u8],
    out: &mut [u8],
) -> Run {
    match kind {
        1 => set(n, most, content, run, out),
        2 => admit(
            n,
            full,
            Edition::V11,
            content,
            run,
            seen_store,
            cache_store,
            out,
        ),
        3 => beat(n, full, content, run, seen_store, cache_store, out),
        4 => advertise(n, full, content, run, seen_store, cache_store, made, out),
        5 => ask(
            n,
            full,
            Edition::V11,
            content,
            run,
            seen_store,
            cache_store,
            made,
            out,
        ),
        _ => serve(
            n,
            full,
            Edition::V11,
            content,
            b"",
            run,
            seen_store,
            cache_store,
            made,
            out,
        ),
    }
}
