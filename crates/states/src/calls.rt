// The calls of a run, and their lines.
use super::hurt::hurt;
use super::state::put_state;
use basis::{Edition, edition_of, little_at};
use lines::{either_line, words_line};
use mcache::told::told_lookup;
use play::calls::{
    Run, admit, ask, call_node, misfit, no_question, print, serve, set_with, stop, why, within,
};
use seen::told::told_contains;

// Prints the record's number and some words.
fn say(n: u64, words: &[u8], run: Run, out: &mut [u8]) -> Run {
    let k = words_line(n, words, out);
    let node = run.node;
    print(out, k, node, run)
}

// Kinds 1 to 6.
fn on_node(
    n: u64,
    kind: u64,
    content: &[u8],
    run: Run,
    seen_store: &mut [u8],
    cache_store: &mut [u8],
    made: &mut [u8],
    out: &mut [u8],
) -> Run {
    if misfit(kind, content.len()) {
        return stop(run, b"bad\n");
    }
    call_node(
        n,
        64,
        true,
        kind,
        content,
        run,
        seen_store,
        cache_store,
        made,
        out,
    )
}

// Kind 21: as kind 1, and then the flags.
fn set_flags(n: u64, content: &[u8], run: Run, out: &mut [u8]) -> Run {
    if content.len() != 16 {
        return stop(run, b"bad\n");
    }
    let flags = little_at(content, 14, 2) as usize;
    set_with(n, 64, flags, content, run, out)
}

// Kind 26 behind its room: the length of the lent body, that body, and then the body.
fn serve_lent(
    n: u64,
    edition: Edition,
    content: &[u8],
    run: Run,
    seen_store: &[u8],
    cache_store: &[u8],
    made: &mut [u8],
    out: &mut [u8],
) -> Run {
    if content.len() < 4 {
        return stop(run, b"bad\n");
    }
    let len = little_at(content, 0, 4) as usize;
    if content.len() - 4 < len {
        return stop(run, b"bad\n");
    }
    let body = 4 + len;
    serve(
        n,
        true,
        edition,
        &content[body..],
        &content[4..body],
        run,
        seen_store,
        cache_store,
        made,
        out,
    )
}

// A kind that writes, behind its room, in all of `made`.
fn write_in(
    n: u64,
    kind: u64,
    edition: Edition,
    content: &[u8],
    run: Run,
    seen_store: &mut [u8],
    cache_store: &mut [u8],
    made: &mut [u8],
    out: &mut [u8],
) -> Run {
    match kind {
        25 => ask(
            n,
            true,
            edition,
            content,
            run,
            seen_store,
            cache_store,
            made,
            out,
        ),
        26 => serve_lent(n, edition, content, run, seen_store, cache_store, made, out),
        _ => on_node(n, kind, content, run, seen_store, cache_store, made, out),
    }
}

// Kinds 4, 5 and 6, and 25 and 26 behind their edition, which begin with the room of the buffer.
fn write(
    n: u64,
    kind: u64,
    edition: Edition,
    content: &[u8],
    run: Run,
    seen_store: &mut [u8],
    cache_store: &mut [u8],
    made: &mut [u8],
    out: &mut [u8],
) -> Run {
    if content.len() < 4 {
        return stop(run, b"bad\n");
    }
    let room = little_at(content, 0, 4) as usize;
    if made.len() < room {
        return stop(run, b"bad\n");
    }
    write_in(
        n,
        kind,
        edition,
        &content[4..],
        run,
        seen_store,
        cache_store,
        &mut made[..room],
        out,
    )
}

// Kinds 22, 25 and 26: the number of an edition, and then as 2, 5 and 6.
fn in_edition(
    n: u64,
    kind: u64,
    content: &[u8],
    run: Run,
    seen_store: &mut [u8],
    cache_store: &mut [u8],
    made: &mut [u8],
    out: &mut [u8],
) -> Run {
    if content.len() < 1 {
        return stop(run, b"bad\n");
    }
    let number = little_at(content, 0, 1);
    if 1 < number {
        return stop(run, b"bad\n");
    }
    let edition = edition_of(number);
    if kind == 22 {
        if misfit(2, content.len() - 1) {
            return stop(run, b"bad\n");
        }
        return admit(
            n,
            true,
            edition,
            &content[1..],
            run,
            seen_store,
            cache_store,
            out,
        );
    }
    write(
        n,
        kind,
        edition,
        &content[1..],
        run,
        seen_store,
        cache_store,
        made,
        out,
    )
}

// Kind 7.
fn lend(
    n: u64,
    content: &[u8],
    mut run: Run,
    most: usize,
    most_cache: usize,
    out: &mut [u8],
) -> Run {
    if content.len() != 8 {
        return stop(run, b"bad\n");
    }
    let seen_len = little_at(content, 0, 4) as usize;
    let cache_len = little_at(content, 4, 4) as usize;
    if most < seen_len || most_cache < cache_len {
        return stop(run, b"bad\n");
    }
    run.seen_len = seen_len;
    run.cache_len = cache_len;
    say(n, b" lend ok", run, out)
}

fn set_byte(store: &mut [u8], p: usize, value: u8) {
    if p < store.len() {
        store[p] = value;
    }
}

// Kind 8. What 17 and 18 are bytes of the stores.
fn harm(
    n: u64,
    content: &[u8],
    mut run: Run,
    seen_store: &mut [u8],
    cache_store: &mut [u8],
    out: &mut [u8],
) -> Run {
    if content.len() != 13 {
        return stop(run, b"bad\n");
    }
    let what = little_at(content, 0, 1);
    let p = little_at(content, 1, 4) as usize;
    let value = little_at(content, 5, 8);
    if what == 17 {
        set_byte(seen_store, p, (value % 256) as u8);
        return say(n, b" hurt ok", run, out);
    }
    if what == 18 {
        set_byte(cache_store, p, (value % 256) as u8);
        return say(n, b" hurt ok", run, out);
    }
    let node = run.node;
    run.node = hurt(node, what, p, value);
    say(n, b" hurt ok", run, out)
}

// Kind 9: the seen part alone.
fn contains(n: u64, id: &[u8], run: Run, seen_store: &[u8], out: &mut [u8]) -> Run {
    let node = run.node;
    let seen = node.seen;
    let t = told_contains(seen.contains(seen_store, id));
    let k = either_line(
        n,
        b" contains yes",
        b" contains no",
        b" contains",
        true,
        t,
        out,
    );
    print(out, k, node, run)
}

// Kind 10: the message cache alone.
fn lookup(n: u64, id: &[u8], run: Run, cache_store: &[u8], out: &mut [u8]) -> Run {
    let node = run.node;
    let cache = node.cache;
    let t = told_lookup(cache.lookup(cache_store, id));
    let k = either_line(
        n,
        b" lookup found",
        b" lookup missing",
        b" lookup",
        true,
        t,
        out,
    );
    print(out, k, node, run)
}

// Kind 11.
fn state(
    n: u64,
    run: Run,
    seen_store: &[u8],
    cache_store: &[u8],
    made: &[u8],
    out: &mut [u8],
) -> Run {
    let node = run.node;
    let i = text::put_decimal(out, 0, n);
    let j = text::put_text(out, i, b" state");
    let k = put_state(node, seen_store, cache_store, made, out, j);
    let end = text::put_text(out, k, b"\n");
    print(out, end, node, run)
}

// Kind 12.
fn question(
    n: u64,
    content: &[u8],
    run: Run,
    seen_store: &[u8],
    cache_store: &[u8],
    out: &mut [u8],
) -> Run {
    if no_question(content) {
        return stop(run, b"bad\n");
    }
    why(n, true, content, run, seen_store, cache_store, out)
}

// A call, with the parts of the stores that are lent.
fn on_lent(
    n: u64,
    kind: u64,
    content: &[u8],
    run: Run,
    seen_store: &mut [u8],
    cache_store: &mut [u8],
    made: &mut [u8],
    out: &mut [u8],
) -> Run {
    match kind {
        4..=6 => write(
            n,
            kind,
            Edition::V11,
            content,
            run,
            seen_store,
            cache_store,
            made,
            out,
        ),
        8 => harm(n, content, run, seen_store, cache_store, out),
        9 => contains(n, content, run, seen_store, out),
        10 => lookup(n, content, run, cache_store, out),
        11 => state(n, run, seen_store, cache_store, made, out),
        12 => question(n, content, run, seen_store, cache_store, out),
        21 => set_flags(n, content, run, out),
        22 | 25 | 26 => in_edition(n, kind, content, run, seen_store, cache_store, made, out),
        _ => on_node(n, kind, content, run, seen_store, cache_store, made, out),
    }
}

pub(crate) fn call(
    n: u64,
    kind: u64,
    content: &[u8],
    run: Run,
    seen_store: &mut [u8],
    cache_store: &mut [u8],
    made: &mut [u8],
    out: &mut [u8],
) -> Run {
    if kind == 7 {
        return lend(n, content, run, seen_store.len(), cache_store.len(), out);
    }
    let seen_len = within(run.seen_len, seen_store.len());
    let cache_len = within(run.cache_len, cache_store.len());
    on_lent(
        n,
        kind,
        content,
        run,
        &mut seen_store[..seen_len],
        &mut cache_store[..cache_len],
        made,
        out,
    )
}
