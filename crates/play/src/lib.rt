// Plays a trace from standard input on a node, a line for each record, as the scope's "The trace program" has it. A record is its content's length (u32),
// its kind (u16) and its content, little-endian. Kinds: 1 settings (ttl u64; max_seen, history_len, max_messages u16), 2 admit (now u64, index
// u16, verified u8, body), 3 heartbeat (now u64), 4 advertise (windows u16, topic), 5 ask (body), 6 serve (body).
#![tactic(auto)]

pub mod calls;

ghost use Rattle.std.specs.Prelude.{◌≡◌};
ghost use Rattle.play.specs.Ends.{no_word, is_bad};

use basis::little_at;
use calls::{Run, call_node, misfit, nothing, stop, within};
use text::{Header, HeaderError, next_record};

// Whether an admit has another word than 0 or 1 on the signature.
fn no_word(kind: u64, content: &[u8]) -> bool
    ensures { result ≡ no_word kind content.now }
{
    if kind == 2 {
        let word = little_at(content, 10, 1);
        return 1 < word;
    }
    false
}

// Whether the record ends the run: it is none, or a call before accepted settings.
pub fn is_bad(started: bool, kind: u64, content: &[u8]) -> bool
    ensures { result ≡ is_bad started kind content.now }
{
    if misfit(kind, content.len()) {
        return true;
    }
    if kind == 1 {
        return false;
    }
    if started {
        return no_word(kind, content);
    }
    true
}

// Answers a record. The stores are lent as long as the settings say.
pub fn answer(
    n: u64,
    kind: u64,
    content: &[u8],
    run: Run,
    seen_store: &mut [u8],
    cache_store: &mut [u8],
    made: &mut [u8],
    out: &mut [u8],
) -> Run {
    if is_bad(run.started, kind, content) {
        return stop(run, b"bad\n");
    }
    let seen_len = within(run.seen_len, seen_store.len());
    let cache_len = within(run.cache_len, cache_store.len());
    call_node(
        n,
        8,
        false,
        kind,
        content,
        run,
        &mut seen_store[..seen_len],
        &mut cache_store[..cache_len],
        made,
        out,
    )
}

// Reads a record and answers it.
fn turn(
    n: u64,
    content: &mut [u8; 32768],
    run: Run,
    seen_store: &mut [u8],
    cache_store: &mut [u8],
    made: &mut [u8],
    out: &mut [u8],
) -> Run {
    match next_record(content, 32768) {
        Ok(None) => stop(run, b""),
        Err(HeaderError::Bad) => stop(run, b"bad\n"),
        Err(HeaderError::Long) => stop(run, b"long\n"),
        Ok(Some(Header { kind, len })) => answer(
            n,
            kind,
            &content[..len],
            run,
            seen_store,
            cache_store,
            made,
            out,
        ),
    }
}

// Plays the whole input. The count of records only bounds the loop: no run uses it up.
pub fn play() {
    let mut content = [0u8; 32768];
    let mut seen_store = [0u8; 33024];
    let mut cache_store = [0u8; 32768];
    let mut made = [0u8; 65536];
    let mut out = [0u8; 131350];
    let mut run = nothing();
    for n in 1..u64::MAX {
        run = turn(
            n,
            &mut content,
            run,
            &mut seen_store,
            &mut cache_store,
            &mut made,
            &mut out,
        );
        if !run.go {
            break;
        }
    }
}
