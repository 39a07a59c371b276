// Plays records on a node, as `trace` does, and shows what a trace cannot: the values beside refusals and their places, buffers and stores of any length, a
// node that is not well formed, full capacities. A record is its content's length (u32), its kind (u16) and its content, little-endian. Kinds: 1
// settings (ttl u64; max_seen, history_len, max_messages u16), 2 admit (now u64, index u16, verified u8: 1 is the host's word, body), 3 heartbeat (now u64), 4
// advertise (room u32, windows u16, topic), 5 ask (room u32, body), 6 serve (room u32, body), 7 lend (length of the seen store u32, of the cache
// store u32), 8 hurt (what u8, place u32, value u64), 9 contains (id), 10 lookup (id), 11 state, 12 why (windows u16, length of the id u16, id,
// topic), 21 as 1, and then flags u16 (bit 0: unsigned messages are allowed; bit 1: groups are passed over), 22 and 25 an edition u8 (0 is 1.1, 1 is
// 1.2), and then as 2 and 5, 26 serve (edition u8, room u32, length of the lent body u32, lent body, body). The stores are lent as long as the
// settings say until a record of kind 7.
#![tactic(auto)]

mod calls;
mod hurt;
mod state;

use calls::call;
use play::calls::{Run, nothing, stop};
use text::{Header, HeaderError, next_record};

// Reads a record and answers it.
fn turn(
    n: u64,
    content: &mut [u8; 65600],
    run: Run,
    seen_store: &mut [u8],
    cache_store: &mut [u8],
    made: &mut [u8],
    out: &mut [u8],
) -> Run {
    match next_record(content, 65600) {
        Ok(None) => stop(run, b""),
        Err(HeaderError::Bad) => stop(run, b"bad\n"),
        Err(HeaderError::Long) => stop(run, b"long\n"),
        Ok(Some(Header { kind, len })) => call(
            n,
            kind,
            &content[..len],
            run,
            seen_store,
            cache_store,
            made,
            out,
        ),
    }
}

// The count of records only bounds the loop: no run uses it up.
fn main() {
    let mut content = [0u8; 65600];
    let mut seen_store = [0u8; 33282];
    let mut cache_store = [0u8; 266240];
    let mut made = [0u8; 65600];
    let mut out = [0u8; 131350];
    let mut run = nothing();
    for n in 1..u64::MAX {
        run = turn(
            n,
            &mut content,
            run,
            &mut seen_store,
            &mut cache_store,
            &mut made,
            &mut out,
        );
        if !run.go {
            break;
        }
    }
}
