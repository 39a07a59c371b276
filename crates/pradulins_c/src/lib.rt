// What C and Rust programs link: each call of the crate pradulins under its own name, with the same clauses.
#![tactic(auto)]

ghost use Rattle.pradulins.specs.Unique.{Starts, Admits, Beats, Advertises, Explains, Asks, Serves, Settles, States};
ghost use Rattle.pradulins.specs.Unique.{Encodes, Signs, Identifies, Decodes, Walks, Writes, SignsFields};
ghost use Rattle.std.specs.Prelude.{◌≡◌};
ghost use Rattle.pradulins.specs.Holds.{version_number, format_number};

use stored::NODE_SIZE;

// A node that holds nothing, in the lent bytes. Of the flags bit 0 allows unsigned messages, and bit 1 is the mode: the node passes over groups.
#[unsafe(no_mangle)]
pub extern "C" fn pradulins_start(
    node: &mut [u8; NODE_SIZE],
    ttl: u64,
    max_seen: usize,
    history_len: usize,
    max_messages: usize,
    flags: u32,
) -> u32
    ensures { Starts node.old ttl max_seen history_len max_messages flags result node.new }
{
    pradulins::pradulins_start(node, ttl, max_seen, history_len, max_messages, flags)
}

// Admits the message at an index of a body, with the host's word on its signature, at a reading of the clock. The body is read in the edition of its
// stream and in the node's mode; here and below only the lowest bit of an edition counts.
#[unsafe(no_mangle)]
pub extern "C" fn pradulins_admit(
    node: &mut [u8; NODE_SIZE],
    seen_store: &mut [u8],
    cache_store: &mut [u8],
    edition: u32,
    body: &[u8],
    index: usize,
    verified: bool,
    at: u64,
    values: &mut [u64; 8],
) -> u32
    ensures { Admits node.old seen_store.old cache_store.old
        edition body.now index verified at values.old result values.new node.new
        seen_store.new cache_store.new }
{
    pradulins::pradulins_admit(
        node,
        seen_store,
        cache_store,
        edition,
        body,
        index,
        verified,
        at,
        values,
    )
}

// Opens a window at a reading of the clock.
#[unsafe(no_mangle)]
pub extern "C" fn pradulins_heartbeat(
    node: &mut [u8; NODE_SIZE],
    seen_store: &[u8],
    cache_store: &[u8],
    at: u64,
    values: &mut [u64; 8],
) -> u32
    ensures { Beats node.old seen_store.now cache_store.now at
        values.old result values.new node.new }
{
    pradulins::pradulins_heartbeat(node, seen_store, cache_store, at, values)
}

// Writes what the node tells of a topic, from so many of the newest windows.
#[unsafe(no_mangle)]
pub extern "C" fn pradulins_advertise(
    node: &[u8; NODE_SIZE],
    seen_store: &[u8],
    cache_store: &[u8],
    topic: &[u8],
    windows: usize,
    out: &mut [u8],
    values: &mut [u64; 8],
) -> u32
    ensures { Advertises node.now seen_store.now cache_store.now
        topic.now windows out.old values.old result values.new
        out.new }
{
    pradulins::pradulins_advertise(node, seen_store, cache_store, topic, windows, out, values)
}

// Whether an id stands in what the node tells of a topic from so many of the newest windows, and why not: the first value is 0 where it does, 1 where
// no message with it is cached, 2 where that one does not carry the topic, 3 where its window is older, whose age is then the second.
#[unsafe(no_mangle)]
pub extern "C" fn pradulins_explain(
    node: &[u8; NODE_SIZE],
    seen_store: &[u8],
    cache_store: &[u8],
    id: &[u8],
    topic: &[u8],
    windows: usize,
    values: &mut [u64; 8],
) -> u32
    ensures { Explains node.now seen_store.now cache_store.now
        id.now topic.now windows values.old result values.new }
{
    pradulins::pradulins_explain(node, seen_store, cache_store, id, topic, windows, values)
}

// Writes a request for what the IHAVEs of a body name and the node has not seen.
#[unsafe(no_mangle)]
pub extern "C" fn pradulins_ask(
    node: &[u8; NODE_SIZE],
    seen_store: &[u8],
    cache_store: &[u8],
    edition: u32,
    body: &[u8],
    out: &mut [u8],
    values: &mut [u64; 8],
) -> u32
    ensures { Asks node.now seen_store.now cache_store.now
        edition body.now out.old values.old result values.new out.new }
{
    pradulins::pradulins_ask(node, seen_store, cache_store, edition, body, out, values)
}

// Writes the cached messages that the IWANTs of a body name and the IDONTWANTs of a second one do not, as many as there is room for.
#[unsafe(no_mangle)]
pub extern "C" fn pradulins_serve(
    node: &[u8; NODE_SIZE],
    seen_store: &[u8],
    cache_store: &[u8],
    edition: u32,
    body: &[u8],
    unwanted: &[u8],
    out: &mut [u8],
    values: &mut [u64; 8],
) -> u32
    ensures { Serves node.now seen_store.now cache_store.now
        edition body.now unwanted.now out.old values.old result values.new out.new }
{
    pradulins::pradulins_serve(
        node,
        seen_store,
        cache_store,
        edition,
        body,
        unwanted,
        out,
        values,
    )
}

// The settings that a node was started with; the flags are the fifth value.
#[unsafe(no_mangle)]
pub extern "C" fn pradulins_settings(node: &[u8; NODE_SIZE], values: &mut [u64; 8]) -> u32
    ensures { Settles node.now values.old result values.new }
{
    pradulins::pradulins_settings(node, values)
}

// Its clock, and how many ids and messages it keeps.
#[unsafe(no_mangle)]
pub extern "C" fn pradulins_state(
    node: &[u8; NODE_SIZE],
    seen_store: &[u8],
    cache_store: &[u8],
    values: &mut [u64; 8],
) -> u32
    ensures { States node.now seen_store.now cache_store.now
        values.old result values.new }
{
    pradulins::pradulins_state(node, seen_store, cache_store, values)
}

// Writes a body anew in canonical bytes. Two bits of a dialect count, here and below: bit 0 is the edition, bit 1 the mode, in which groups are passed
// over.
#[unsafe(no_mangle)]
pub extern "C" fn pradulins_encode(
    dialect: u32,
    body: &[u8],
    out: &mut [u8],
    values: &mut [u64; 8],
) -> u32
    ensures { Encodes dialect body.now out.old values.old result values.new
        out.new }
{
    pradulins::pradulins_encode(dialect, body, out, values)
}

// Writes the bytes to sign of the message at an index.
#[unsafe(no_mangle)]
pub extern "C" fn pradulins_sign_bytes(
    dialect: u32,
    body: &[u8],
    index: usize,
    out: &mut [u8],
    values: &mut [u64; 8],
) -> u32
    ensures { Signs dialect body.now index out.old values.old result values.new
        out.new }
{
    pradulins::pradulins_sign_bytes(dialect, body, index, out, values)
}

// Writes the id of the message at an index.
#[unsafe(no_mangle)]
pub extern "C" fn pradulins_message_id(
    dialect: u32,
    body: &[u8],
    index: usize,
    out: &mut [u8],
    values: &mut [u64; 8],
) -> u32
    ensures { Identifies dialect body.now index out.old values.old result
        values.new out.new }
{
    pradulins::pradulins_message_id(dialect, body, index, out, values)
}

// Decodes a body into a table of records, 20 numbers each.
#[unsafe(no_mangle)]
pub extern "C" fn pradulins_decode(
    dialect: u32,
    body: &[u8],
    table: &mut [u64],
    values: &mut [u64; 8],
) -> u32
    ensures { Decodes dialect body.now table.old values.old result values.new
        table.new }
{
    pradulins::pradulins_decode(dialect, body, table, values)
}

// The top-level field at a place of a body; of the dialect only the mode matters.
#[unsafe(no_mangle)]
pub extern "C" fn pradulins_walk(dialect: u32, body: &[u8], at: usize, values: &mut [u64; 8]) -> u32
    ensures { Walks dialect body.now at values.old result values.new }
{
    pradulins::pradulins_walk(dialect, body, at, values)
}

// Writes the RPC that rows of a table of records say, over lent bytes, under flags.
#[unsafe(no_mangle)]
pub extern "C" fn pradulins_write_rpc(
    records: &[u64],
    bytes: &[u8],
    flags: u32,
    out: &mut [u8],
    values: &mut [u64; 8],
) -> u32
    ensures { Writes records.now bytes.now flags out.old values.old result
        values.new out.new }
{
    pradulins::pradulins_write_rpc(records, bytes, flags, out, values)
}

// Writes the bytes to sign of the message at an index of such rows.
#[unsafe(no_mangle)]
pub extern "C" fn pradulins_sign_fields(
    records: &[u64],
    bytes: &[u8],
    index: usize,
    out: &mut [u8],
    values: &mut [u64; 8],
) -> u32
    ensures { SignsFields records.now bytes.now index out.old
        values.old result values.new out.new }
{
    pradulins::pradulins_sign_fields(records, bytes, index, out, values)
}

// The version that the archive was made of.
#[unsafe(no_mangle)]
pub extern "C" fn pradulins_version() -> u32
    ensures { result ≡ version_number }
{
    pradulins::pradulins_version()
}

// The format of a node's bytes.
#[unsafe(no_mangle)]
pub extern "C" fn pradulins_format() -> u32
    ensures { result ≡ format_number }
{
    pradulins::pradulins_format()
}
