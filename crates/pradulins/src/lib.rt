// The library as C and Rust programs link it, by pradulins_c. Each call answers a number, 0 or the refusal's in the table of refusals; `values`, where it is lent, gets what stands
// beside it, at most four numbers (settings are five), and then the place of a refusal. The node lives in NODE_SIZE bytes that the host lends, its two stores in slices. A
// refused call changes no buffer and no node.
#![tactic(auto)]

ghost use Rattle.std.specs.Prelude.{◌≡◌};
ghost use Rattle.std.proofs.lemmas.List.Edits.{sets};
ghost use Rattle.basis.specs.Told.{values_of};
ghost use Rattle.pradulins.specs.Handed.{spot_words, handed};
ghost use Rattle.pradulins.specs.Holds.{settings_told, state_told, version_number, format_number};
ghost use Rattle.pradulins.specs.Unique.{Starts, Admits, Beats, Advertises, Explains, Asks, Serves, Settles, States};
ghost use Rattle.pradulins.specs.Unique.{Encodes, Signs, Identifies, Decodes, Walks, Writes, SignsFields};

use basis::{Spot, Told, dialect_of, edition_of, refusals};
use compose::told::told_composed;
use compose::{sign_fields, write_rpc};
use encode::{encode, sign_bytes};
use ids::message_id;
use ids::told::told_message;
use message::decode;
use message::told::told_decoded;
use node::Node;
use node::told::{told_admit, told_advertise, told_ask, told_beat, told_explain, told_serve};
use protobuf::Cursor;
use protobuf::told::{told_encoded, told_walk};
use stored::{NODE_SIZE, load, store};

pub const VERSION: u32 = 900;

pub const FORMAT: u32 = 3;

// Hands out the values beside a number, as many as are counted.
fn tell_values(t: Told, values: &mut [u64; 8])
    ensures { values.new ≡ sets values.old 0 (values_of t) }
{
    if t.count == 0 {
        return;
    }
    values[0] = t.first;
    if t.count == 1 {
        return;
    }
    values[1] = t.second;
    if t.count == 2 {
        return;
    }
    values[2] = t.third;
    if t.count == 3 {
        return;
    }
    values[3] = t.fourth;
}

// Hands out the place of a refusal.
fn tell_spot(spot: Option<Spot>, values: &mut [u64; 8])
    ensures { values.new ≡ sets values.old 4 (spot_words spot) }
{
    let Some(spot) = spot else {
        return;
    };
    values[4] = spot.offset as u64;
    values[5] = spot.outer;
    values[6] = spot.middle;
    values[7] = spot.inner;
}

// What a call tells: its values and its place are handed out, its number is returned.
fn tell(t: Told, values: &mut [u64; 8]) -> u32
    ensures value { result ≡ t.number }
    ensures values_after { values.new ≡ handed t values.old }
{
    tell_values(t, values);
    tell_spot(t.spot, values);
    t.number as u32
}

// ---- the node

// A node that holds nothing, in the lent bytes. Of the flags bit 0 allows unsigned messages, and bit 1 is the mode: the node passes over groups.
pub fn pradulins_start(
    node: &mut [u8; NODE_SIZE],
    ttl: u64,
    max_seen: usize,
    history_len: usize,
    max_messages: usize,
    flags: u32,
) -> u32
    ensures { Starts node.old ttl max_seen history_len max_messages flags result node.new }
{
    let s = Node::start(ttl, max_seen, history_len, max_messages, flags as usize);
    match s.answer {
        Ok(()) => {
            store(s.node, node);
            0
        }
        Err(why) => why.told().number as u32,
    }
}

// Admits the message at an index of a body, with the host's word on its signature, at a reading of the clock. The body is read in the edition of its
// stream and in the node's mode; here and below only the lowest bit of an edition counts.
pub fn pradulins_admit(
    node: &mut [u8; NODE_SIZE],
    seen_store: &mut [u8],
    cache_store: &mut [u8],
    edition: u32,
    body: &[u8],
    index: usize,
    verified: bool,
    at: u64,
    values: &mut [u64; 8],
) -> u32
    ensures { Admits node.old seen_store.old cache_store.old
        edition body.now index verified at values.old result values.new node.new
        seen_store.new cache_store.new }
{
    let n = load(node);
    let spoken = edition_of(edition as u64);
    let r = n.admit(seen_store, cache_store, spoken, body, index, verified, at);
    store(r.node, node);
    tell(told_admit(r.answer), values)
}

// Opens a window at a reading of the clock.
pub fn pradulins_heartbeat(
    node: &mut [u8; NODE_SIZE],
    seen_store: &[u8],
    cache_store: &[u8],
    at: u64,
    values: &mut [u64; 8],
) -> u32
    ensures { Beats node.old seen_store.now cache_store.now at
        values.old result values.new node.new }
{
    let n = load(node);
    let r = n.heartbeat(seen_store, cache_store, at);
    store(r.node, node);
    tell(told_beat(r.answer), values)
}

// Writes what the node tells of a topic, from so many of the newest windows.
pub fn pradulins_advertise(
    node: &[u8; NODE_SIZE],
    seen_store: &[u8],
    cache_store: &[u8],
    topic: &[u8],
    windows: usize,
    out: &mut [u8],
    values: &mut [u64; 8],
) -> u32
    ensures { Advertises node.now seen_store.now cache_store.now
        topic.now windows out.old values.old result values.new
        out.new }
{
    let n = load(node);
    let r = n.advertise(seen_store, cache_store, topic, windows, out);
    tell(told_advertise(r.answer), values)
}

// Whether an id stands in what the node tells of a topic from so many of the newest windows, and why not: the first value is 0 where it does, 1 where
// no message with it is cached, 2 where that one does not carry the topic, 3 where its window is older, whose age is then the second.
pub fn pradulins_explain(
    node: &[u8; NODE_SIZE],
    seen_store: &[u8],
    cache_store: &[u8],
    id: &[u8],
    topic: &[u8],
    windows: usize,
    values: &mut [u64; 8],
) -> u32
    ensures { Explains node.now seen_store.now cache_store.now
        id.now topic.now windows values.old result values.new }
{
    let n = load(node);
    let r = n.explain(seen_store, cache_store, id, topic, windows);
    tell(told_explain(r.answer), values)
}

// Writes a request for what the IHAVEs of a body name and the node has not seen.
pub fn pradulins_ask(
    node: &[u8; NODE_SIZE],
    seen_store: &[u8],
    cache_store: &[u8],
    edition: u32,
    body: &[u8],
    out: &mut [u8],
    values: &mut [u64; 8],
) -> u32
    ensures { Asks node.now seen_store.now cache_store.now
        edition body.now out.old values.old result values.new out.new }
{
    let n = load(node);
    let spoken = edition_of(edition as u64);
    let r = n.ask(seen_store, cache_store, spoken, body, out);
    tell(told_ask(r.answer), values)
}

// Writes the cached messages that the IWANTs of a body name and the IDONTWANTs of a second one do not, as many as there is room for.
pub fn pradulins_serve(
    node: &[u8; NODE_SIZE],
    seen_store: &[u8],
    cache_store: &[u8],
    edition: u32,
    body: &[u8],
    unwanted: &[u8],
    out: &mut [u8],
    values: &mut [u64; 8],
) -> u32
    ensures { Serves node.now seen_store.now cache_store.now
        edition body.now unwanted.now out.old values.old result values.new out.new }
{
    let n = load(node);
    let spoken = edition_of(edition as u64);
    let r = n.serve(seen_store, cache_store, spoken, body, unwanted, out);
    tell(told_serve(r.answer), values)
}

// ---- what a node holds

// What the settings of a node tell: a node can be started with them, or it is not well formed.
fn told_settings(n: Node) -> Told
    ensures { result ≡ settings_told n }
{
    let cache = n.cache;
    let s = Node::start(
        n.ttl,
        n.max_seen,
        cache.history_len,
        cache.max_messages,
        cache.flags,
    );
    match s.answer {
        Ok(()) => Told::four(
            0,
            n.ttl,
            n.max_seen as u64,
            cache.history_len as u64,
            cache.max_messages as u64,
        ),
        Err(_) => Told::none(refusals::MALFORMED),
    }
}

// What clock and counts of a node tell, where it can be used with its stores.
fn told_state(n: Node, seen_store: &[u8], cache_store: &[u8]) -> Told
    ensures { result ≡ state_told n seen_store.now cache_store.now }
{
    match n.lent(seen_store, cache_store) {
        Ok(()) => Told::three(0, n.clock, n.seen.count as u64, n.cache.count as u64),
        Err(why) => why.told(),
    }
}

// The settings that a node was started with; the flags are the fifth value.
pub fn pradulins_settings(node: &[u8; NODE_SIZE], values: &mut [u64; 8]) -> u32
    ensures { Settles node.now values.old result values.new }
{
    let n = load(node);
    let number = tell(told_settings(n), values);
    if number == 0 {
        values[4] = n.cache.flags as u64;
        return 0;
    }
    number
}

// Its clock, and how many ids and messages it keeps.
pub fn pradulins_state(
    node: &[u8; NODE_SIZE],
    seen_store: &[u8],
    cache_store: &[u8],
    values: &mut [u64; 8],
) -> u32
    ensures { States node.now seen_store.now cache_store.now
        values.old result values.new }
{
    let n = load(node);
    tell(told_state(n, seen_store, cache_store), values)
}

// ---- bodies

// Writes a body anew in canonical bytes. Two bits of a dialect count, here and below: bit 0 is the edition, bit 1 the mode, in which groups are passed
// over.
pub fn pradulins_encode(dialect: u32, body: &[u8], out: &mut [u8], values: &mut [u64; 8]) -> u32
    ensures { Encodes dialect body.now out.old values.old result values.new
        out.new }
{
    let spoken = dialect_of(dialect as u64);
    let answer = encode(spoken, body, out);
    tell(told_encoded(answer), values)
}

// Writes the bytes to sign of the message at an index.
pub fn pradulins_sign_bytes(
    dialect: u32,
    body: &[u8],
    index: usize,
    out: &mut [u8],
    values: &mut [u64; 8],
) -> u32
    ensures { Signs dialect body.now index out.old values.old result values.new
        out.new }
{
    let spoken = dialect_of(dialect as u64);
    let answer = sign_bytes(spoken, body, index, out);
    tell(told_message(answer), values)
}

// Writes the id of the message at an index.
pub fn pradulins_message_id(
    dialect: u32,
    body: &[u8],
    index: usize,
    out: &mut [u8],
    values: &mut [u64; 8],
) -> u32
    ensures { Identifies dialect body.now index out.old values.old result
        values.new out.new }
{
    let spoken = dialect_of(dialect as u64);
    let answer = message_id(spoken, body, index, out);
    tell(told_message(answer), values)
}

// Decodes a body into a table of records, 20 numbers each.
pub fn pradulins_decode(dialect: u32, body: &[u8], table: &mut [u64], values: &mut [u64; 8]) -> u32
    ensures { Decodes dialect body.now table.old values.old result values.new
        table.new }
{
    let spoken = dialect_of(dialect as u64);
    let answer = decode(spoken, body, table);
    tell(told_decoded(answer), values)
}

// The top-level field at a place of a body; of the dialect only the mode matters.
pub fn pradulins_walk(dialect: u32, body: &[u8], at: usize, values: &mut [u64; 8]) -> u32
    ensures { Walks dialect body.now at values.old result values.new }
{
    let spoken = dialect_of(dialect as u64);
    let cursor = Cursor { at };
    let answer = cursor.step(spoken.mode, body);
    tell(told_walk(answer), values)
}

// ---- speaking first

// Writes the RPC that rows of a table of records say, over lent bytes, under flags.
pub fn pradulins_write_rpc(
    records: &[u64],
    bytes: &[u8],
    flags: u32,
    out: &mut [u8],
    values: &mut [u64; 8],
) -> u32
    ensures { Writes records.now bytes.now flags out.old values.old result
        values.new out.new }
{
    let answer = write_rpc(records, bytes, flags as usize, out);
    tell(told_composed(answer), values)
}

// Writes the bytes to sign of the message at an index of such rows.
pub fn pradulins_sign_fields(
    records: &[u64],
    bytes: &[u8],
    index: usize,
    out: &mut [u8],
    values: &mut [u64; 8],
) -> u32
    ensures { SignsFields records.now bytes.now index out.old
        values.old result values.new out.new }
{
    let answer = sign_fields(records, bytes, index, out);
    tell(told_composed(answer), values)
}

// ---- the archive

// The version that the archive was made of.
pub fn pradulins_version() -> u32
    ensures { result ≡ version_number }
{
    VERSION
}

// The format of a node's bytes.
pub fn pradulins_format() -> u32
    ensures { result ≡ format_number }
{
    FORMAT
}
