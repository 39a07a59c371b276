// A node as bytes that a host keeps between two calls: NODE_SIZE of them, each number with its lowest byte first. Every such bytes are some node;
// whether it is well formed each call tests.
#![tactic(auto)]

ghost use Rattle.std.specs.Prelude.{◌≡◌, ◌+◌, ◌*◌, ◌≤◌, length, take, drop};
ghost use Rattle.std.proofs.lemmas.List.Edits.{sets};
ghost use Rattle.basis.specs.Little.{little};
ghost use Rattle.protobuf.specs.Walk.{between};
ghost use Rattle.stored.specs.Layout.{spread, gathered, node_size, node_bytes, node_in};

use basis::{little_at, put_little};
use mcache::MessageCache;
use node::Node;
use protobuf::put_bytes;
use seen::SeenCache;

pub const NODE_SIZE: usize = 12440;

// ---- reading

// The number in the 8 bytes at a place.
fn read_word(s: &[u8], at: usize) -> u64
    requires { at + 8 ≤ length s.now }
    ensures { result ≡ little (take 8 (drop at s.now)) }
{
    little_at(s, at, 8)
}

// The numbers in the bytes from a place on, 8 bytes each, as many as out holds.
fn read_words(s: &[u8], at: usize, out: &mut [u64])
    requires { at + 8 * length out.old ≤ length s.now }
    ensures { out.new ≡ gathered 8 (length out.old) (drop at s.now) }
{
    for (i, word) in out.iter_mut().enumerate() {
        *word = read_word(s, at + i * 8);
    }
}

// The number in 2 bytes. A node has 576 of these: with the bytes written out, reading them all costs little more than a copy.
fn read_half(s: &[u8], at: usize) -> u16
    requires { at + 2 ≤ length s.now }
    ensures { result ≡ little (take 2 (drop at s.now)) }
{
    s[at] as u16 + s[at + 1] as u16 * 256
}

// And those of 2 bytes each.
fn read_halves(s: &[u8], at: usize, out: &mut [u16])
    requires { at + 2 * length out.old ≤ length s.now }
    ensures { out.new ≡ gathered 2 (length out.old) (drop at s.now) }
{
    for (i, half) in out.iter_mut().enumerate() {
        *half = read_half(s, at + i * 2);
    }
}

// The ids seen.
fn seen_in(s: &[u8]) -> SeenCache
    requires { length s.now ≡ node_size }
    ensures { result ≡ (node_in s.now).seen }
{
    let mut expiry = [0u64; 256];
    read_words(s, 80, &mut expiry);
    let mut len = [0u8; 256];
    put_bytes(&mut len, 0, &s[2768..3024]);
    SeenCache {
        start: read_word(s, 24) as usize,
        count: read_word(s, 32) as usize,
        expiry: expiry,
        len: len,
    }
}

// A byte for each of the 64 rows, from a place on.
fn column_at(s: &[u8], at: usize) -> [u8; 64]
    requires { at + 64 ≤ length s.now }
    ensures { result ≡ between s.now at (at + 64) }
{
    let mut out = [0u8; 64];
    put_bytes(&mut out, 0, &s[at..at + 64]);
    out
}

// A number of 2 bytes for each of the four slots of each row, from a place on.
fn slots_at(s: &[u8], at: usize) -> [u16; 256]
    requires { at + 512 ≤ length s.now }
    ensures { result ≡ gathered 2 256 (drop at s.now) }
{
    let mut out = [0u16; 256];
    read_halves(s, at, &mut out);
    out
}

// The messages held.
fn cache_in(s: &[u8]) -> MessageCache
    requires { length s.now ≡ node_size }
    ensures { result ≡ (node_in s.now).cache }
{
    let mut generation = [0u64; 64];
    read_words(s, 2128, &mut generation);
    let mut len = [0u16; 64];
    read_halves(s, 2640, &mut len);
    let mut ids = [0u8; 8192];
    put_bytes(&mut ids, 0, &s[3152..11344]);
    MessageCache {
        history_len: read_word(s, 40) as usize,
        max_messages: read_word(s, 48) as usize,
        next_generation: read_word(s, 56),
        start: read_word(s, 64) as usize,
        count: read_word(s, 72) as usize,
        generation: generation,
        window: column_at(s, 3024),
        len: len,
        id_len: column_at(s, 3088),
        ids: ids,
        topic_count: column_at(s, 11344),
        topic_start: slots_at(s, 11408),
        topic_len: slots_at(s, 11920),
        flags: read_word(s, 12432) as usize,
    }
}

// The node that bytes are.
pub fn load(bytes: &[u8; NODE_SIZE]) -> Node
    ensures { result ≡ node_in bytes.now }
{
    Node {
        ttl: read_word(bytes, 0),
        max_seen: read_word(bytes, 8) as usize,
        clock: read_word(bytes, 16),
        seen: seen_in(bytes),
        cache: cache_in(bytes),
    }
}

// ---- writing

// The bytes of numbers, 8 each, from a place on.
fn write_words(out: &mut [u8], at: usize, values: &[u64])
    requires { at + 8 * length values.now ≤ length out.old }
    ensures { out.new ≡ sets out.old at (spread 8 values.now) }
{
    for (i, value) in values.iter().enumerate() {
        put_little(out, at + i * 8, 8, *value);
    }
}

// And 2 each.
fn write_halves(out: &mut [u8], at: usize, values: &[u16])
    requires { at + 2 * length values.now ≤ length out.old }
    ensures { out.new ≡ sets out.old at (spread 2 values.now) }
{
    for (i, value) in values.iter().enumerate() {
        put_little(out, at + i * 2, 2, *value as u64);
    }
}

// The bytes of a node.
pub fn store(node: Node, out: &mut [u8; NODE_SIZE])
    ensures { out.new ≡ node_bytes node }
{
    let head = [
        node.ttl,
        node.max_seen as u64,
        node.clock,
        node.seen.start as u64,
        node.seen.count as u64,
        node.cache.history_len as u64,
        node.cache.max_messages as u64,
        node.cache.next_generation,
        node.cache.start as u64,
        node.cache.count as u64,
    ];
    write_words(out, 0, &head);
    write_words(out, 80, &node.seen.expiry);
    write_words(out, 2128, &node.cache.generation);
    write_halves(out, 2640, &node.cache.len);
    put_bytes(out, 2768, &node.seen.len);
    put_bytes(out, 3024, &node.cache.window);
    put_bytes(out, 3088, &node.cache.id_len);
    put_bytes(out, 3152, &node.cache.ids);
    put_bytes(out, 11344, &node.cache.topic_count);
    write_halves(out, 11408, &node.cache.topic_start);
    write_halves(out, 11920, &node.cache.topic_len);
    put_little(out, 12432, 8, node.cache.flags as u64);
}
