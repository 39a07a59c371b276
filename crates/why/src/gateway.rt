// Kind 13: a node's bytes, then its seen store and its cache store.
ghost use Rattle.std.specs.Prelude.{◌≡◌, ◌≤◌, length, take};
ghost use Rattle.stored.specs.Layout.{node_size, node_in};
ghost use Rattle.why.specs.Given.{given_of, Gives};

use answers::gateway_line;
use basis::{Fault, told_fine};
use node::Node;
use play::calls::{Run, places_len, print, rows_len};
use protobuf::put_bytes;
use seen::ID_SIZE;
use stored::{NODE_SIZE, load};

// The node whose bytes these begin with.
fn node_in(content: &[u8]) -> Node
    requires { node_size ≤ length content.now }
    ensures { result ≡ node_in (take node_size content.now) }
{
    let mut bytes = [0u8; NODE_SIZE];
    put_bytes(&mut bytes, 0, &content[..NODE_SIZE]);
    load(&bytes)
}

// Whether the bytes behind a node are its stores, as long as its maxima say, and can be used with it. The maxima can be any numbers; that the cache
// store is as long as it should be, the node tests.
fn given(node: Node, rest: &[u8]) -> Result<(), Fault>
    ensures { result ≡ given_of node rest.now }
{
    if rest.len() / ID_SIZE < node.max_seen {
        return Err(Fault::BadStore);
    }
    let seen_len = node.max_seen * ID_SIZE;
    node.lent(&rest[..seen_len], &rest[seen_len..])
}

// Where they are, they are put at the front of the buffers.
fn take_stores(
    node: Node,
    rest: &[u8],
    seen_store: &mut [u8],
    cache_store: &mut [u8],
) -> Result<(), Fault>
    ensures { Gives node rest.now seen_store.old cache_store.old result
        seen_store.new cache_store.new }
{
    given(node, rest)?;
    let seen_len = node.max_seen * ID_SIZE;
    put_bytes(seen_store, 0, &rest[..seen_len]);
    put_bytes(cache_store, 0, &rest[seen_len..]);
    Ok(())
}

// A refused gateway changes nothing.
pub(crate) fn take_gateway(
    n: u64,
    content: &[u8],
    mut run: Run,
    seen_store: &mut [u8],
    cache_store: &mut [u8],
    out: &mut [u8],
) -> Run
    requires { node_size ≤ length content.now }
{
    let node = node_in(content);
    let lent = take_stores(node, &content[NODE_SIZE..], seen_store, cache_store);
    let k = gateway_line(n, told_fine(lent), out);
    if lent.is_err() {
        return print(out, k, run.node, run);
    }
    run.started = true;
    run.seen_len = rows_len(node.max_seen);
    run.cache_len = places_len(node.cache.max_messages);
    print(out, k, node, run)
}
