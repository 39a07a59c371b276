// Which key and which peer id some bytes are. An answer takes at most 131,227 bytes: ` key`, a number, ` =` and the hex of 65,600.
ghost use Rattle.std.specs.Prelude.{◌+◌, ◌≤◌, ◌++◌, length, drop};
ghost use Rattle.text.specs.Line.{Puts};
ghost use Rattle.peer_id.specs.PeerId.{digest_of};
ghost use Rattle.inspect.specs.Records.{bytes_text};
ghost use Rattle.inspect.specs.Senders.{key_text, peer_id_text, key_answer, peer_answer};

use super::records::put_bytes;
use key::told::{code_of, told_key};
use key::{PublicKey, PublicKeyError};
use lines::{put_refusal, put_value, put_word};
use peer_id::told::told_peer_id;
use peer_id::{DIGEST_START, PeerId};

// The bytes from `start` on; a key of no data has none there.
fn put_rest(out: &mut [u8], at: usize, s: &[u8], start: usize) -> usize
    requires s_len_bound { length s.now ≤ 65600 }
    requires at_in_bounds { at + 131202 ≤ length out.old }
    ensures { Puts 131202 (bytes_text (drop start s.now)) out.old at out.new result }
{
    if s.len() <= start {
        return put_word(out, at, b" =");
    }
    put_bytes(out, at, &s[start..])
}

// The key that s was decoded as: its type and its data.
fn put_key(out: &mut [u8], at: usize, s: &[u8], key: Result<PublicKey, PublicKeyError>) -> usize
    requires s_len_bound { length s.now ≤ 65600 }
    requires at_in_bounds { at + 131223 ≤ length out.old }
    ensures { Puts 131223 (key_text s.now key) out.old at out.new result }
{
    match key {
        Ok(found) => {
            let i = put_value(out, at, code_of(found.key_type));
            put_rest(out, i, s, found.start)
        }
        Err(_) => put_refusal(out, at, told_key(key)),
    }
}

// A hash and the digest of the peer id s.
fn put_digest(out: &mut [u8], at: usize, word: &[u8], s: &[u8]) -> usize
    requires s_len_bound { length s.now ≤ 65600 }
    requires word_in_bounds { at + (length word.now + 131202) ≤ length out.old }
    ensures { Puts (length word.now + 131202) (word.now ++ bytes_text (digest_of s.now)) out.old at out.new result }
{
    let i = put_word(out, at, word);
    put_rest(out, i, s, DIGEST_START)
}

// The peer id that s was read as.
fn put_peer_id(out: &mut [u8], at: usize, s: &[u8], peer: Option<PeerId>) -> usize
    requires s_len_bound { length s.now ≤ 65600 }
    requires at_in_bounds { at + 131211 ≤ length out.old }
    ensures { Puts 131211 (peer_id_text s.now peer) out.old at out.new result }
{
    match peer {
        Some(PeerId::Identity) => put_digest(out, at, b" identity", s),
        Some(PeerId::Sha256) => put_digest(out, at, b" sha256", s),
        None => put_refusal(out, at, told_peer_id(peer)),
    }
}

// Kind 8.
pub(crate) fn answer_key(content: &[u8], out: &mut [u8], at: usize) -> usize
    requires content_len_bound { length content.now ≤ 65600 }
    requires at_in_bounds { at + 131227 ≤ length out.old }
    ensures { Puts 131227 (key_answer content.now) out.old at out.new result }
{
    let key = key::decode_protobuf(content);
    let i = put_word(out, at, b" key");
    put_key(out, i, content, key)
}

// Kind 9.
pub(crate) fn answer_peer(content: &[u8], out: &mut [u8], at: usize) -> usize
    requires content_len_bound { length content.now ≤ 65600 }
    requires at_in_bounds { at + 131227 ≤ length out.old }
    ensures { Puts 131227 (peer_answer content.now) out.old at out.new result }
{
    let peer = peer_id::from_bytes(content);
    let i = put_word(out, at, b" peer");
    put_peer_id(out, i, content, peer)
}
