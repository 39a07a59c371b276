// Unsigned varints, from peer_id.rs: groups of seven bits, the low group first. And which bytes are a peer id.
#![tactic(auto)]

pub mod told;

ghost use Rattle.std.specs.Prelude.{◌≡◌, ◌+◌, ◌≤◌, length};
ghost use Rattle.std.proofs.lemmas.List.Edits.{sets};
ghost use Rattle.basis.specs.Writing.{answer, written, end_in, set_in};
ghost use Rattle.basis.specs.Unique.{Leaves};
ghost use Rattle.peer_id.specs.Uvarint.{uvarint, group_of, read_uvarint};
ghost use Rattle.peer_id.specs.PeerId.{hash_of, from_bytes};

use basis::{ShortRoom, has_room};

// Why there is no varint: refusals 1, 2 and 3.
#[derive(Clone, Copy)]
pub enum VarintError {
    BufferTooShort,
    Overflow,
    NonCanonical,
}

// What a byte says of the varint that it stands in: more bytes follow, or it is the last.
#[derive(Clone, Copy)]
pub enum Group {
    More,
    Last,
}

// What the byte b says, with k bytes before it.
#[tactic(auto, unfolding(crate::specs::Uvarint::group_of))]
fn group_says(k: usize, b: u8) -> Result<Group, VarintError>
    ensures { result ≡ group_of k b }
{
    match (k, b) {
        (9, 2..) => Err(VarintError::Overflow),
        (1.., 0) => Err(VarintError::NonCanonical),
        (_, 128..) => Ok(Group::More),
        _ => Ok(Group::Last),
    }
}

// The varint that the input begins with, and how many bytes it took.
pub fn read_uvarint(input: &[u8]) -> Result<(u64, usize), VarintError>
    ensures { result ≡ read_uvarint input.now }
{
    let mut value: u64 = 0;
    let mut weight: u64 = 1;
    for (k, &b) in input.iter().enumerate() {
        match group_says(k, b)? {
            Group::Last => return Ok((value + weight * (b as u64), k + 1)),
            Group::More => {
                value += weight * (b as u64 % 128);
                weight *= 128;
            }
        }
    }
    Err(VarintError::BufferTooShort)
}

// How many bytes a value takes: the bits that it needs, at least one, divided by seven and rounded up.
pub fn uvarint_len(value: u64) -> usize
    ensures { result ≡ length (uvarint value) }
{
    let bits = (64 - value.leading_zeros()).max(1);
    ((bits + 6) / 7) as usize
}

// Writes a value at `at`, where it fits, and says where it ends.
fn spell_uvarint(value: u64, out: &mut [u8], at: usize) -> usize
    requires { at + length (uvarint value) ≤ length out.old }
    ensures value { result ≡ at + length (uvarint value) }
    ensures out_after { out.new ≡ sets out.old at (uvarint value) }
{
    let mut v = value;
    let mut i = at;
    while 128 <= v {
        out[i] = (v % 128) as u8 + 128;
        v /= 128;
        i += 1;
    }
    out[i] = v as u8;
    i + 1
}

// Writes a value at `at` and says where it ends; where it does not fit, it writes nothing and says `at`.
#[tactic(auto, unfolding(basis::specs::Writing::end_in, basis::specs::Writing::set_in))]
pub fn put_uvarint(value: u64, out: &mut [u8], at: usize) -> usize
    ensures { Leaves (end_in (length (uvarint value)) at (uvarint value) out.old)
        (set_in (length (uvarint value)) at (uvarint value) out.old) result out.new }
{
    let len = uvarint_len(value);
    if has_room(out.len(), at, len) {
        spell_uvarint(value, out, at)
    } else {
        at
    }
}

// Writes a value at the front of out; where it does not fit, nothing.
pub fn write_uvarint(value: u64, out: &mut [u8]) -> Result<usize, ShortRoom>
    ensures { Leaves (answer (uvarint value) out.old) (written (uvarint value) out.old) result
        out.new }
{
    let len = uvarint_len(value);
    if out.len() < len {
        return Err(ShortRoom { needed: len });
    }
    Ok(spell_uvarint(value, out, 0))
}

// The multihash codes of a peer id, the digest inline or hashed.
pub const IDENTITY_MULTIHASH_CODE: u8 = 0x00;

pub const SHA256_MULTIHASH_CODE: u8 = 0x12;

// The longest key that is inlined.
pub const MAX_INLINE_KEY_LENGTH: usize = 42;

pub const SHA256_LENGTH: usize = 32;

// How many bytes stand before the digest: code and size are below 128, a byte each.
pub const DIGEST_START: usize = 2;

// What a peer id is: an identity or a SHA-256 multihash, whose digest is all that stands behind the first two bytes.
#[derive(Clone, Copy)]
pub enum PeerId {
    Identity,
    Sha256,
}

// Which peer id a multihash of this code is, with a digest of so many bytes; none of another.
#[tactic(auto, unfolding(crate::specs::PeerId::hash_of))]
fn hash_of(code: u8, size: usize) -> Option<PeerId>
    ensures { result ≡ hash_of code size }
{
    match (code, size) {
        (IDENTITY_MULTIHASH_CODE, 0..=MAX_INLINE_KEY_LENGTH) => Some(PeerId::Identity),
        (SHA256_MULTIHASH_CODE, SHA256_LENGTH) => Some(PeerId::Sha256),
        _ => None,
    }
}

// Which peer id some bytes are, if they are one.
pub fn from_bytes(multihash: &[u8]) -> Option<PeerId>
    ensures { result ≡ from_bytes multihash.now }
{
    let [code, size, digest @ ..] = multihash else {
        return None;
    };
    let size = usize::from(*size);
    if size != digest.len() {
        return None;
    }
    hash_of(*code, size)
}
