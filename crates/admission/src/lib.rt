// Whether a message may be taken: `verify`'s order of checks without its cryptography, for which the host gives its word, and the scope's limits on
// topics and size. The caches and the node use these rules.
#![tactic(auto)]

pub mod told;

ghost use Rattle.std.specs.Prelude.{Ok, ◌≡◌, true, cond, ◌+◌, ◌≤◌, ◌<◌, length, set};
ghost use Rattle.protobuf.specs.Walk.{is_bytes};
ghost use Rattle.basis.specs.Dialect.{mode_of};
ghost use Rattle.rows.specs.Ids.{same_bytes};
ghost use Rattle.ids.specs.Ids.{id_bytes};
ghost use Rattle.schema.specs.SlotsLaws.{PlaceInside};
ghost use Rattle.admission.specs.Flags.{known_flags, allows_unsigned};
ghost use Rattle.admission.specs.Admission.{spans_in, same_spans, topics_in, FindsTopics, long_after, is_key, key_matches, key_inside, on_key, on_signature, on_word, on_limits, is_peer_id, part_at, admission_of, is_signed, id_given, kept_with};

use basis::{Mode, mode_of};
use ids::{IdError, id_of};
use key::decode_protobuf;
use peer_id::{DIGEST_START, PeerId, from_bytes};
use protobuf::{Field, WIRE_LEN, read_field};
use rows::{at_or, same};
use schema::{Kind, Place, Slots, count, slots_of};

pub const SIGNATURE_LEN: usize = 64;

pub const MAX_TOPICS: usize = 4;

pub const MAX_TOPIC_SIZE: usize = 1024;

pub const MAX_MESSAGE_SIZE: usize = 4096;

// A setting: messages without a signature and without a key may be taken.
pub const ALLOW_UNSIGNED: usize = 1;

// The highest number that the known flags make.
pub const MAX_FLAGS: usize = 3;

// Why a message is not taken: 21 to 30 and 34 to 36 of the scope's table, in its order, under verify's names where it has them.
#[derive(Clone, Copy)]
pub enum Unfit {
    MissingFrom,
    InvalidFrom(usize),
    NotPeerId,
    InvalidSeqno,
    KeyWithoutSignature,
    MissingSignature,
    InvalidSignatureLength(usize),
    InvalidKey,
    KeyPeerIdMismatch,
    SignatureInvalid,
    TopicCount(usize),
    TopicTooLong(usize),
    MessageTooLong(usize),
}

// The topics of a message: how many there are, and the length of the first that is too long, 0 where none is.
#[derive(Clone, Copy)]
pub struct Topics {
    pub count: usize,
    pub long: usize,
}

// Whether flags are known ones.
pub fn known_flags(flags: usize) -> bool
    ensures { result ≡ known_flags flags }
{
    flags <= MAX_FLAGS
}

// Whether flags allow messages without a signature and without a key.
pub fn allows_unsigned(flags: usize) -> bool
    ensures { result ≡ allows_unsigned flags }
{
    flags % 2 == ALLOW_UNSIGNED
}

// Whether a field of a message is a topic.
fn is_topic(f: Field) -> bool
    ensures { result ≡ is_bytes 4 f }
{
    f.wire_type == WIRE_LEN && f.field == 4
}

// How many topics there are, a field further.
fn count_after(f: Field, n: usize) -> usize
    requires { n < 18446744073709551615 }
    ensures { result ≡ cond (is_bytes 4 f) (n + 1) n }
{
    if is_topic(f) {
        return n + 1;
    }
    n
}

// The length of the first topic that is too long, a field of `len` bytes further.
#[tactic(auto, unfolding(crate::specs::Admission::long_after))]
fn long_after(f: Field, len: usize, long: usize) -> usize
    ensures { result ≡ long_after f len long }
{
    if is_topic(f) && long == 0 && MAX_TOPIC_SIZE < len {
        return len;
    }
    long
}

// Writes a number at a place of a list, where it is to be there and the list has the place.
fn note(there: bool, out: &mut [usize], i: usize, v: usize)
    ensures { out.new ≡ cond there (set out.old i v) out.old }
{
    if there && i < out.len() {
        out[i] = v;
    }
}

// The topics of a message: how many, the first that is too long, and in `starts` and `sizes` where each stands, as many as these have places for.
pub fn topics_of(mode: Mode, part: &[u8], starts: &mut [usize], sizes: &mut [usize]) -> Topics
    ensures { FindsTopics mode part.now starts.old sizes.old result starts.new sizes.new }
{
    let mut at: usize = 0;
    let mut n: usize = 0;
    let mut long: usize = 0;
    while let Ok(Some(f)) = read_field(mode, part, at) {
        let len = f.next - f.start;
        let there = is_topic(f);
        note(there, starts, n, f.start);
        note(there, sizes, n, len);
        n = count_after(f, n);
        long = long_after(f, len, long);
        at = f.next;
    }
    Topics { count: n, long }
}

// 28, 29, 30.
fn limits(mode: Mode, part: &[u8], t: Topics) -> Result<(), Unfit>
    requires { t ≡ topics_in mode part.now }
    ensures { result ≡ on_limits mode part.now (Ok tt) }
{
    if t.count == 0 || MAX_TOPICS < t.count {
        return Err(Unfit::TopicCount(t.count));
    }
    if t.long != 0 {
        return Err(Unfit::TopicTooLong(t.long));
    }
    if MAX_MESSAGE_SIZE < part.len() {
        return Err(Unfit::MessageTooLong(part.len()));
    }
    Ok(())
}

// Whether some bytes are a public key.
pub fn is_key(bytes: &[u8]) -> bool
    ensures { result ≡ is_key bytes.now }
{
    decode_protobuf(bytes).is_ok()
}

// Whether a key may be the sender's: an identity's digest is the key itself, and of a SHA-256 multihash the host's word says it.
pub fn key_matches(sender: &[u8], key: &[u8]) -> bool
    ensures { result ≡ key_matches sender.now key.now }
{
    match from_bytes(sender) {
        Some(PeerId::Identity) => same(&sender[DIGEST_START..], key),
        Some(PeerId::Sha256) => true,
        None => false,
    }
}

// Whether a sender has its key in itself: an identity's digest that is a key.
pub fn key_inside(sender: &[u8]) -> bool
    ensures { result ≡ key_inside sender.now }
{
    match from_bytes(sender) {
        Some(PeerId::Identity) => is_key(&sender[DIGEST_START..]),
        Some(PeerId::Sha256) => false,
        None => false,
    }
}

// 35, 36.
fn keyed(part: &[u8], sender: &[u8], key: Place) -> Result<(), Unfit>
    requires { PlaceInside part.now key }
    ensures { result ≡ on_key part.now sender.now key (Ok tt) }
{
    let Place::Present { start: a, end: e } = key else {
        if !key_inside(sender) {
            return Err(Unfit::KeyPeerIdMismatch);
        }
        return Ok(());
    };
    if !is_key(&part[a..e]) {
        return Err(Unfit::InvalidKey);
    }
    if !key_matches(sender, &part[a..e]) {
        return Err(Unfit::KeyPeerIdMismatch);
    }
    Ok(())
}

// 24 or 25, 26, then the key, and 27; where unsigned messages are allowed, nothing of one with neither signature nor key.
fn signed(
    part: &[u8],
    sender: &[u8],
    signature: Place,
    key: Place,
    verified: bool,
    unsigned: bool,
) -> Result<(), Unfit>
    requires { PlaceInside part.now key }
    ensures { result ≡ on_signature unsigned signature key (on_key part.now sender.now key (on_word verified (Ok tt))) (Ok tt) }
{
    let Place::Present { start: a, end: e } = signature else {
        if let Place::Absent = key {
            if unsigned {
                return Ok(());
            }
            return Err(Unfit::MissingSignature);
        }
        return Err(Unfit::KeyWithoutSignature);
    };
    let len = ids::span(a, e);
    if len != SIGNATURE_LEN {
        return Err(Unfit::InvalidSignatureLength(len));
    }
    keyed(part, sender, key)?;
    if !verified {
        return Err(Unfit::SignatureInvalid);
    }
    Ok(())
}

// Whether some bytes are a peer id.
pub fn is_peer_id(sender: &[u8]) -> bool
    ensures { result ≡ is_peer_id sender.now }
{
    from_bytes(sender).is_some()
}

// Whether the sender is a peer id, by where it stands.
fn known(part: &[u8], from: Place) -> bool
    requires { PlaceInside part.now from }
    ensures { result ≡ is_peer_id (part_at part.now from) }
{
    let Place::Present { start: a, end: e } = from else {
        return is_peer_id(b"");
    };
    is_peer_id(&part[a..e])
}

// Whether a message with these topics may be taken, given the host's word on its signature: 21 to 30, 34, 35, 36, in the table's order.
fn weigh(
    part: &[u8],
    t: Topics,
    verified: bool,
    flags: usize,
) -> Result<((usize, usize), (usize, usize)), Unfit>
    requires { t ≡ topics_in (mode_of flags) part.now }
    ensures { result ≡ admission_of flags part.now verified }
{
    let mode = mode_of(flags as u64);
    let Slots {
        first: from,
        third: seqno,
        fourth: signature,
        fifth: key,
        ..
    } = slots_of(mode, part, Kind::RawMessage);
    match id_of(from, seqno) {
        Err(IdError::MissingFrom) => Err(Unfit::MissingFrom),
        Err(IdError::InvalidFrom(n)) => Err(Unfit::InvalidFrom(n)),
        Err(IdError::InvalidSeqno) => {
            if !known(part, from) {
                return Err(Unfit::NotPeerId);
            }
            Err(Unfit::InvalidSeqno)
        }
        Ok(((a, e), (b, f))) => {
            if !known(part, from) {
                return Err(Unfit::NotPeerId);
            }
            signed(
                part,
                &part[a..e],
                signature,
                key,
                verified,
                allows_unsigned(flags),
            )?;
            limits(mode, part, t)?;
            Ok(((a, e), (b, f)))
        }
    }
}

// Whether a message may be taken under a gateway's flags, given the host's word on its signature.
pub fn admit(
    part: &[u8],
    verified: bool,
    flags: usize,
) -> Result<((usize, usize), (usize, usize)), Unfit>
    ensures { result ≡ admission_of flags part.now verified }
{
    let mut starts = [0usize; MAX_TOPICS];
    let mut sizes = [0usize; MAX_TOPICS];
    let t = topics_of(mode_of(flags as u64), part, &mut starts, &mut sizes);
    weigh(part, t, verified, flags)
}

// Whether a message has a signature.
pub fn is_signed(mode: Mode, part: &[u8]) -> bool
    ensures { result ≡ is_signed mode part.now }
{
    let slots = slots_of(mode, part, Kind::RawMessage);
    matches!(slots.fourth, Place::Present { .. })
}

// Whether an id is that of the message in a part: from and then seqno.
fn same_parts(part: &[u8], a: usize, e: usize, b: usize, f: usize, id: &[u8]) -> bool
    requires { (a ≤ e) × (e ≤ length part.now) × (b ≤ f) × (f ≤ length part.now) }
    ensures { result ≡ same_bytes (id_bytes part.now a e b f) id.now }
{
    let from_len = e - a;
    if id.len() < from_len {
        return false;
    }
    if same(&part[a..e], &id[..from_len]) {
        return same(&part[b..f], &id[from_len..]);
    }
    false
}

// Whether the first n places of two lists are the same. The second is a row of a lent state: past its end it has zeros.
#[tactic(auto, using(crate::proofs::Turns::spans_walked), unfolding(crate::specs::Admission::same_spans))]
fn same_spans(
    starts: &[usize],
    sizes: &[usize],
    n: usize,
    kept_starts: &[u16],
    kept_sizes: &[u16],
) -> bool
    requires { (n ≤ length starts.now) × (n ≤ length sizes.now) }
    ensures { result ≡ same_spans (spans_in starts.now sizes.now n) (spans_in kept_starts.now kept_sizes.now n) }
{
    for i in 0..n {
        if starts[i] != at_or(kept_starts, i, 0) as usize {
            return false;
        }
        if sizes[i] != at_or(kept_sizes, i, 0) as usize {
            return false;
        }
    }
    true
}

// Whether a message with these topics may be taken and its id is this one.
fn names(part: &[u8], t: Topics, id: &[u8], flags: usize) -> bool
    requires { t ≡ topics_in (mode_of flags) part.now }
    ensures { result ≡ id_given part.now id.now (admission_of flags part.now true) }
{
    let Ok(((a, e), (b, f))) = weigh(part, t, true, flags) else {
        return false;
    };
    same_parts(part, a, e, b, f, id)
}

// Whether some bytes are a message that may be taken under a gateway's flags, its id is this one, and its topics stand in the n places that are kept
// beside it.
pub fn kept_with(
    part: &[u8],
    id: &[u8],
    n: usize,
    kept_starts: &[u16],
    kept_sizes: &[u16],
    flags: usize,
) -> bool
    ensures { result ≡ kept_with flags part.now id.now (spans_in kept_starts.now kept_sizes.now n) }
{
    let mode = mode_of(flags as u64);
    if count(mode, part, Kind::RawMessage).is_err() {
        return false;
    }
    let mut starts = [0usize; MAX_TOPICS];
    let mut sizes = [0usize; MAX_TOPICS];
    let t = topics_of(mode, part, &mut starts, &mut sizes);
    if t.count != n || MAX_TOPICS < n {
        return false;
    }
    same_spans(&starts, &sizes, n, kept_starts, kept_sizes) && names(part, t, id, flags)
}
