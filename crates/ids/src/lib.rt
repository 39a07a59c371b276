// One message of a body, and its id, from seen.rs: from and seqno. The host lends the body and an output buffer.
#![tactic(auto)]

pub mod told;

ghost use Rattle.std.specs.Prelude.{◌≡◌, [], ◌∷◌, ◌-◌, ◌≤◌, length};
ghost use Rattle.basis.specs.Unique.{Leaves};
ghost use Rattle.protobuf.specs.Walk.{is_bytes};
ghost use Rattle.ids.specs.declared.MessageError.TheVariants.{Refused};
ghost use Rattle.ids.specs.Ids.{without_id, message_at, on_from, id_parts, answer_id, left_id, id_answer, id_left, mark};

use basis::{Dialect, Mode};
use protobuf::{Field, Refusal, WIRE_LEN, put_bytes, read_field};
use schema::{Kind, Place, Slots, accept, slots_of};

// Why a message has no id, under verify's names.
#[derive(Clone, Copy)]
pub enum IdError {
    MissingFrom,
    InvalidFrom(usize),
    InvalidSeqno,
}

// Why a writer of one message's bytes wrote none: the room that it needs, why the body is refused, how many messages it has, or why the message has no
// id.
#[derive(Clone, Copy)]
pub enum MessageError {
    Room(usize),
    Refused(Refusal),
    NoMessage(usize),
    MissingFrom,
    InvalidFrom(usize),
    InvalidSeqno,
}

impl From<Refusal> for MessageError {
    ghost from_gives = { λ why e. e ≡ Refused why };

    fn from(refusal: Refusal) -> MessageError {
        MessageError::Refused(refusal)
    }
}

impl From<IdError> for MessageError {
    ghost from_gives = { λ why e. e ≡ without_id why };

    fn from(why: IdError) -> MessageError {
        match why {
            IdError::MissingFrom => MessageError::MissingFrom,
            IdError::InvalidFrom(len) => MessageError::InvalidFrom(len),
            IdError::InvalidSeqno => MessageError::InvalidSeqno,
        }
    }
}

// Whether a field of a body is a message: a length-delimited field 2.
fn is_message(f: Field) -> bool
    ensures { result ≡ is_bytes 2 f }
{
    f.wire_type == WIRE_LEN && f.field == 2
}

// The message at an index, counted from 0.
pub fn message_at(mode: Mode, body: &[u8], index: usize) -> Result<(usize, usize), usize>
    ensures { result ≡ message_at mode body.now index }
{
    let mut at: usize = 0;
    let mut n: usize = 0;
    while let Ok(Some(f)) = read_field(mode, body, at) {
        if is_message(f) {
            if n == index {
                return Ok((f.start, f.next));
            }
            n += 1;
        }
        at = f.next;
    }
    Err(n)
}

// How many bytes lie from a to e.
pub fn span(a: usize, e: usize) -> usize
    ensures { result ≡ e - a }
{
    e.saturating_sub(a)
}

// The id of a message whose from and seqno are there. A message without from is refused before its seqno is looked at.
pub fn id_of(from: Place, seqno: Place) -> Result<((usize, usize), (usize, usize)), IdError>
    ensures { result ≡ on_from from seqno }
{
    let Place::Present { start: a, end: e } = from else {
        return Err(IdError::MissingFrom);
    };
    let from_len = span(a, e);
    if from_len == 0 || 64 < from_len {
        return Err(IdError::InvalidFrom(from_len));
    }
    let Place::Present { start: b, end: f } = seqno else {
        return Err(IdError::InvalidSeqno);
    };
    let seqno_len = span(b, f);
    if seqno_len == 0 || 64 < seqno_len {
        return Err(IdError::InvalidSeqno);
    }
    Ok(((a, e), (b, f)))
}

// Where from and seqno stand in a message.
pub fn id_parts(mode: Mode, part: &[u8]) -> Result<((usize, usize), (usize, usize)), IdError>
    ensures { result ≡ id_parts mode part.now }
{
    let Slots {
        first: from,
        third: seqno,
        ..
    } = slots_of(mode, part, Kind::RawMessage);
    id_of(from, seqno)
}

// Writes some bytes and then the id of a message, from and seqno, at the front of out.
fn put_id(mode: Mode, before: &[u8], part: &[u8], out: &mut [u8]) -> Result<usize, MessageError>
    requires { length before.now ≤ 1 }
    ensures value { result ≡ answer_id before.now part.now out.old (id_parts mode part.now) }
    ensures out_after { out.new ≡ left_id before.now part.now out.old (id_parts mode part.now) }
{
    let ((a, e), (b, f)) = id_parts(mode, part)?;
    let total = before.len() + (e - a) + (f - b);
    if out.len() < total {
        return Err(MessageError::Room(total));
    }
    let i = put_bytes(out, 0, before);
    let j = put_bytes(out, i, &part[a..e]);
    put_bytes(out, j, &part[b..f]);
    Ok(total)
}

// The same for the message at an index of a body.
fn put_id_at(
    before: &[u8],
    dialect: Dialect,
    body: &[u8],
    index: usize,
    out: &mut [u8],
) -> Result<usize, MessageError>
    requires { length before.now ≤ 1 }
    ensures value { result ≡ id_answer before.now dialect body.now index out.old }
    ensures out_after { out.new ≡ id_left before.now dialect body.now index out.old }
{
    let mode = dialect.mode;
    accept(dialect, body)?;
    let (start, end) = message_at(mode, body, index).map_err(MessageError::NoMessage)?;
    put_id(mode, before, &body[start..end], out)
}

// Writes the id of the message at an index: from and then seqno.
pub fn message_id(
    dialect: Dialect,
    body: &[u8],
    index: usize,
    out: &mut [u8],
) -> Result<usize, MessageError>
    ensures { Leaves (id_answer [] dialect body.now index out.old)
        (id_left [] dialect body.now index out.old) result out.new }
{
    put_id_at(b"", dialect, body, index, out)
}

// Writes the id under which the message at an index is seen: the mark byte, and then its id.
pub fn seen_message_id(
    dialect: Dialect,
    body: &[u8],
    index: usize,
    signed: bool,
    out: &mut [u8],
) -> Result<usize, MessageError>
    ensures { Leaves (id_answer (mark signed ∷ []) dialect body.now index out.old)
        (id_left (mark signed ∷ []) dialect body.now index out.old) result out.new }
{
    put_id_at(&[signed as u8], dialect, body, index, out)
}
