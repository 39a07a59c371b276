// Writing a body anew, from message.rs: its canonical bytes, field by field as the table of messages has them. Each writer says where its
// bytes end, and puts them there where there is room: lent no bytes, it measures. A body that is taken is read by the mode that passes over groups,
// whatever mode took it: what the first mode takes both read alike.
#![tactic(auto)]

ghost use Rattle.std.specs.Prelude.{◌≡◌, [], ◌++◌, cond, ◌+◌, ◌≤◌, length};
ghost use Rattle.basis.specs.Dialect.{spoken};
ghost use Rattle.basis.specs.Writing.{answer, written, set_in};
ghost use Rattle.basis.specs.Unique.{Leaves};
ghost use Rattle.peer_id.specs.Uvarint.{uvarint};
ghost use Rattle.protobuf.specs.Walk.{fields_of, is_bytes, value_in};
ghost use Rattle.protobuf.specs.Encode.{tag, bytes_field, of_written as encoded};
ghost use Rattle.schema.specs.Schema.{row_of, held_of};
ghost use Rattle.schema.specs.Slots.{slots_of, has_field};
ghost use Rattle.schema.specs.SlotsLaws.{PlaceInside, SlotsInside};
ghost use Rattle.schema.specs.Count.{FieldWithin};
ghost use Rattle.ids.specs.Ids.{of_written};
ghost use Rattle.canon.specs.Canon.{placed, slot_in, figured, numbered, own_part, each_of, held_part, canon, entries_of, merged_of, body_part, canon_body, sign_of};
ghost use Rattle.encode.specs.Encode.{encode_answer, encode_left};
ghost use Rattle.encode.specs.Sign.{sign_answer, sign_left};
ghost use Rattle.encode.specs.Puts.{Puts, Fits, head_at};

use basis::{Dialect, Edition, Mode};
use ids::{MessageError, message_at};
use peer_id::{put_uvarint, uvarint_len};
use protobuf::{EncodeError, Field, MAX_FIELD_NUMBER, WIRE_LEN, put_bytes, read_field};
use schema::{
    Figure, Held, Kind, Number, Place, Role, Slots, accept, has_field, held_of, row_of, rows,
    slots_of,
};

// The largest place at which something is written: 2^62.
const MAX_PLACE: usize = 4611686018427387904;

// The place in a slot.
#[tactic(auto, unfolding(canon::specs::Canon::slot_in))]
fn slot_in(slot: u8, slots: Slots) -> Place
    ensures { result ≡ slot_in slot slots }
{
    match slot {
        1 => slots.first,
        2 => slots.second,
        3 => slots.third,
        4 => slots.fourth,
        _ => slots.fifth,
    }
}

// The number that is written for a value: of a flag only whether it is zero.
fn figure(figure: Figure, value: u64) -> u64
    ensures { result ≡ figured figure value }
{
    match figure {
        Figure::Exact => value,
        Figure::Flag => (value != 0) as u64,
    }
}

// A varint.
fn emit_varint(value: u64, out: &mut [u8], at: usize) -> usize
    requires { Fits at (uvarint value) }
    ensures { Puts out.old at (uvarint value) out.new result }
{
    put_uvarint(value, out, at);
    at + uvarint_len(value)
}

// Bytes as they stand.
fn emit_bytes(part: &[u8], out: &mut [u8], at: usize) -> usize
    requires { Fits at part.now }
    ensures { Puts out.old at part.now out.new result }
{
    put_bytes(out, at, part);
    at + part.len()
}

// The tag of a length-delimited field n, and its length.
fn emit_head(n: u64, len: usize, out: &mut [u8], at: usize) -> usize
    requires { (n ≤ 6) × Fits at (tag n 2 ++ uvarint len) }
    ensures { Puts out.old at (tag n 2 ++ uvarint len) out.new result }
{
    let i = emit_varint(n * 8 + 2, out, at);
    emit_varint(len as u64, out, i)
}

// The tag of a length-delimited field n and its length, for those who write fields of their own: it says where they end, and writes them
// there where there is room. A number that no field has, or a place above 2^62, gives nothing to write.
pub fn put_head(n: u64, len: usize, out: &mut [u8], at: usize) -> usize
    ensures { Leaves (at + length (head_at n len at)) (set_in (length (head_at n len at)) at (head_at n len at) out.old) result out.new }
{
    if MAX_FIELD_NUMBER < n || MAX_PLACE < at {
        return at;
    }
    let tag = n * 8 + 2;
    let i = at + uvarint_len(tag);
    let end = i + uvarint_len(len as u64);
    if out.len() < end {
        return end;
    }
    put_uvarint(tag, out, at);
    put_uvarint(len as u64, out, i);
    end
}

// A singular number.
fn emit_number(how: Figure, n: u64, number: Number, out: &mut [u8], at: usize) -> usize
    requires { (n ≤ 6) × Fits at (numbered how n number) }
    ensures { Puts out.old at (numbered how n number) out.new result }
{
    match number {
        Number::Absent => at,
        Number::Present(v) => {
            let i = emit_varint(n * 8, out, at);
            emit_varint(figure(how, v), out, i)
        }
    }
}

// A singular field of bytes.
fn emit_place(n: u64, input: &[u8], place: Place, out: &mut [u8], at: usize) -> usize
    requires { (n ≤ 6) × PlaceInside input.now place × Fits at (placed n input.now place) }
    ensures { Puts out.old at (placed n input.now place) out.new result }
{
    match place {
        Place::Absent => at,
        Place::Present { start, end } => {
            let i = emit_head(n, end - start, out, at);
            emit_bytes(&input[start..end], out, i)
        }
    }
}

// The bytes in a slot of a message, as its field n.
fn emit_slot(input: &[u8], slots: Slots, n: u64, slot: u8, out: &mut [u8], at: usize) -> usize
    requires { (n ≤ 6) × SlotsInside input.now slots × Fits at (placed n input.now (slot_in slot slots)) }
    ensures { Puts out.old at (placed n input.now (slot_in slot slots)) out.new result }
{
    emit_place(n, input, slot_in(slot, slots), out, at)
}

// The singular field n, by its role.
fn emit_own(input: &[u8], slots: Slots, n: u64, role: Role, out: &mut [u8], at: usize) -> usize
    requires { (n ≤ 6) × SlotsInside input.now slots × Fits at (own_part slots n input.now role) }
    ensures { Puts out.old at (own_part slots n input.now role) out.new result }
{
    match role {
        Role::Number(how) => emit_number(how, n, slots.number, out, at),
        Role::Text(slot) | Role::Bytes(slot) => emit_slot(input, slots, n, slot, out, at),
        Role::Skip | Role::Unsigned(_) | Role::Topic | Role::MessageId | Role::Sub(_, _) => at,
    }
}

// Whether a field is length-delimited and has the number n.
fn is_bytes(f: Field, n: u64) -> bool
    ensures { result ≡ is_bytes n f }
{
    f.wire_type == WIRE_LEN && f.field == n
}

// A field as it stands, where it is length-delimited and has the number n.
fn emit_there(input: &[u8], f: Field, n: u64, out: &mut [u8], at: usize) -> usize
    requires { (n ≤ 6) × FieldWithin input.now f × Fits at (cond (is_bytes n f) (bytes_field n (value_in input.now f)) []) }
    ensures { Puts out.old at (cond (is_bytes n f) (bytes_field n (value_in input.now f)) []) out.new result }
{
    if !is_bytes(f, n) {
        return at;
    }
    let value = &input[f.start..f.next];
    let i = emit_head(n, value.len(), out, at);
    emit_bytes(value, out, i)
}

// Each length-delimited field n as it stands.
fn emit_whole(input: &[u8], n: u64, out: &mut [u8], at: usize) -> usize
    requires { (n ≤ 6) × Fits at (each_of Mode.Groups (bytes_field n) n input.now) }
    ensures { Puts out.old at (each_of Mode.Groups (bytes_field n) n input.now) out.new result }
{
    let mut i: usize = 0;
    let mut end = at;
    while let Ok(Some(f)) = read_field(Mode::Groups, input, i) {
        end = emit_there(input, f, n, out, end);
        i = f.next;
    }
    end
}

// The entries of the field n, by how they are written.
#[cycle(emit_anew_emit_held_emit_message_emit_sub)]
fn emit_held(input: &[u8], n: u64, held: Held, out: &mut [u8], at: usize) -> usize
    requires { (n ≤ 6) × Fits at (held_part Mode.Groups (canon Mode.Groups) n input.now held) }
    ensures { Puts out.old at (held_part Mode.Groups (canon Mode.Groups) n input.now held) out.new result }
{
    match held {
        Held::Nothing | Held::Merged(_) => at,
        Held::Whole => emit_whole(input, n, out, at),
        Held::Anew(kind) => emit_anew(input, n, kind, out, at),
    }
}

// Each length-delimited field n, a submessage, in its canonical bytes.
#[cycle(emit_anew_emit_held_emit_message_emit_sub)]
fn emit_anew(input: &[u8], n: u64, kind: Kind, out: &mut [u8], at: usize) -> usize
    requires { (n ≤ 6) × Fits at (each_of Mode.Groups (λ p. bytes_field n (canon Mode.Groups kind p)) n input.now) }
    ensures { Puts out.old at (each_of Mode.Groups (λ p. bytes_field n (canon Mode.Groups kind p)) n input.now) out.new result }
{
    let mut i: usize = 0;
    let mut end = at;
    while let Ok(Some(f)) = read_field(Mode::Groups, input, i) {
        end = emit_sub(input, f, n, kind, out, end);
        i = f.next;
    }
    end
}

// A field, where it is length-delimited and has the number n: the canonical bytes of the submessage in it, measured before they are written.
#[cycle(emit_anew_emit_held_emit_message_emit_sub)]
fn emit_sub(input: &[u8], f: Field, n: u64, kind: Kind, out: &mut [u8], at: usize) -> usize
    requires { (n ≤ 6) × FieldWithin input.now f × Fits at (cond (is_bytes n f) (bytes_field n (canon Mode.Groups kind (value_in input.now f))) []) }
    ensures { Puts out.old at (cond (is_bytes n f) (bytes_field n (canon Mode.Groups kind (value_in input.now f))) []) out.new result }
{
    if !is_bytes(f, n) {
        return at;
    }
    let value = &input[f.start..f.next];
    let len = emit_message(value, kind, &mut [], 0);
    let i = emit_head(n, len, out, at);
    if out.len() < i + len {
        return i + len;
    }
    emit_message(value, kind, out, i)
}

// A message: its fields in the order of their numbers.
#[cycle(emit_anew_emit_held_emit_message_emit_sub)]
fn emit_message(part: &[u8], kind: Kind, out: &mut [u8], at: usize) -> usize
    requires { Fits at (canon Mode.Groups kind part.now) }
    ensures { Puts out.old at (canon Mode.Groups kind part.now) out.new result }
{
    let slots = slots_of(Mode::Groups, part, kind);
    let mut end = at;
    for n in 1..=rows(kind) {
        let role = row_of(kind, n);
        end = emit_own(part, slots, n, role, out, end);
        let held = held_of(role);
        if !matches!(held, Held::Nothing) {
            end = emit_held(part, n, held, out, end);
        }
    }
    end
}

// The entries m of a field, where it is the submessage n of that kind.
fn emit_entry(body: &[u8], f: Field, kind: Kind, n: u64, m: u64, out: &mut [u8], at: usize) -> usize
    requires { (m ≤ 6) × FieldWithin body.now f × Fits at (cond (is_bytes n f) (held_part Mode.Groups (canon Mode.Groups) m (value_in body.now f) (held_of (row_of kind m))) []) }
    ensures { Puts out.old at (cond (is_bytes n f) (held_part Mode.Groups (canon Mode.Groups) m (value_in body.now f) (held_of (row_of kind m))) []) out.new result }
{
    if !is_bytes(f, n) {
        return at;
    }
    let held = held_of(row_of(kind, m));
    emit_held(&body[f.start..f.next], m, held, out, at)
}

// The entries m of each submessage n, one submessage after the other.
fn emit_entries(body: &[u8], kind: Kind, n: u64, m: u64, out: &mut [u8], at: usize) -> usize
    requires { (m ≤ 6) × Fits at (entries_of Mode.Groups kind n body.now m) }
    ensures { Puts out.old at (entries_of Mode.Groups kind n body.now m) out.new result }
{
    let mut i: usize = 0;
    let mut end = at;
    while let Ok(Some(f)) = read_field(Mode::Groups, body, i) {
        end = emit_entry(body, f, kind, n, m, out, end);
        i = f.next;
    }
    end
}

// The submessages n as one.
fn emit_merged(body: &[u8], kind: Kind, n: u64, out: &mut [u8], at: usize) -> usize
    requires { Fits at (merged_of Mode.Groups kind n body.now) }
    ensures { Puts out.old at (merged_of Mode.Groups kind n body.now) out.new result }
{
    let mut end = at;
    for m in 1..=rows(kind) {
        end = emit_entries(body, kind, n, m, out, end);
    }
    end
}

// The field n that holds the submessages n as one, where there is any, be it empty.
fn emit_control(body: &[u8], kind: Kind, n: u64, out: &mut [u8], at: usize) -> usize
    requires { (n ≤ 6) × Fits at (cond (has_field Mode.Groups n body.now) (bytes_field n (merged_of Mode.Groups kind n body.now)) []) }
    ensures { Puts out.old at (cond (has_field Mode.Groups n body.now) (bytes_field n (merged_of Mode.Groups kind n body.now)) []) out.new result }
{
    if !has_field(Mode::Groups, body, n) {
        return at;
    }
    let len = emit_merged(body, kind, n, &mut [], 0);
    let i = emit_head(n, len, out, at);
    if out.len() < i + len {
        return i + len;
    }
    emit_merged(body, kind, n, out, i)
}

// The field n of a body, by how it is written.
fn emit_top(body: &[u8], n: u64, held: Held, out: &mut [u8], at: usize) -> usize
    requires { (n ≤ 6) × Fits at (body_part Mode.Groups body.now n held) }
    ensures { Puts out.old at (body_part Mode.Groups body.now n held) out.new result }
{
    match held {
        Held::Nothing => at,
        Held::Whole | Held::Anew(_) => emit_held(body, n, held, out, at),
        Held::Merged(kind) => emit_control(body, kind, n, out, at),
    }
}

// A body: subscriptions, then the published messages as they stand, then the controls as one.
fn emit_body(edition: Edition, body: &[u8], out: &mut [u8]) -> usize
    requires { Fits 0 (canon_body (spoken Mode.Groups edition) body.now) }
    ensures { Puts out.old 0 (canon_body (spoken Mode.Groups edition) body.now) out.new result }
{
    let kind = Kind::Rpc(edition);
    let mut end: usize = 0;
    for n in 1..=rows(kind) {
        end = emit_top(body, n, held_of(row_of(kind, n)), out, end);
    }
    end
}

// Writes a body that is taken. Its canonical bytes are never longer than it, so they are measured only where there may be no room for them.
fn encode_taken(edition: Edition, body: &[u8], out: &mut [u8]) -> Result<usize, EncodeError>
    requires { (length (canon_body (spoken Mode.Groups edition) body.now) ≤ length body.now) × (length body.now ≤ 65536) }
    ensures value { result ≡ encoded (answer (canon_body (spoken Mode.Groups edition) body.now) out.old) }
    ensures out_after { out.new ≡ written (canon_body (spoken Mode.Groups edition) body.now) out.old }
{
    if out.len() < body.len() {
        let needed = emit_body(edition, body, &mut []);
        if out.len() < needed {
            return Err(EncodeError::Room(needed));
        }
    }
    Ok(emit_body(edition, body, out))
}

// Writes a body anew at the front of the lent bytes: what it means, in its canonical bytes. A refusal, and a lack of room, leave them as they were.
pub fn encode(dialect: Dialect, body: &[u8], out: &mut [u8]) -> Result<usize, EncodeError>
    ensures { Leaves (encode_answer dialect body.now out.old)
        (encode_left dialect body.now out.old) result out.new }
{
    accept(dialect, body)?;
    encode_taken(dialect.edition, body, out)
}

// The bytes of a message that are signed: the prefix, and the message's canonical bytes.
fn emit_signed(part: &[u8], out: &mut [u8]) -> usize
    requires { length (canon Mode.Groups Kind.RawMessage part.now) ≤ 65536 }
    ensures { Puts out.old 0 (sign_of Mode.Groups part.now) out.new result }
{
    let i = emit_bytes(b"libp2p-pubsub:", out, 0);
    emit_message(part, Kind::RawMessage, out, i)
}

// Writes the bytes of a message that are signed at the front of out. They are at most 14 more than the message, and measured only where there
// may be no room for them.
fn sign_part(part: &[u8], out: &mut [u8]) -> Result<usize, MessageError>
    requires { (length (canon Mode.Groups Kind.RawMessage part.now) ≤ length part.now) × (length part.now ≤ 65536) }
    ensures value { result ≡ of_written (answer (sign_of Mode.Groups part.now) out.old) }
    ensures out_after { out.new ≡ written (sign_of Mode.Groups part.now) out.old }
{
    if out.len() < part.len() + 14 {
        let needed = emit_signed(part, &mut []);
        if out.len() < needed {
            return Err(MessageError::Room(needed));
        }
    }
    Ok(emit_signed(part, out))
}

// Writes the bytes that are signed of the message at an index: the prefix, then from, data, seqno and every topic.
pub fn sign_bytes(
    dialect: Dialect,
    body: &[u8],
    index: usize,
    out: &mut [u8],
) -> Result<usize, MessageError>
    ensures { Leaves (sign_answer dialect body.now index out.old)
        (sign_left dialect body.now index out.old) result out.new }
{
    let mode = dialect.mode;
    accept(dialect, body)?;
    let (start, end) = message_at(mode, body, index).map_err(MessageError::NoMessage)?;
    sign_part(&body[start..end], out)
}
