// The fields of a Protocol Buffers body, from protobuf.rs: reading, passing over, writing, and the host's walk. A place past the end of the
// input answers as the end does.
#![tactic(auto)]

pub mod told;

ghost use Rattle.std.specs.Prelude.{◌≡◌, ◌≤◌, ◌<◌, ◌%◌, length, true};
ghost use Rattle.basis.specs.Writing.{end_in, set_in};
ghost use Rattle.basis.specs.Unique.{Leaves};
ghost use Rattle.protobuf.specs.Field.{read_tag, read_len, read_string, read_varint, skip_fixed, skip_field, skip_group, read_value, read_field, walk_step};
ghost use Rattle.protobuf.specs.Refusal.{spot_of, here, nowhere};
ghost use Rattle.protobuf.specs.declared.EncodeError.TheVariants.{Room, Refused};
ghost use Rattle.protobuf.specs.Encode.{tag, varint_field, bytes_field, tag_refused, encoded, left};

use basis::{Mode, ShortRoom, Spot, has_room};
use peer_id::{VarintError, put_uvarint, read_uvarint, uvarint_len, write_uvarint};

// Wire types: varint, 64-bit, length-delimited, start and end of a group, 32-bit.
pub const WIRE_VARINT: u8 = 0;

pub const WIRE_I64: u8 = 1;

pub const WIRE_LEN: u8 = 2;

pub const WIRE_START_GROUP: u8 = 3;

pub const WIRE_END_GROUP: u8 = 4;

pub const WIRE_I32: u8 = 5;

// How many groups may stand open, one in another.
pub const MAX_GROUPS: u8 = 32;

// The largest field number, 2^29 - 1.
pub const MAX_FIELD_NUMBER: u64 = 536870911;

// The largest body, in bytes.
pub const MAX_RPC_SIZE: usize = 65536;

// Why a body is refused: 1 to 7 with the Rust's names, then 14 to 16 of groups, and 10 and 11, which the Rust does not have. An offset counts from the start of the slice
// that was read: of a bad varint it is its first byte's, and the Rust does not have it.
#[derive(Clone, Copy)]
pub enum WireError {
    Varint {
        error: VarintError,
        offset: usize,
    },
    FieldOverflow {
        offset: usize,
        length: u64,
        remaining: usize,
    },
    UnsupportedWireType {
        wire_type: u8,
        offset: usize,
    },
    InvalidFieldNumber {
        field: u64,
        offset: usize,
    },
    InvalidUtf8 {
        offset: usize,
    },
    EndGroup,
    GroupDepth,
    GroupOpen,
    TooLarge {
        len: usize,
    },
    TooManyRecords {
        records: usize,
    },
}

// A refusal of a body, and where in the body it stands.
#[derive(Clone, Copy)]
pub struct Refusal {
    pub why: WireError,
    pub spot: Option<Spot>,
}

// Where in the slice that was read a refusal stands.
pub fn spot_of(why: WireError) -> Option<Spot>
    ensures { result ≡ spot_of why }
{
    match why {
        WireError::Varint { offset, .. }
        | WireError::FieldOverflow { offset, .. }
        | WireError::UnsupportedWireType { offset, .. }
        | WireError::InvalidFieldNumber { offset, .. }
        | WireError::InvalidUtf8 { offset } => Some(Spot::at(offset)),
        WireError::EndGroup
        | WireError::GroupDepth
        | WireError::GroupOpen
        | WireError::TooLarge { .. }
        | WireError::TooManyRecords { .. } => None,
    }
}

impl Refusal {
    // A refusal where the slice that was read is the body.
    pub fn here(why: WireError) -> Refusal
        ensures { result ≡ here why }
    {
        Refusal {
            why,
            spot: spot_of(why),
        }
    }

    // A refusal of no byte of a body.
    pub fn nowhere(why: WireError) -> Refusal
        ensures { result ≡ nowhere why }
    {
        Refusal { why, spot: None }
    }
}

// A field that was read. `value` is the varint after the tag, a value (type 0) or a length (type 2), and `start` the place after it: the
// bytes of a length-delimited field stand from start to next. The other types have none: value is 0 and start is tag_end.
#[derive(Clone, Copy)]
pub struct Field {
    pub field: u64,
    pub wire_type: u8,
    pub tag_end: usize,
    pub value: u64,
    pub start: usize,
    pub next: usize,
}

// The varint at idx, as the value of a field.
#[tactic(auto, unfolding(crate::specs::Field::read_varint))]
pub fn read_varint_value(input: &[u8], idx: usize) -> Result<(u64, usize), WireError>
    ensures { result ≡ read_varint input.now idx }
{
    match read_uvarint(input.get(idx..).unwrap_or_default()) {
        Ok((value, used)) => Ok((value, idx + used)),
        Err(error) => Err(WireError::Varint { error, offset: idx }),
    }
}

// The tag at idx, or the end.
#[tactic(auto, unfolding(crate::specs::Field::read_tag))]
pub fn read_tag(input: &[u8], idx: usize) -> Result<Option<(u64, u8, usize)>, WireError>
    ensures { result ≡ read_tag input.now idx }
{
    if input.len() <= idx {
        return Ok(None);
    }
    let (value, next) = read_varint_value(input, idx)?;
    let field = value / 8;
    match field {
        1..=MAX_FIELD_NUMBER => Ok(Some((field, (value % 8) as u8, next))),
        _ => Err(WireError::InvalidFieldNumber { field, offset: idx }),
    }
}

// The length at idx, and the bytes after it.
#[tactic(auto, using(crate::specs::Laws::varint_moves), unfolding(crate::specs::Field::read_len))]
pub fn read_len_delimited(input: &[u8], idx: usize) -> Result<(usize, usize), WireError>
    ensures { result ≡ read_len input.now idx }
{
    let (length, start) = read_varint_value(input, idx)?;
    let remaining = input.len() - start;
    if (remaining as u64) < length {
        return Err(WireError::FieldOverflow {
            offset: start,
            length,
            remaining,
        });
    }
    Ok((start, start + length as usize))
}

// The same, where the bytes must be UTF-8; a refusal points at the length.
#[tactic(auto, unfolding(crate::specs::Field::read_string))]
pub fn read_string(input: &[u8], idx: usize) -> Result<(usize, usize), WireError>
    ensures { result ≡ read_string input.now idx }
{
    let (start, end) = read_len_delimited(input, idx)?;
    if !utf8::is_utf8(&input[start..end]) {
        return Err(WireError::InvalidUtf8 { offset: idx });
    }
    Ok((start, end))
}

// Past n bytes at idx.
#[tactic(auto, unfolding(crate::specs::Field::skip_fixed))]
fn advance(input: &[u8], idx: usize, n: usize) -> Result<usize, WireError>
    ensures { result ≡ skip_fixed (length input.now) idx n }
{
    let remaining = input.len().saturating_sub(idx);
    if remaining < n {
        return Err(WireError::FieldOverflow {
            offset: idx,
            length: n as u64,
            remaining,
        });
    }
    Ok(idx + n)
}

// Past the value of a field whose tag ends at idx, where so many groups more may open.
#[cycle(skip_field_skip_group)]
#[tactic(auto, unfolding(crate::specs::Field::skip_field, crate::specs::Field::passed, crate::specs::Field::skip_value))]
pub fn skip_field(
    mode: Mode,
    levels: u8,
    input: &[u8],
    idx: usize,
    field: u64,
    wire_type: u8,
) -> Result<usize, WireError>
    ensures { result ≡ skip_field mode levels input.now idx field wire_type }
{
    match (mode, wire_type) {
        (_, WIRE_VARINT) => Ok(read_varint_value(input, idx)?.1),
        (_, WIRE_LEN) => Ok(read_len_delimited(input, idx)?.1),
        (_, WIRE_I32) => advance(input, idx, 4),
        (_, WIRE_I64) => advance(input, idx, 8),
        (Mode::Groups, WIRE_START_GROUP) => {
            if levels == 0 {
                return Err(WireError::GroupDepth);
            }
            skip_group(levels - 1, input, idx, field)
        }
        (Mode::Groups, WIRE_END_GROUP) => Err(WireError::EndGroup),
        _ => Err(WireError::UnsupportedWireType {
            wire_type,
            offset: idx,
        }),
    }
}

// Past the fields of a group, from idx, and its end tag, which has the group's number. The fields are gone along in a loop: only a group in the
// group is a call.
#[cycle(skip_field_skip_group)]
fn skip_group(levels: u8, input: &[u8], idx: usize, field: u64) -> Result<usize, WireError>
    ensures { result ≡ skip_group levels input.now idx field }
{
    let mut at = idx;
    while let Some((number, wire_type, next)) = read_tag(input, at)? {
        if wire_type == WIRE_END_GROUP {
            return if number == field {
                Ok(next)
            } else {
                Err(WireError::EndGroup)
            };
        }
        at = skip_field(Mode::Groups, levels, input, next, number, wire_type)?;
    }
    Err(WireError::GroupOpen)
}

// The value of a field whose tag ends at tag_end.
#[tactic(auto, unfolding(crate::specs::Field::read_value))]
fn read_value(
    mode: Mode,
    input: &[u8],
    field: u64,
    wire_type: u8,
    tag_end: usize,
) -> Result<Option<Field>, WireError>
    ensures { result ≡ read_value mode input.now field wire_type tag_end }
{
    let (value, start, next) = match wire_type {
        WIRE_VARINT => {
            let (value, next) = read_varint_value(input, tag_end)?;
            (value, next, next)
        }
        WIRE_LEN => {
            let (start, end) = read_len_delimited(input, tag_end)?;
            ((end - start) as u64, start, end)
        }
        _ => (
            0,
            tag_end,
            skip_field(mode, MAX_GROUPS, input, tag_end, field, wire_type)?,
        ),
    };
    Ok(Some(Field {
        field,
        wire_type,
        tag_end,
        value,
        start,
        next,
    }))
}

// Whether a tag and what follows it, a length or a value, are a byte each, and the tag is of this wire type.
fn is_short(wire_type: u8, t: u8, b: u8) -> bool
    ensures { result ≡ true → (t % 8 ≡ wire_type) × (8 ≤ t) × (t < 128) × (b < 128) }
{
    t % 8 == wire_type && 8 <= t && t < 128 && b < 128
}

// Whether a tag is a byte, of a length-delimited field, and its length two bytes.
fn is_middle(t: u8, b: u8, h: u8) -> bool
    ensures { result ≡ true → (t % 8 ≡ 2) × (8 ≤ t) × (t < 128) × (128 ≤ b) × (1 ≤ h) × (h < 128) }
{
    t % 8 == WIRE_LEN && 8 <= t && t < 128 && 128 <= b && 1 <= h && h < 128
}

// The field at idx, its tag and its value, however long they are.
#[tactic(auto, unfolding(crate::specs::Field::read_field))]
fn read_long_field(input: &[u8], idx: usize, mode: Mode) -> Result<Option<Field>, WireError>
    ensures { result ≡ read_field mode input.now idx }
{
    let Some((field, wire_type, tag_end)) = read_tag(input, idx)? else {
        return Ok(None);
    };
    read_value(mode, input, field, wire_type, tag_end)
}

// The same; a number whose tag and value are a byte each, and a length of two bytes, are read without a call.
fn read_any_field(input: &[u8], idx: usize, mode: Mode) -> Result<Option<Field>, WireError>
    requires { idx < length input.now }
    ensures { result ≡ read_field mode input.now idx }
{
    let tag_end = idx + 1;
    if tag_end < input.len() {
        let t = input[idx];
        let b = input[tag_end];
        let second = tag_end + 1;
        if is_short(WIRE_VARINT, t, b) {
            return Ok(Some(Field {
                field: (t / 8) as u64,
                wire_type: WIRE_VARINT,
                tag_end,
                value: b as u64,
                start: second,
                next: second,
            }));
        }
        if second < input.len() && is_middle(t, b, input[second]) {
            let start = second + 1;
            let len = (b % 128) as usize + 128 * input[second] as usize;
            if len <= input.len() - start {
                return Ok(Some(Field {
                    field: (t / 8) as u64,
                    wire_type: WIRE_LEN,
                    tag_end,
                    value: len as u64,
                    start,
                    next: start + len,
                }));
            }
        }
    }
    read_long_field(input, idx, mode)
}

// The field at idx, its tag and its value: the step that every decoder of a submessage takes. A length-delimited field whose tag and length are a byte each is
// read without a call.
#[inline(always)]
pub fn read_field(mode: Mode, input: &[u8], idx: usize) -> Result<Option<Field>, WireError>
    ensures { result ≡ read_field mode input.now idx }
{
    if input.len() <= idx {
        return Ok(None);
    }
    let tag_end = idx + 1;
    if tag_end < input.len() {
        let t = input[idx];
        let l = input[tag_end];
        let start = tag_end + 1;
        let len = l as usize;
        if is_short(WIRE_LEN, t, l) && len <= input.len() - start {
            return Ok(Some(Field {
                field: (t / 8) as u64,
                wire_type: WIRE_LEN,
                tag_end,
                value: l as u64,
                start,
                next: start + len,
            }));
        }
    }
    read_any_field(input, idx, mode)
}

// A place in a body, from which the host reads one top-level field after the other.
#[derive(Clone, Copy)]
pub struct Cursor {
    pub at: usize,
}

// A field that the host's walk finds, with the place after its tag and the next place.
#[derive(Clone, Copy)]
pub struct Walked {
    pub field: u64,
    pub wire_type: u8,
    pub tag_end: usize,
    pub next: Cursor,
}

impl Cursor {
    // The field at the cursor, as read_tag and skip_field give it.
    #[tactic(auto, unfolding(crate::specs::Field::walk_step))]
    pub fn step(self, mode: Mode, body: &[u8]) -> Result<Option<Walked>, Refusal>
        ensures { result ≡ walk_step mode body.now self.at }
    {
        if MAX_RPC_SIZE < body.len() {
            return Err(Refusal::nowhere(WireError::TooLarge { len: body.len() }));
        }
        let Some((field, wire_type, tag_end)) = read_tag(body, self.at).map_err(Refusal::here)?
        else {
            return Ok(None);
        };
        let skipped = skip_field(mode, MAX_GROUPS, body, tag_end, field, wire_type);
        let at = skipped.map_err(Refusal::here)?;
        Ok(Some(Walked {
            field,
            wire_type,
            tag_end,
            next: Cursor { at },
        }))
    }
}

// Why a writer of a field wrote nothing: so many bytes do not fit (refusal 12), or no tag can have the field number or the wire type.
#[derive(Clone, Copy)]
pub enum EncodeError {
    Room(usize),
    Refused(Refusal),
}

impl From<Refusal> for EncodeError {
    ghost from_gives = { λ r e. e ≡ Refused r };

    fn from(refusal: Refusal) -> EncodeError {
        EncodeError::Refused(refusal)
    }
}

impl From<ShortRoom> for EncodeError {
    ghost from_gives = { λ r e. e ≡ Room r.needed };

    fn from(short: ShortRoom) -> EncodeError {
        EncodeError::Room(short.needed)
    }
}

// A tag has a field number from 1 to 2^29 - 1 and three bits of wire type.
#[tactic(auto, unfolding(crate::specs::Encode::tag_refused))]
fn check_tag(field: u64, wire_type: u8) -> Result<(), Refusal>
    ensures { result ≡ tag_refused field wire_type }
{
    match (field, wire_type) {
        (1..=MAX_FIELD_NUMBER, 0..=7) => Ok(()),
        (1..=MAX_FIELD_NUMBER, _) => Err(Refusal::nowhere(WireError::UnsupportedWireType {
            wire_type,
            offset: 0,
        })),
        _ => Err(Refusal::nowhere(WireError::InvalidFieldNumber { field, offset: 0 })),
    }
}

// Writes a tag at the front of out.
#[tactic(auto, unfolding(crate::specs::Encode::tag, crate::specs::Encode::encoded, crate::specs::Encode::left))]
pub fn write_tag(out: &mut [u8], field: u64, wire_type: u8) -> Result<usize, EncodeError>
    ensures { Leaves (encoded field wire_type (tag field wire_type) out.old)
        (left field wire_type (tag field wire_type) out.old) result out.new }
{
    check_tag(field, wire_type)?;
    Ok(write_uvarint(field * 8 + wire_type as u64, out)?)
}

// Writes a field that holds a varint at the front of out.
#[tactic(auto, unfolding(crate::specs::Encode::tag, crate::specs::Encode::encoded, crate::specs::Encode::left))]
pub fn encode_varint_field(out: &mut [u8], field: u64, value: u64) -> Result<usize, EncodeError>
    ensures { Leaves (encoded field 0 (varint_field field value) out.old)
        (left field 0 (varint_field field value) out.old) result out.new }
{
    check_tag(field, WIRE_VARINT)?;
    let total = uvarint_len(field * 8) + uvarint_len(value);
    if out.len() < total {
        return Err(EncodeError::Room(total));
    }
    let i = put_uvarint(field * 8, out, 0);
    Ok(put_uvarint(value, out, i))
}

// Writes bytes at `at` and says where they end; where they do not fit, it writes nothing and says `at`. A loop, since the slice's own method has what C links ask
// for `memmove`.
#[tactic(auto, unfolding(basis::specs::Writing::end_in, basis::specs::Writing::set_in))]
pub fn put_bytes(out: &mut [u8], at: usize, data: &[u8]) -> usize
    ensures { Leaves (end_in (length «data».now) at «data».now out.old)
        (set_in (length «data».now) at «data».now out.old) result out.new }
{
    if !has_room(out.len(), at, data.len()) {
        return at;
    }
    for j in 0..data.len() {
        out[at + j] = data[j];
    }
    at + data.len()
}

// Writes a field that holds bytes at the front of out: a string, or a submessage that is written already.
#[tactic(auto, unfolding(crate::specs::Encode::tag, crate::specs::Encode::encoded, crate::specs::Encode::left))]
pub fn encode_bytes_field(out: &mut [u8], field: u64, data: &[u8]) -> Result<usize, EncodeError>
    ensures { Leaves (encoded field 2 (bytes_field field «data».now) out.old)
        (left field 2 (bytes_field field «data».now) out.old) result out.new }
{
    check_tag(field, WIRE_LEN)?;
    let total = uvarint_len(field * 8 + 2) + uvarint_len(data.len() as u64) + data.len();
    if out.len() < total {
        return Err(EncodeError::Room(total));
    }
    let i = put_uvarint(field * 8 + 2, out, 0);
    let j = put_uvarint(data.len() as u64, out, i);
    Ok(put_bytes(out, j, data))
}
