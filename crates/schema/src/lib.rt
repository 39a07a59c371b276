// The messages of the gossipsub protobuf, from message.rs: what each field is, how many records a message has or why it is refused, and
// where its singular fields stand. One walk over the fields serves every message.
#![tactic(auto)]

ghost use Rattle.std.specs.Prelude.{◌+◌, ◌<◌, ◌≡◌, length};
ghost use Rattle.schema.specs.Schema.{added_in, table, row_from, row_of, role_of, formed_as, held_of, own_of};
ghost use Rattle.schema.specs.Accept.{body_records, accept_of};
ghost use Rattle.schema.specs.Count.{FieldWithin, counted, field_count, text_count};
ghost use Rattle.basis.specs.Spot.{inside, Reaches};
ghost use Rattle.protobuf.specs.Refusal.{standing};
ghost use Rattle.schema.specs.Spots.{text_spot, field_spot, spot_in};
ghost use Rattle.schema.specs.Slots.{set_place, place_of, with_field, slots_of, has_field};
ghost use Rattle.schema.specs.Made.{place_from, number_from};

use basis::{Dialect, Edition, Mode, Spot};
use protobuf::{
    Field, MAX_RPC_SIZE, Refusal, WIRE_LEN, WIRE_VARINT, WireError, read_field, spot_of,
};

// The most records that a body may have.
pub const MAX_RECORDS: usize = 512;

// The messages of the gossipsub protobuf, and the two other kinds of record: a topic of a message and a message id. A message whose fields depend on
// the edition, or which holds such a message, has it beside it.
#[derive(Clone, Copy)]
pub enum Kind {
    Rpc(Edition),
    SubOpts,
    RawMessage,
    Topic,
    ControlMessage(Edition),
    ControlIHave,
    ControlIWant,
    MessageId,
    ControlGraft,
    ControlPrune,
    PeerInfo,
    ControlIDontWant,
}

// How a number is written: as it is, or as 1 wherever it is not 0.
#[derive(Clone, Copy)]
pub enum Figure {
    Exact,
    Flag,
}

// How a submessage is written: anew, in its canonical bytes; whole, as it stands; or merged, all of its kind as one.
#[derive(Clone, Copy)]
pub enum Form {
    Anew,
    Whole,
    Merged,
}

// What a field of a message is. A singular field of bytes or text has a slot of its message's record, 1 to 5; the singular number, which a
// message has at most one of, has its own. Unsigned bytes are read like others, and are no part of the bytes that are signed.
#[derive(Clone, Copy)]
pub enum Role {
    Skip,
    Number(Figure),
    Text(u8),
    Bytes(u8),
    Unsigned(u8),
    Topic,
    MessageId,
    Sub(Kind, Form),
}

// How the entries of a repeated field are written: not at all, each as it stands, each anew, or all as one.
#[derive(Clone, Copy)]
pub enum Held {
    Nothing,
    Whole,
    Anew(Kind),
    Merged(Kind),
}

// An optional field: where its bytes stand, or that it is absent.
#[derive(Clone, Copy)]
pub enum Place {
    Absent,
    Present { start: usize, end: usize },
}

#[derive(Clone, Copy)]
pub enum Number {
    Absent,
    Present(u64),
}

// The singular fields of a message, with places counted from its own start. SubOpts: number is subscribe, first is topic_id. RawMessage: first to fifth are from, data, seqno,
// signature, key. ControlIHave and ControlGraft: first is topic_id. ControlPrune: first is topic_id, number is backoff. PeerInfo: first and
// second are peer_id and signed_peer_record.
#[derive(Clone, Copy)]
pub struct Slots {
    pub number: Number,
    pub first: Place,
    pub second: Place,
    pub third: Place,
    pub fourth: Place,
    pub fifth: Place,
}

// The role of a control's field from 5 on: what an edition adds.
fn added(edition: Edition, field: u64) -> Role
    ensures { result ≡ row_from 5 (added_in edition) field }
{
    match edition {
        Edition::V11 => Role::Skip,
        Edition::V12 => match field {
            5 => Role::Sub(Kind::ControlIDontWant, Form::Anew),
            _ => Role::Skip,
        },
    }
}

// The role of a message's field, by its number: the table of messages.
pub fn row_of(kind: Kind, field: u64) -> Role
    ensures { result ≡ row_of kind field }
{
    match kind {
        Kind::Rpc(edition) => {
            if field == 1 {
                return Role::Sub(Kind::SubOpts, Form::Anew);
            }
            if field == 2 {
                return Role::Sub(Kind::RawMessage, Form::Whole);
            }
            if field == 3 {
                return Role::Sub(Kind::ControlMessage(edition), Form::Merged);
            }
            Role::Skip
        }
        Kind::SubOpts => {
            if field == 1 {
                return Role::Number(Figure::Flag);
            }
            if field == 2 {
                return Role::Text(1);
            }
            Role::Skip
        }
        Kind::RawMessage => {
            if field == 1 {
                return Role::Bytes(1);
            }
            if field == 2 {
                return Role::Bytes(2);
            }
            if field == 3 {
                return Role::Bytes(3);
            }
            if field == 4 {
                return Role::Topic;
            }
            if field == 5 {
                return Role::Unsigned(4);
            }
            if field == 6 {
                return Role::Unsigned(5);
            }
            Role::Skip
        }
        Kind::Topic => Role::Skip,
        Kind::ControlMessage(edition) => {
            if field == 1 {
                return Role::Sub(Kind::ControlIHave, Form::Anew);
            }
            if field == 2 {
                return Role::Sub(Kind::ControlIWant, Form::Anew);
            }
            if field == 3 {
                return Role::Sub(Kind::ControlGraft, Form::Anew);
            }
            if field == 4 {
                return Role::Sub(Kind::ControlPrune, Form::Anew);
            }
            added(edition, field)
        }
        Kind::ControlIHave => {
            if field == 1 {
                return Role::Text(1);
            }
            if field == 2 {
                return Role::MessageId;
            }
            Role::Skip
        }
        Kind::ControlIWant => {
            if field == 1 {
                return Role::MessageId;
            }
            Role::Skip
        }
        Kind::MessageId => Role::Skip,
        Kind::ControlGraft => {
            if field == 1 {
                return Role::Text(1);
            }
            Role::Skip
        }
        Kind::ControlPrune => {
            if field == 1 {
                return Role::Text(1);
            }
            if field == 2 {
                return Role::Sub(Kind::PeerInfo, Form::Anew);
            }
            if field == 3 {
                return Role::Number(Figure::Exact);
            }
            Role::Skip
        }
        Kind::PeerInfo => {
            if field == 1 {
                return Role::Bytes(1);
            }
            if field == 2 {
                return Role::Bytes(2);
            }
            Role::Skip
        }
        Kind::ControlIDontWant => {
            if field == 1 {
                return Role::MessageId;
            }
            Role::Skip
        }
    }
}

// How many fields a control has.
fn control_rows(edition: Edition) -> u64
    ensures { result ≡ 4 + length (added_in edition) }
{
    match edition {
        Edition::V11 => 4,
        Edition::V12 => 5,
    }
}

// How many fields a message has in the table: 1 up to that number.
pub fn rows(kind: Kind) -> u64
    ensures { result ≡ length (table kind) }
{
    match kind {
        Kind::Rpc(_) => 3,
        Kind::SubOpts => 2,
        Kind::RawMessage => 6,
        Kind::Topic => 0,
        Kind::ControlMessage(edition) => control_rows(edition),
        Kind::ControlIHave => 2,
        Kind::ControlIWant => 1,
        Kind::MessageId => 0,
        Kind::ControlGraft => 1,
        Kind::ControlPrune => 3,
        Kind::PeerInfo => 2,
        Kind::ControlIDontWant => 1,
    }
}

// What a field of a message is, by its number and wire type. The type is tested first: so this is small enough to be part of each walk.
pub fn role_of(kind: Kind, field: u64, wire_type: u8) -> Role
    ensures { result ≡ role_of kind field wire_type }
{
    match wire_type {
        WIRE_LEN => match row_of(kind, field) {
            Role::Number(_) => Role::Skip,
            role => role,
        },
        WIRE_VARINT => match row_of(kind, field) {
            role @ Role::Number(_) => role,
            _ => Role::Skip,
        },
        _ => Role::Skip,
    }
}

// How the entries of a field are written, by its role.
pub fn held_of(role: Role) -> Held
    ensures { result ≡ held_of role }
{
    match role {
        Role::Topic | Role::MessageId => Held::Whole,
        Role::Sub(kind, form) => formed(kind, form),
        _ => Held::Nothing,
    }
}

fn formed(kind: Kind, form: Form) -> Held
    ensures { result ≡ formed_as kind form }
{
    match form {
        Form::Anew => Held::Anew(kind),
        Form::Whole => Held::Whole,
        Form::Merged => Held::Merged(kind),
    }
}

// 1 where a submessage of that kind is a record of its own.
pub fn own(kind: Kind) -> usize
    ensures { result ≡ own_of kind }
{
    match kind {
        Kind::Rpc(_) | Kind::ControlMessage(_) => 0,
        _ => 1,
    }
}

// n records for a field of text, or refusal 7.
fn count_text(input: &[u8], f: Field, n: usize) -> Result<usize, WireError>
    requires { FieldWithin input.now f }
    ensures { result ≡ text_count input.now f n }
{
    if utf8::is_utf8(&input[f.start..f.next]) {
        Ok(n)
    } else {
        Err(WireError::InvalidUtf8 { offset: f.tag_end })
    }
}

// How many records a field of a message has, or why the field is refused.
#[cycle(count_count_field)]
fn count_field(mode: Mode, input: &[u8], kind: Kind, f: Field) -> Result<usize, WireError>
    requires { FieldWithin input.now f }
    ensures { result ≡ field_count mode kind input.now f }
{
    match role_of(kind, f.field, f.wire_type) {
        Role::Text(_) => count_text(input, f, 0),
        Role::Topic => count_text(input, f, 1),
        Role::MessageId => Ok(1),
        Role::Sub(k, _) => {
            let n = count(mode, &input[f.start..f.next], k)?;
            Ok(own(k) + n)
        }
        Role::Skip | Role::Number(_) | Role::Bytes(_) | Role::Unsigned(_) => Ok(0),
    }
}

// How many records a message has, or why it is refused.
#[cycle(count_count_field)]
pub fn count(mode: Mode, input: &[u8], kind: Kind) -> Result<usize, WireError>
    ensures { result ≡ counted mode kind input.now }
{
    let mut at = 0;
    let mut n = 0;
    while let Some(f) = read_field(mode, input, at)? {
        n += count_field(mode, input, kind, f)?;
        at = f.next;
    }
    Ok(n)
}

// Where a field of text is refused.
fn spot_text(input: &[u8], f: Field) -> Option<Spot>
    requires { FieldWithin input.now f }
    ensures { result ≡ text_spot input.now f }
{
    if utf8::is_utf8(&input[f.start..f.next]) {
        None
    } else {
        Some(Spot::at(f.tag_end))
    }
}

// A place in a submessage, as it stands in the message that encloses it: in a field of that number, whose bytes stand from start.
fn enclose(spot: Option<Spot>, field: u64, start: usize) -> Option<Spot>
    requires { Reaches start spot }
    ensures { result ≡ inside field start spot }
{
    let spot = spot?;
    Some(Spot {
        offset: start + spot.offset,
        outer: field,
        middle: spot.outer,
        inner: spot.middle,
    })
}

// Where a field of a message is refused.
#[cycle(spot_field_spot_in)]
fn spot_field(mode: Mode, input: &[u8], kind: Kind, f: Field) -> Option<Spot>
    requires { FieldWithin input.now f }
    ensures { result ≡ field_spot mode kind input.now f }
{
    match role_of(kind, f.field, f.wire_type) {
        Role::Text(_) | Role::Topic => spot_text(input, f),
        Role::Sub(k, _) => {
            let spot = spot_in(mode, &input[f.start..f.next], k);
            enclose(spot, f.field, f.start)
        }
        _ => None,
    }
}

// Where a message is refused, at its first refusal in reading order. Bodies that are taken are not walked so: it is asked of refused ones only.
#[cycle(spot_field_spot_in)]
pub fn spot_in(mode: Mode, input: &[u8], kind: Kind) -> Option<Spot>
    ensures { result ≡ spot_in mode kind input.now }
{
    let mut at = 0;
    loop {
        match read_field(mode, input, at) {
            Err(why) => return spot_of(why),
            Ok(None) => return None,
            Ok(Some(f)) => {
                let spot = spot_field(mode, input, kind, f);
                if spot.is_some() {
                    return spot;
                }
                at = f.next;
            }
        }
    }
}

// Where a refusal in a message stands: 14 to 16 carry no place, so none is looked for.
fn placed(mode: Mode, input: &[u8], kind: Kind, why: WireError) -> Refusal
    ensures { result ≡ standing (spot_in mode kind input.now) why }
{
    if spot_of(why).is_none() {
        return Refusal::nowhere(why);
    }
    Refusal {
        why,
        spot: spot_in(mode, input, kind),
    }
}

// How many records a body has, or why it is refused, and where: 10, 1 to 7 and 14 to 16, 11. This is the one test of a body.
pub fn body_records(dialect: Dialect, body: &[u8]) -> Result<usize, Refusal>
    ensures { result ≡ body_records dialect body.now }
{
    if MAX_RPC_SIZE < body.len() {
        return Err(Refusal::nowhere(WireError::TooLarge { len: body.len() }));
    }
    let mode = dialect.mode;
    let kind = Kind::Rpc(dialect.edition);
    let n = count(mode, body, kind).map_err(|why| placed(mode, body, kind, why))?;
    if MAX_RECORDS < n {
        return Err(Refusal::nowhere(WireError::TooManyRecords { records: n }));
    }
    Ok(n)
}

// Whether a body is well formed and within capacity.
pub fn accept(dialect: Dialect, body: &[u8]) -> Result<(), Refusal>
    ensures { result ≡ accept_of dialect body.now }
{
    body_records(dialect, body)?;
    Ok(())
}

// Whether a message has a length-delimited field n.
pub fn has_field(mode: Mode, input: &[u8], n: u64) -> bool
    ensures { result ≡ has_field mode n input.now }
{
    let mut at = 0;
    while let Ok(Some(f)) = read_field(mode, input, at) {
        if f.wire_type == WIRE_LEN && f.field == n {
            return true;
        }
        at = f.next;
    }
    false
}

// A place from three words: whether it is there, its start and its end.
pub fn place_from(there: u64, start: u64, end: u64) -> Place
    ensures { result ≡ place_from there start end }
{
    if there == 0 {
        return Place::Absent;
    }
    Place::Present {
        start: start as usize,
        end: end as usize,
    }
}

// A number from two words: whether it is there, and its value.
pub fn number_from(there: u64, value: u64) -> Number
    ensures { result ≡ number_from there value }
{
    if there == 0 {
        return Number::Absent;
    }
    Number::Present(value)
}

// A field's place, in a slot.
fn take_place(slot: u8, f: Field, slots: &mut Slots)
    ensures { slots.new ≡ set_place slots.old slot (place_of f) }
{
    let place = Place::Present {
        start: f.start,
        end: f.next,
    };
    match slot {
        1 => slots.first = place,
        2 => slots.second = place,
        3 => slots.third = place,
        4 => slots.fourth = place,
        _ => slots.fifth = place,
    }
}

// A field of a message: the last wins.
fn take_field(kind: Kind, f: Field, slots: &mut Slots)
    ensures { slots.new ≡ with_field kind slots.old f }
{
    match role_of(kind, f.field, f.wire_type) {
        Role::Number(_) => slots.number = Number::Present(f.value),
        Role::Text(slot) | Role::Bytes(slot) | Role::Unsigned(slot) => take_place(slot, f, slots),
        _ => {}
    }
}

// The singular fields of a message, up to its end or to what refuses it.
pub fn slots_of(mode: Mode, input: &[u8], kind: Kind) -> Slots
    ensures { result ≡ slots_of mode kind input.now }
{
    let mut at = 0;
    let mut slots = Slots {
        number: Number::Absent,
        first: Place::Absent,
        second: Place::Absent,
        third: Place::Absent,
        fourth: Place::Absent,
        fifth: Place::Absent,
    };
    while let Ok(Some(f)) = read_field(mode, input, at) {
        take_field(kind, f, &mut slots);
        at = f.next;
    }
    slots
}
