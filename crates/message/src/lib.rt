// Reading a body, from message.rs: its records go to a table that the host lends. A body that is taken is read by the mode that passes over groups,
// whatever mode took it: what the first mode takes both read alike.
#![tactic(auto)]

pub mod told;

ghost use Rattle.std.specs.Prelude.{◌≡◌, [], ◌∷◌, ◌++◌, ◌+◌, ◌*◌, ◌≤◌, length};
ghost use Rattle.std.proofs.lemmas.List.Edits.{sets};
ghost use Rattle.basis.specs.Unique.{Leaves};
ghost use Rattle.schema.specs.Schema.{own_of};
ghost use Rattle.schema.specs.Slots.{no_slots};
ghost use Rattle.schema.specs.Count.{FieldWithin};
ghost use Rattle.message.specs.Rows.{bare_row, own_rows, rows_of, field_rows, kind_code, number_words, place_words, places_words, words_of, words_of_all, kind_from, record_at};
ghost use Rattle.message.specs.declared.DecodeError.TheVariants.{Refused};
ghost use Rattle.message.specs.Decode.{has_control, decode_answer, decode_table};

use basis::{Dialect, Edition, Mode};
use protobuf::{Field, Refusal, read_field};
use schema::{
    Kind, Number, Place, Role, Slots, body_records, has_field, number_from, own, place_from,
    role_of, slots_of,
};

// How many words a record takes in the lent table.
pub const RECORD_WORDS: usize = 20;

// A record: its kind, where its bytes stand in the body, and its singular fields, whose places are counted from the record's start.
#[derive(Clone, Copy)]
pub struct Record {
    pub kind: Kind,
    pub start: usize,
    pub end: usize,
    pub slots: Slots,
}

// Why a body has no records in the table: it is refused, or so many records do not fit (refusal 12).
#[derive(Clone, Copy)]
pub enum DecodeError {
    Refused(Refusal),
    Room(usize),
}

impl From<Refusal> for DecodeError {
    ghost from_gives = { λ why e. e ≡ Refused why };

    fn from(refusal: Refusal) -> DecodeError {
        DecodeError::Refused(refusal)
    }
}

// The number that stands for a kind in the table.
#[tactic(auto, unfolding(crate::specs::Rows::kind_code))]
fn kind_code(kind: Kind) -> u64
    ensures { result ≡ kind_code kind }
{
    match kind {
        Kind::Rpc(_) => 0,
        Kind::SubOpts => 1,
        Kind::RawMessage => 2,
        Kind::Topic => 3,
        Kind::ControlMessage(_) => 4,
        Kind::ControlIHave => 5,
        Kind::ControlIWant => 6,
        Kind::MessageId => 7,
        Kind::ControlGraft => 8,
        Kind::ControlPrune => 9,
        Kind::PeerInfo => 10,
        Kind::ControlIDontWant => 11,
    }
}

// Two words at i; the place after them.
fn put_pair(table: &mut [u64], i: usize, a: u64, b: u64) -> usize
    requires { i + 2 ≤ length table.old }
    ensures value { result ≡ i + 2 }
    ensures table_after { table.new ≡ sets table.old i (a ∷ b ∷ []) }
{
    table[i] = a;
    table[i + 1] = b;
    i + 2
}

// Three words at i; the place after them.
fn put_triple(table: &mut [u64], i: usize, a: u64, b: u64, c: u64) -> usize
    requires { i + 3 ≤ length table.old }
    ensures value { result ≡ i + 3 }
    ensures table_after { table.new ≡ sets table.old i (a ∷ b ∷ c ∷ []) }
{
    table[i] = a;
    table[i + 1] = b;
    table[i + 2] = c;
    i + 3
}

#[tactic(auto, unfolding(crate::specs::Rows::number_words))]
fn put_number(table: &mut [u64], i: usize, number: Number) -> usize
    requires { i + 2 ≤ length table.old }
    ensures value { result ≡ i + 2 }
    ensures table_after { table.new ≡ sets table.old i (number_words number) }
{
    match number {
        Number::Absent => put_pair(table, i, 0, 0),
        Number::Present(v) => put_pair(table, i, 1, v),
    }
}

#[tactic(auto, unfolding(crate::specs::Rows::place_words))]
fn put_place(table: &mut [u64], i: usize, place: Place) -> usize
    requires { i + 3 ≤ length table.old }
    ensures value { result ≡ i + 3 }
    ensures table_after { table.new ≡ sets table.old i (place_words place) }
{
    match place {
        Place::Absent => put_triple(table, i, 0, 0, 0),
        Place::Present { start, end } => put_triple(table, i, 1, start as u64, end as u64),
    }
}

// The five places, one after the other.
fn put_places(table: &mut [u64], i: usize, slots: Slots) -> usize
    requires { i + 15 ≤ length table.old }
    ensures value { result ≡ i + 15 }
    ensures table_after { table.new ≡ sets table.old i (places_words slots) }
{
    let a = put_place(table, i, slots.first);
    let b = put_place(table, a, slots.second);
    let c = put_place(table, b, slots.third);
    let d = put_place(table, c, slots.fourth);
    put_place(table, d, slots.fifth)
}

// A record at a row of the table.
fn put_record(table: &mut [u64], row: usize, r: Record)
    requires { (row + 1) * 20 ≤ length table.old }
    ensures { table.new ≡ sets table.old (row * 20) (words_of r) }
{
    let code = kind_code(r.kind);
    let a = put_triple(
        table,
        row * RECORD_WORDS,
        code,
        r.start as u64,
        r.end as u64,
    );
    let b = put_number(table, a, r.slots.number);
    put_places(table, b, r.slots);
}

// Writes the records of a field of a message whose bytes begin at base, from a row on; the row after them.
#[cycle(write_field_write_message)]
fn write_field(
    input: &[u8],
    kind: Kind,
    base: usize,
    f: Field,
    table: &mut [u64],
    row: usize,
) -> usize
    requires { (base + length input.now ≤ 65536) × FieldWithin input.now f × ((row + length (field_rows Mode.Groups kind base input.now f)) * 20 ≤ length table.old) }
    ensures value { result ≡ row + length (field_rows Mode.Groups kind base input.now f) }
    ensures table_after { table.new ≡ sets table.old (row * 20) (words_of_all (field_rows Mode.Groups kind base input.now f)) }
{
    let (start, next) = (f.start, f.next);
    match role_of(kind, f.field, f.wire_type) {
        Role::Skip | Role::Number(_) | Role::Text(_) | Role::Bytes(_) | Role::Unsigned(_) => row,
        Role::Topic => write_leaf(Kind::Topic, base + start, base + next, table, row),
        Role::MessageId => write_leaf(Kind::MessageId, base + start, base + next, table, row),
        Role::Sub(k, _) => write_message(&input[start..next], k, base + start, table, row),
    }
}

// The words of no number and no places, at i.
fn put_none(table: &mut [u64], i: usize)
    requires { i + 17 ≤ length table.old }
    ensures { table.new ≡ sets table.old i (number_words no_slots.number ++ places_words no_slots) }
{
    let a = put_pair(table, i, 0, 0);
    let b = put_triple(table, a, 0, 0, 0);
    let c = put_triple(table, b, 0, 0, 0);
    let d = put_triple(table, c, 0, 0, 0);
    let e = put_triple(table, d, 0, 0, 0);
    put_triple(table, e, 0, 0, 0);
}

// Writes the record of a topic or a message id.
fn write_leaf(kind: Kind, start: usize, end: usize, table: &mut [u64], row: usize) -> usize
    requires { (row + 1) * 20 ≤ length table.old }
    ensures value { result ≡ row + 1 }
    ensures table_after { table.new ≡ sets table.old (row * 20) (words_of (bare_row kind start end)) }
{
    let code = kind_code(kind);
    let a = put_triple(table, row * RECORD_WORDS, code, start as u64, end as u64);
    put_none(table, a);
    row + 1
}

// Writes a message's own record, where its kind has one; the row after it.
fn write_own(input: &[u8], kind: Kind, base: usize, table: &mut [u64], row: usize) -> usize
    requires { (base + length input.now ≤ 65536) × ((row + own_of kind) * 20 ≤ length table.old) }
    ensures value { result ≡ row + length (own_rows Mode.Groups kind base input.now) }
    ensures table_after { table.new ≡ sets table.old (row * 20) (words_of_all (own_rows Mode.Groups kind base input.now)) }
{
    if own(kind) == 0 {
        return row;
    }
    let slots = slots_of(Mode::Groups, input, kind);
    put_record(
        table,
        row,
        Record {
            kind,
            start: base,
            end: base + input.len(),
            slots,
        },
    );
    row + 1
}

// Writes the records of a message whose bytes begin at base, from a row on; the row after them.
#[cycle(write_field_write_message)]
fn write_message(input: &[u8], kind: Kind, base: usize, table: &mut [u64], row: usize) -> usize
    requires { (base + length input.now ≤ 65536) × ((row + length (rows_of Mode.Groups kind base input.now)) * 20 ≤ length table.old) }
    ensures value { result ≡ row + length (rows_of Mode.Groups kind base input.now) }
    ensures table_after { table.new ≡ sets table.old (row * 20) (words_of_all (rows_of Mode.Groups kind base input.now)) }
{
    let mut at: usize = 0;
    let mut next_row = write_own(input, kind, base, table, row);
    while let Ok(Some(f)) = read_field(Mode::Groups, input, at) {
        next_row = write_field(input, kind, base, f, table, next_row);
        at = f.next;
    }
    next_row
}

// Whether a body has a control: a length-delimited field 3.
#[tactic(auto, unfolding(crate::specs::Decode::has_control))]
pub fn has_control(mode: Mode, body: &[u8]) -> bool
    ensures { result ≡ has_control mode body.now }
{
    has_field(mode, body, 3)
}

// Reads a body: its records go to the lent table, from its first row on. A refusal leaves the table as it was.
pub fn decode(
    dialect: Dialect,
    body: &[u8],
    table: &mut [u64],
) -> Result<(usize, bool), DecodeError>
    ensures { Leaves (decode_answer dialect body.now (length table.old))
        (decode_table dialect body.now table.old) result table.new }
{
    let n = body_records(dialect, body)?;
    if table.len() / RECORD_WORDS < n {
        return Err(DecodeError::Room(n));
    }
    let control = has_control(Mode::Groups, body);
    write_message(body, Kind::Rpc(dialect.edition), 0, table, 0);
    Ok((n, control))
}

// The kind that a number in the table stands for. 0 and 4 are the codes of no record: there the edition is the first.
#[tactic(auto, unfolding(crate::specs::Rows::kind_from))]
fn kind_from(code: u64) -> Kind
    ensures { result ≡ kind_from code }
{
    match code {
        1 => Kind::SubOpts,
        2 => Kind::RawMessage,
        3 => Kind::Topic,
        4 => Kind::ControlMessage(Edition::V11),
        5 => Kind::ControlIHave,
        6 => Kind::ControlIWant,
        7 => Kind::MessageId,
        8 => Kind::ControlGraft,
        9 => Kind::ControlPrune,
        10 => Kind::PeerInfo,
        11 => Kind::ControlIDontWant,
        _ => Kind::Rpc(Edition::V11),
    }
}

// The record at a row of a table, for the host; nothing where the table has no such row.
#[tactic(auto, unfolding(crate::specs::Rows::record_at, crate::specs::Rows::record_from))]
pub fn record_at(table: &[u64], row: usize) -> Option<Record>
    ensures { result ≡ record_at table.now row }
{
    if table.len() / RECORD_WORDS <= row {
        return None;
    }
    let i = row * RECORD_WORDS;
    Some(Record {
        kind: kind_from(table[i]),
        start: table[i + 1] as usize,
        end: table[i + 2] as usize,
        slots: Slots {
            number: number_from(table[i + 3], table[i + 4]),
            first: place_from(table[i + 5], table[i + 6], table[i + 7]),
            second: place_from(table[i + 8], table[i + 9], table[i + 10]),
            third: place_from(table[i + 11], table[i + 12], table[i + 13]),
            fourth: place_from(table[i + 14], table[i + 15], table[i + 16]),
            fifth: place_from(table[i + 17], table[i + 18], table[i + 19]),
        },
    })
}
