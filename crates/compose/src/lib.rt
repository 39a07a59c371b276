// Writing an RPC from lists, from message.rs: subscriptions, grafts, prunes, and messages built from their fields. The lists are rows of the decoder's own
// table over lent bytes. Each writer says where its bytes end, and puts them there where there is room: lent no bytes, it measures. Places may overlap, so the
// bytes may be more than a number of the machine counts: an end stops at 2^64 - 1.
#![tactic(auto)]

pub mod told;

ghost use Rattle.std.specs.Prelude.{◌≡◌, option_copied, true, [], ◌++◌, ◌+◌, ◌*◌, ◌/◌, ◌≤◌, ◌<◌, length, eqb};
ghost use Rattle.basis.specs.Unique.{Leaves};
ghost use Rattle.compose.specs.declared.ComposeError.TheVariants.{Refused};
ghost use Rattle.basis.specs.Writing.{written};
ghost use Rattle.peer_id.specs.Uvarint.{uvarint};
ghost use Rattle.protobuf.specs.Encode.{tag, varint_field, bytes_field};
ghost use Rattle.message.specs.Rows.{kind_code, record_from};
ghost use Rattle.meaning.specs.ReadBack.{bytes_at, number_at};
ghost use Rattle.rpc.specs.Encode.{optional, repeated, encode_sub_opts, encode_graft, encode_peer_info, encode_prune, encode_rpc, sign_bytes};
ghost use Rattle.compose.specs.Lent.{rows_from, lent_rows, inside_at, fields_inside, row_inside, held_by, lent_well, Inside};
ghost use Rattle.compose.specs.Said.{encode_fields, encode_message, sub_opts_of, graft_of, peer_of, message_of, prune_of, topics_from, peers_from, messages_in, said};
ghost use Rattle.compose.specs.Weighed.{capped, given, in_topics, and_then, from_fine, seqno_fine, signature_fine, key_fine, backed_fine, limits_fine, weighed, first_unfit};
ghost use Rattle.compose.specs.Compose.{moved, text_of, text_fine, texts_fine, length_fine, lists_of, put_answer, answering, leaving, write_answer, write_left, sign_answer, sign_left};
ghost use Rattle.compose.specs.Puts.{Puts, flagged, Written, IsMessageRow, topic_part, peer_part, slot_at, field_part, row_bytes, row_part, each_row, has_row, control_bytes, FindsRow};

use admission::{
    MAX_MESSAGE_SIZE, MAX_TOPIC_SIZE, MAX_TOPICS, SIGNATURE_LEN, Topics, Unfit, allows_unsigned,
    is_key, is_peer_id, key_inside, key_matches, known_flags,
};
use message::{RECORD_WORDS, Record, record_at};
use peer_id::{put_uvarint, uvarint_len};
use protobuf::{MAX_RPC_SIZE, put_bytes};
use schema::{Kind, MAX_RECORDS, Number, Place, Slots};
use utf8::is_utf8;

// The kinds of rows, by their codes in the table.
const SUB_OPTS: u64 = 1;

const RAW_MESSAGE: u64 = 2;

const TOPIC: u64 = 3;

const CONTROL_GRAFT: u64 = 8;

const CONTROL_PRUNE: u64 = 9;

const PEER_INFO: u64 = 10;

// Why nothing is written: 40, 42, 7 with where the topic begins in the lent bytes, 11 with the number of rows, 20, a message's refusal, 13 with the length.
#[derive(Clone, Copy)]
pub enum Wrong {
    BadSetting,
    NotLent,
    InvalidUtf8(usize),
    TooManyRecords(usize),
    NoMessage(usize),
    Unfit(Unfit),
    TooLong(usize),
}

// Why a call wrote nothing: a refusal, or the room that it needs.
#[derive(Clone, Copy)]
pub enum ComposeError {
    Refused(Wrong),
    Room(usize),
}

impl From<Wrong> for ComposeError {
    ghost from_gives = { λ why e. e ≡ Refused why };

    fn from(why: Wrong) -> ComposeError {
        ComposeError::Refused(why)
    }
}

// The place len bytes after another; it stops at 2^64 - 1.
fn past(at: usize, len: usize) -> usize
    ensures { result ≡ capped (at + len) }
{
    at.saturating_add(len)
}

// ---- rows

// The record at a row.
fn row_at(records: &[u64], i: usize) -> Record
    requires { i < length records.now / 20 }
    ensures { result ≡ record_from records.now (i * 20) }
{
    record_at(records, i).unwrap()
}

// Whether a row is of the kind with that code.
fn is_code(records: &[u64], i: usize, code: u64) -> bool
    requires { (i < length records.now / 20) × (1 ≤ code) × (code ≤ 10) }
    ensures { result ≡ eqb (kind_code (record_from records.now (i * 20)).kind) code }
{
    records[i * RECORD_WORDS] == code
}

// ---- 42

// Whether a place of a row that begins at `at` lies within len bytes.
#[tactic(auto, using(std::proofs::lemmas::Bool::Decides::nat_tests), unfolding(crate::specs::Lent::inside_at))]
fn inside(len: usize, at: usize, place: Place) -> bool
    ensures { result ≡ inside_at len at place }
{
    match place {
        Place::Absent => true,
        Place::Present { start, end } => start <= end && at <= len && end <= len - at,
    }
}

// Whether a message's fields do.
#[tactic(auto, unfolding(crate::specs::Lent::fields_inside))]
fn message_inside(len: usize, at: usize, slots: Slots) -> bool
    ensures { result ≡ fields_inside len at Kind.RawMessage slots }
{
    inside(len, at, slots.first)
        && inside(len, at, slots.second)
        && inside(len, at, slots.third)
        && inside(len, at, slots.fourth)
        && inside(len, at, slots.fifth)
}

// Whether the fields that a kind has do.
#[tactic(auto, unfolding(crate::specs::Lent::fields_inside))]
fn fields_inside(len: usize, at: usize, kind: Kind, slots: Slots) -> bool
    ensures { result ≡ fields_inside len at kind slots }
{
    match kind {
        Kind::SubOpts | Kind::ControlGraft | Kind::ControlPrune => inside(len, at, slots.first),
        Kind::PeerInfo => inside(len, at, slots.first) && inside(len, at, slots.second),
        Kind::RawMessage => message_inside(len, at, slots),
        _ => true,
    }
}

// Whether a row and its fields lie within len bytes.
#[tactic(auto, using(std::proofs::lemmas::Bool::Decides::nat_tests), unfolding(crate::specs::Lent::row_inside))]
fn row_inside(len: usize, r: Record) -> bool
    ensures { result ≡ row_inside len r }
{
    r.start <= r.end && r.end <= len && fields_inside(len, r.start, r.kind, r.slots)
}

// Whether a row of that kind may stand after a message or none, and after a prune or none.
#[tactic(auto, unfolding(crate::specs::Lent::held_by))]
fn held_by(message: bool, prune: bool, kind: Kind) -> bool
    ensures { result ≡ held_by message prune kind }
{
    match kind {
        Kind::SubOpts | Kind::RawMessage | Kind::ControlGraft | Kind::ControlPrune => true,
        Kind::Topic => message,
        Kind::PeerInfo => prune,
        _ => false,
    }
}

// Whether all rows are lent well.
fn lent_well(records: &[u64], bytes: &[u8]) -> bool
    ensures { result ≡ lent_well records.now bytes.now }
{
    if records.len() % RECORD_WORDS != 0 {
        return false;
    }
    let n = records.len() / RECORD_WORDS;
    let mut message = false;
    let mut prune = false;
    for i in 0..n {
        let r = row_at(records, i);
        if !held_by(message, prune, r.kind) || !row_inside(bytes.len(), r) {
            return false;
        }
        if is_code(records, i, RAW_MESSAGE) {
            message = true;
        }
        if is_code(records, i, CONTROL_PRUNE) {
            prune = true;
        }
    }
    true
}

// The bytes at a place of a row that begins at `at`; nothing where it is absent.
#[tactic(auto, using(std::proofs::lemmas::Bool::Decides::nat_tests), unfolding(crate::specs::Lent::inside_at))]
fn field_at<'b>(bytes: &'b [u8], at: usize, place: Place) -> Option<&'b [u8]>
    requires { inside_at (length bytes.now) at place ≡ true }
    ensures { option_copied result ≡ bytes_at bytes.now at place }
{
    match place {
        Place::Absent => None,
        Place::Present { start, end } => Some(&bytes[at + start..at + end]),
    }
}

// ---- 7, 11

// Whether the bytes from a to e are text.
#[tactic(auto, unfolding(crate::specs::Compose::text_fine))]
fn utf8_at(bytes: &[u8], a: usize, e: usize) -> Result<(), Wrong>
    requires { (a ≤ e) × (e ≤ length bytes.now) }
    ensures { result ≡ text_fine bytes.now (Place.Present a e) }
{
    if is_utf8(&bytes[a..e]) {
        return Ok(());
    }
    Err(Wrong::InvalidUtf8(a))
}

// Whether those at a place of a row that begins at `at` are.
#[tactic(auto, using(std::proofs::lemmas::Bool::Decides::nat_tests), unfolding(crate::specs::Compose::text_fine, crate::specs::Lent::inside_at))]
fn text_at(bytes: &[u8], at: usize, place: Place) -> Result<(), Wrong>
    requires { inside_at (length bytes.now) at place ≡ true }
    ensures { result ≡ text_fine bytes.now (moved at place) }
{
    match place {
        Place::Absent => Ok(()),
        Place::Present { start, end } => utf8_at(bytes, at + start, at + end),
    }
}

// Whether a row's topic is text.
#[tactic(auto, using(std::proofs::lemmas::Bool::Decides::nat_tests), unfolding(crate::specs::Compose::text_of, crate::specs::Compose::text_fine, crate::specs::Lent::row_inside, crate::specs::Lent::fields_inside))]
fn text_fine(bytes: &[u8], r: Record) -> Result<(), Wrong>
    requires { row_inside (length bytes.now) r ≡ true }
    ensures { result ≡ text_fine bytes.now (text_of r) }
{
    match r.kind {
        Kind::SubOpts | Kind::ControlGraft | Kind::ControlPrune => {
            text_at(bytes, r.start, r.slots.first)
        }
        Kind::Topic => utf8_at(bytes, r.start, r.end),
        _ => Ok(()),
    }
}

// The first topic that is not.
fn texts_fine(records: &[u64], bytes: &[u8]) -> Result<(), Wrong>
    requires { Inside records.now bytes.now }
    ensures { result ≡ texts_fine bytes.now (lent_rows records.now) }
{
    let n = records.len() / RECORD_WORDS;
    for i in 0..n {
        text_fine(bytes, row_at(records, i))?;
    }
    Ok(())
}

// 42, 7, 11.
#[tactic(auto, unfolding(crate::specs::Compose::lists_of, crate::specs::Compose::count_fine))]
fn lists_of(records: &[u64], bytes: &[u8]) -> Result<(), Wrong>
    ensures { result ≡ lists_of records.now bytes.now }
{
    if !lent_well(records, bytes) {
        return Err(Wrong::NotLent);
    }
    texts_fine(records, bytes)?;
    let n = records.len() / RECORD_WORDS;
    if MAX_RECORDS < n {
        return Err(Wrong::TooManyRecords(n));
    }
    Ok(())
}

// ---- writing fields

// A varint.
fn emit_varint(value: u64, out: &mut [u8], at: usize) -> usize
    ensures { Puts out.old at (uvarint value) out.new result }
{
    put_uvarint(value, out, at);
    past(at, uvarint_len(value))
}

// Bytes as they stand.
fn emit_bytes(part: &[u8], out: &mut [u8], at: usize) -> usize
    ensures { Puts out.old at part.now out.new result }
{
    put_bytes(out, at, part);
    past(at, part.len())
}

// The tag of a length-delimited field n, and its length.
fn emit_head(n: u64, len: usize, out: &mut [u8], at: usize) -> usize
    requires { n ≤ 6 }
    ensures { Puts out.old at (tag n 2 ++ uvarint len) out.new result }
{
    let i = emit_varint(n * 8 + 2, out, at);
    emit_varint(len as u64, out, i)
}

// Bytes as a field n.
fn emit_part(n: u64, part: &[u8], out: &mut [u8], at: usize) -> usize
    requires { n ≤ 6 }
    ensures { Puts out.old at (bytes_field n part.now) out.new result }
{
    let i = emit_head(n, part.len(), out, at);
    emit_bytes(part, out, i)
}

// A field of bytes, of a row that begins at `base`; nothing where it is absent.
fn emit_place(n: u64, bytes: &[u8], base: usize, place: Place, out: &mut [u8], at: usize) -> usize
    requires { (n ≤ 6) × (inside_at (length bytes.now) base place ≡ true) }
    ensures { Puts out.old at (optional (bytes_field n) (bytes_at bytes.now base place)) out.new result }
{
    match field_at(bytes, base, place) {
        None => at,
        Some(part) => emit_part(n, part, out, at),
    }
}

// A number; nothing where it is absent.
fn emit_number(n: u64, number: Number, out: &mut [u8], at: usize) -> usize
    requires { n ≤ 6 }
    ensures { Puts out.old at (optional (varint_field n) (number_at number)) out.new result }
{
    match number {
        Number::Absent => at,
        Number::Present(v) => {
            let i = emit_varint(n * 8, out, at);
            emit_varint(v, out, i)
        }
    }
}

// Of a flag only whether it is zero is written.
#[tactic(auto, using(std::proofs::lemmas::Bool::Decides::nat_tests), unfolding(crate::specs::Puts::flagged))]
fn flag(number: Number) -> Number
    ensures { result ≡ flagged number }
{
    match number {
        Number::Absent => Number::Absent,
        Number::Present(v) => Number::Present(u64::from(v != 0)),
    }
}

// ---- writing rows

// A SubOpts.
fn emit_sub_opts(bytes: &[u8], r: Record, out: &mut [u8], at: usize) -> usize
    requires { fields_inside (length bytes.now) r.start Kind.SubOpts r.slots ≡ true }
    ensures { Puts out.old at (encode_sub_opts (sub_opts_of bytes.now r)) out.new result }
{
    let i = emit_number(1, flag(r.slots.number), out, at);
    emit_place(2, bytes, r.start, r.slots.first, out, i)
}

// A GRAFT.
fn emit_graft(bytes: &[u8], r: Record, out: &mut [u8], at: usize) -> usize
    requires { fields_inside (length bytes.now) r.start Kind.ControlGraft r.slots ≡ true }
    ensures { Puts out.old at (encode_graft (graft_of bytes.now r)) out.new result }
{
    emit_place(1, bytes, r.start, r.slots.first, out, at)
}

// A PeerInfo.
fn emit_peer(bytes: &[u8], r: Record, out: &mut [u8], at: usize) -> usize
    requires { fields_inside (length bytes.now) r.start Kind.PeerInfo r.slots ≡ true }
    ensures { Puts out.old at (encode_peer_info (peer_of bytes.now r)) out.new result }
{
    let i = emit_place(1, bytes, r.start, r.slots.first, out, at);
    emit_place(2, bytes, r.start, r.slots.second, out, i)
}

// A PeerInfo as a field 2, measured before it is written.
fn emit_peer_field(bytes: &[u8], r: Record, out: &mut [u8], at: usize) -> usize
    requires { fields_inside (length bytes.now) r.start Kind.PeerInfo r.slots ≡ true }
    ensures { Puts out.old at (bytes_field 2 (encode_peer_info (peer_of bytes.now r))) out.new result }
{
    let len = emit_peer(bytes, r, &mut [], 0);
    let i = emit_head(2, len, out, at);
    let end = past(i, len);
    if out.len() < end {
        return end;
    }
    emit_peer(bytes, r, out, i)
}

// The row, where it is a peer.
fn emit_peer_at(records: &[u64], bytes: &[u8], i: usize, out: &mut [u8], at: usize) -> usize
    requires inside { Inside records.now bytes.now }
    requires i_in_bounds { i < length records.now / 20 }
    ensures { Puts out.old at (peer_part bytes.now (record_from records.now (i * 20))) out.new result }
{
    if is_code(records, i, PEER_INFO) {
        return emit_peer_field(bytes, row_at(records, i), out, at);
    }
    at
}

// The peers from a row on, up to the next prune.
fn emit_peers(records: &[u64], bytes: &[u8], from: usize, out: &mut [u8], at: usize) -> usize
    requires { Inside records.now bytes.now }
    ensures { Puts out.old at (repeated (λ p. bytes_field 2 (encode_peer_info p)) (peers_from bytes.now (rows_from records.now from))) out.new result }
{
    let n = records.len() / RECORD_WORDS;
    let mut end = at;
    for i in from..n {
        if is_code(records, i, CONTROL_PRUNE) {
            return end;
        }
        end = emit_peer_at(records, bytes, i, out, end);
    }
    end
}

// A PRUNE at a row.
fn emit_prune(records: &[u64], bytes: &[u8], i: usize, out: &mut [u8], at: usize) -> usize
    requires inside { Inside records.now bytes.now }
    requires i_in_bounds { i < length records.now / 20 }
    requires i_value { eqb (kind_code (record_from records.now (i * 20)).kind) 9 ≡ true }
    ensures { Puts out.old at (encode_prune (prune_of bytes.now (record_from records.now (i * 20)) (rows_from records.now (i + 1)))) out.new result }
{
    let r = row_at(records, i);
    let j = emit_place(1, bytes, r.start, r.slots.first, out, at);
    let k = emit_peers(records, bytes, i + 1, out, j);
    emit_number(3, r.slots.number, out, k)
}

// The row, where it is a topic.
fn emit_topic_at(records: &[u64], bytes: &[u8], i: usize, out: &mut [u8], at: usize) -> usize
    requires inside { Inside records.now bytes.now }
    requires i_in_bounds { i < length records.now / 20 }
    ensures { Puts out.old at (topic_part bytes.now (record_from records.now (i * 20))) out.new result }
{
    if is_code(records, i, TOPIC) {
        let r = row_at(records, i);
        return emit_part(4, &bytes[r.start..r.end], out, at);
    }
    at
}

// The topics from a row on, up to the next message.
fn emit_topics(records: &[u64], bytes: &[u8], from: usize, out: &mut [u8], at: usize) -> usize
    requires { Inside records.now bytes.now }
    ensures { Puts out.old at (repeated (bytes_field 4) (topics_from bytes.now (rows_from records.now from))) out.new result }
{
    let n = records.len() / RECORD_WORDS;
    let mut end = at;
    for i in from..n {
        if is_code(records, i, RAW_MESSAGE) {
            return end;
        }
        end = emit_topic_at(records, bytes, i, out, end);
    }
    end
}

// The place of a message's singular field n.
#[tactic(auto, using(std::proofs::lemmas::Bool::Decides::nat_tests), unfolding(crate::specs::Puts::slot_at))]
fn slot_at(n: u64, slots: Slots) -> Place
    ensures { result ≡ slot_at n slots }
{
    match n {
        1 => slots.first,
        2 => slots.second,
        3 => slots.third,
        5 => slots.fourth,
        _ => slots.fifth,
    }
}

// The field n of the message r at a row: its topics are those after it.
fn emit_field(
    records: &[u64],
    bytes: &[u8],
    i: usize,
    r: Record,
    n: u64,
    out: &mut [u8],
    at: usize,
) -> usize
    requires inside { Inside records.now bytes.now }
    requires message_row { IsMessageRow records.now i }
    requires r_value { (r ≡ record_from records.now (i * 20)) × (n ≤ 6) }
    ensures { Puts out.old at (field_part n bytes.now r (rows_from records.now (i + 1))) out.new result }
{
    if n == 4 {
        return emit_topics(records, bytes, i + 1, out, at);
    }
    emit_place(n, bytes, r.start, slot_at(n, r.slots), out, at)
}

// What is signed of a message at a row, after the prefix: from, data, seqno and its topics.
fn emit_fields(records: &[u64], bytes: &[u8], i: usize, out: &mut [u8], at: usize) -> usize
    requires inside { Inside records.now bytes.now }
    requires message_row { IsMessageRow records.now i }
    ensures { Puts out.old at (encode_fields (message_of bytes.now (record_from records.now (i * 20)) (rows_from records.now (i + 1)))) out.new result }
{
    let r = row_at(records, i);
    let j = emit_field(records, bytes, i, r, 1, out, at);
    let k = emit_field(records, bytes, i, r, 2, out, j);
    let l = emit_field(records, bytes, i, r, 3, out, k);
    emit_field(records, bytes, i, r, 4, out, l)
}

// A message at a row: these, signature and key.
fn emit_message(records: &[u64], bytes: &[u8], i: usize, out: &mut [u8], at: usize) -> usize
    requires inside { Inside records.now bytes.now }
    requires message_row { IsMessageRow records.now i }
    ensures { Puts out.old at (encode_message (message_of bytes.now (record_from records.now (i * 20)) (rows_from records.now (i + 1)))) out.new result }
{
    let r = row_at(records, i);
    let j = emit_fields(records, bytes, i, out, at);
    let k = emit_field(records, bytes, i, r, 5, out, j);
    emit_field(records, bytes, i, r, 6, out, k)
}

// A row of the kind with that code: a SubOpts, a message, a GRAFT or a PRUNE.
fn emit_row(records: &[u64], bytes: &[u8], i: usize, code: u64, out: &mut [u8], at: usize) -> usize
    requires inside { Inside records.now bytes.now }
    requires i_in_bounds { i < length records.now / 20 }
    requires written { Written code }
    requires code_value { eqb (kind_code (record_from records.now (i * 20)).kind) code ≡ true }
    ensures { Puts out.old at (row_bytes code bytes.now (record_from records.now (i * 20)) (rows_from records.now (i + 1))) out.new result }
{
    match code {
        SUB_OPTS => emit_sub_opts(bytes, row_at(records, i), out, at),
        RAW_MESSAGE => emit_message(records, bytes, i, out, at),
        CONTROL_GRAFT => emit_graft(bytes, row_at(records, i), out, at),
        _ => emit_prune(records, bytes, i, out, at),
    }
}

// A row as a field n, measured before it is written.
fn emit_row_field(
    records: &[u64],
    bytes: &[u8],
    i: usize,
    code: u64,
    n: u64,
    out: &mut [u8],
    at: usize,
) -> usize
    requires inside { Inside records.now bytes.now }
    requires i_in_bounds { i < length records.now / 20 }
    requires written { Written code × (n ≤ 6) }
    requires code_value { eqb (kind_code (record_from records.now (i * 20)).kind) code ≡ true }
    ensures { Puts out.old at (bytes_field n (row_bytes code bytes.now (record_from records.now (i * 20)) (rows_from records.now (i + 1)))) out.new result }
{
    let len = emit_row(records, bytes, i, code, &mut [], 0);
    let j = emit_head(n, len, out, at);
    let end = past(j, len);
    if out.len() < end {
        return end;
    }
    emit_row(records, bytes, i, code, out, j)
}

// The row, where it is of the kind with that code.
fn emit_row_at(
    records: &[u64],
    bytes: &[u8],
    i: usize,
    code: u64,
    n: u64,
    out: &mut [u8],
    at: usize,
) -> usize
    requires inside { Inside records.now bytes.now }
    requires i_in_bounds { i < length records.now / 20 }
    requires written { Written code × (n ≤ 6) }
    ensures { Puts out.old at (row_part code n bytes.now (record_from records.now (i * 20)) (rows_from records.now (i + 1))) out.new result }
{
    if is_code(records, i, code) {
        return emit_row_field(records, bytes, i, code, n, out, at);
    }
    at
}

// Each row of the kind with that code, as a field n.
fn emit_rows(records: &[u64], bytes: &[u8], code: u64, n: u64, out: &mut [u8], at: usize) -> usize
    requires inside { Inside records.now bytes.now }
    requires written { Written code × (n ≤ 6) }
    ensures { Puts out.old at (each_row code n bytes.now (lent_rows records.now)) out.new result }
{
    let rows = records.len() / RECORD_WORDS;
    let mut end = at;
    for i in 0..rows {
        end = emit_row_at(records, bytes, i, code, n, out, end);
    }
    end
}

// ---- writing an RPC

// Whether there is a graft or a prune.
fn has_control(records: &[u64]) -> bool
    ensures { result ≡ has_row (lent_rows records.now) }
{
    let n = records.len() / RECORD_WORDS;
    (0..n).any(|i| is_code(records, i, CONTROL_GRAFT) || is_code(records, i, CONTROL_PRUNE))
}

// The grafts, and then the prunes.
fn emit_entries(records: &[u64], bytes: &[u8], out: &mut [u8], at: usize) -> usize
    requires { Inside records.now bytes.now }
    ensures { Puts out.old at (each_row 8 3 bytes.now (lent_rows records.now) ++ each_row 9 4 bytes.now (lent_rows records.now)) out.new result }
{
    let i = emit_rows(records, bytes, CONTROL_GRAFT, 3, out, at);
    emit_rows(records, bytes, CONTROL_PRUNE, 4, out, i)
}

// The control, where there is a graft or a prune; measured before it is written.
fn emit_control(records: &[u64], bytes: &[u8], out: &mut [u8], at: usize) -> usize
    requires { Inside records.now bytes.now }
    ensures { Puts out.old at (control_bytes bytes.now (lent_rows records.now)) out.new result }
{
    if !has_control(records) {
        return at;
    }
    let len = emit_entries(records, bytes, &mut [], 0);
    let i = emit_head(3, len, out, at);
    let end = past(i, len);
    if out.len() < end {
        return end;
    }
    emit_entries(records, bytes, out, i)
}

// The RPC: subscriptions, messages, the control.
fn emit_rpc(records: &[u64], bytes: &[u8], out: &mut [u8]) -> usize
    requires { Inside records.now bytes.now }
    ensures { Puts out.old 0 (encode_rpc (said bytes.now (lent_rows records.now))) out.new result }
{
    let i = emit_rows(records, bytes, SUB_OPTS, 1, out, 0);
    let j = emit_rows(records, bytes, RAW_MESSAGE, 2, out, i);
    emit_control(records, bytes, out, j)
}

// ---- messages

// How many topics there are from a row on, up to the next message, and the length of the first that is too long, 0 where none is.
fn topics_from(records: &[u64], bytes: &[u8], from: usize) -> Topics
    requires { Inside records.now bytes.now }
    ensures { result ≡ in_topics (topics_from bytes.now (rows_from records.now from)) }
{
    let n = records.len() / RECORD_WORDS;
    let mut count: usize = 0;
    let mut long: usize = 0;
    for i in from..n {
        if is_code(records, i, RAW_MESSAGE) {
            return Topics { count, long };
        }
        if is_code(records, i, TOPIC) {
            let r = row_at(records, i);
            let len = r.end - r.start;
            count += 1;
            if long == 0 && MAX_TOPIC_SIZE < len {
                long = len;
            }
        }
    }
    Topics { count, long }
}

// 28, 29, 30.
#[tactic(auto, using(std::proofs::lemmas::Bool::Decides::nat_tests), unfolding(crate::specs::Weighed::limits_fine, crate::specs::Weighed::topics_fine, crate::specs::Weighed::size_fine))]
fn limits_fine(records: &[u64], bytes: &[u8], i: usize) -> Result<(), Wrong>
    requires inside { Inside records.now bytes.now }
    requires message_row { IsMessageRow records.now i }
    ensures { result ≡ limits_fine (message_of bytes.now (record_from records.now (i * 20)) (rows_from records.now (i + 1))) }
{
    let t = topics_from(records, bytes, i + 1);
    if t.count == 0 || MAX_TOPICS < t.count {
        return Err(Wrong::Unfit(Unfit::TopicCount(t.count)));
    }
    if t.long != 0 {
        return Err(Wrong::Unfit(Unfit::TopicTooLong(t.long)));
    }
    let len = emit_message(records, bytes, i, &mut [], 0);
    if MAX_MESSAGE_SIZE < len {
        return Err(Wrong::Unfit(Unfit::MessageTooLong(len)));
    }
    Ok(())
}

// 35, 36.
#[tactic(auto, unfolding(crate::specs::Weighed::key_fine))]
fn key_fine(sender: &[u8], key: Option<&[u8]>) -> Result<(), Wrong>
    ensures { result ≡ key_fine sender.now (option_copied key.entry) }
{
    let Some(key) = key else {
        if key_inside(sender) {
            return Ok(());
        }
        return Err(Wrong::Unfit(Unfit::KeyPeerIdMismatch));
    };
    if !is_key(key) {
        return Err(Wrong::Unfit(Unfit::InvalidKey));
    }
    if key_matches(sender, key) {
        return Ok(());
    }
    Err(Wrong::Unfit(Unfit::KeyPeerIdMismatch))
}

// 26.
#[tactic(auto, using(std::proofs::lemmas::Bool::Decides::nat_tests), unfolding(crate::specs::Weighed::signature_fine))]
fn signature_fine(signature: &[u8]) -> Result<(), Wrong>
    ensures { result ≡ signature_fine signature.now }
{
    let len = signature.len();
    if len == SIGNATURE_LEN {
        return Ok(());
    }
    Err(Wrong::Unfit(Unfit::InvalidSignatureLength(len)))
}

// 23.
#[tactic(auto, using(std::proofs::lemmas::Bool::Decides::nat_tests), unfolding(crate::specs::Weighed::seqno_fine))]
fn seqno_fine(seqno: &[u8]) -> Result<(), Wrong>
    ensures { result ≡ seqno_fine seqno.now }
{
    if seqno.is_empty() || 64 < seqno.len() {
        return Err(Wrong::Unfit(Unfit::InvalidSeqno));
    }
    Ok(())
}

// 21, 22, 34.
#[tactic(auto, using(std::proofs::lemmas::Bool::Decides::nat_tests), unfolding(crate::specs::Weighed::from_fine))]
fn from_fine(from: Option<&[u8]>) -> Result<(), Wrong>
    ensures { result ≡ from_fine (option_copied from.entry) }
{
    let Some(from) = from else {
        return Err(Wrong::Unfit(Unfit::MissingFrom));
    };
    if from.is_empty() || 64 < from.len() {
        return Err(Wrong::Unfit(Unfit::InvalidFrom(from.len())));
    }
    if is_peer_id(from) {
        return Ok(());
    }
    Err(Wrong::Unfit(Unfit::NotPeerId))
}

// The bytes of a field, none where it is absent.
fn given<'b>(field: Option<&'b [u8]>) -> &'b [u8]
    ensures { result.now ≡ given (option_copied field.entry) }
{
    field.unwrap_or(b"")
}

// 24 or 26, 35, 36; where unsigned messages are allowed, nothing of one with neither signature nor key.
#[tactic(auto, unfolding(crate::specs::Weighed::backed_fine))]
fn backed_fine(
    sender: &[u8],
    signature: Option<&[u8]>,
    key: Option<&[u8]>,
    unsigned: bool,
) -> Result<(), Wrong>
    ensures { result ≡ backed_fine unsigned sender.now (option_copied signature.entry) (option_copied key.entry) }
{
    if unsigned && signature.is_none() {
        if key.is_some() {
            return Err(Wrong::Unfit(Unfit::KeyWithoutSignature));
        }
        return Ok(());
    }
    signature_fine(given(signature))?;
    key_fine(sender, key)
}

// Whether the message at a row may be written under some flags.
#[tactic(auto, unfolding(crate::specs::Weighed::weighed))]
fn weigh(records: &[u64], bytes: &[u8], flags: usize, i: usize) -> Result<(), Wrong>
    requires inside { Inside records.now bytes.now }
    requires message_row { IsMessageRow records.now i }
    ensures { result ≡ weighed flags (message_of bytes.now (record_from records.now (i * 20)) (rows_from records.now (i + 1))) }
{
    let r = row_at(records, i);
    let from = field_at(bytes, r.start, r.slots.first);
    from_fine(from)?;
    seqno_fine(given(field_at(bytes, r.start, r.slots.third)))?;
    let signature = field_at(bytes, r.start, r.slots.fourth);
    let key = field_at(bytes, r.start, r.slots.fifth);
    backed_fine(given(from), signature, key, allows_unsigned(flags))?;
    limits_fine(records, bytes, i)
}

// Message by message: the first that may not be written.
fn messages_fine(records: &[u64], bytes: &[u8], flags: usize) -> Result<(), Wrong>
    requires { Inside records.now bytes.now }
    ensures { result ≡ first_unfit flags (messages_in bytes.now (lent_rows records.now)) }
{
    let n = records.len() / RECORD_WORDS;
    for i in 0..n {
        if is_code(records, i, RAW_MESSAGE) {
            weigh(records, bytes, flags, i)?;
        }
    }
    Ok(())
}

// ---- the calls

// Writes an RPC that was tested: 13, 12.
fn write_tested(records: &[u64], bytes: &[u8], out: &mut [u8]) -> Result<usize, ComposeError>
    requires { Inside records.now bytes.now }
    ensures { Leaves (answering (put_answer (encode_rpc (said bytes.now (lent_rows records.now))) out.old) (length_fine (encode_rpc (said bytes.now (lent_rows records.now)))))
        (leaving out.old (written (encode_rpc (said bytes.now (lent_rows records.now))) out.old) (length_fine (encode_rpc (said bytes.now (lent_rows records.now)))))
        result out.new }
{
    let len = emit_rpc(records, bytes, &mut []);
    if MAX_RPC_SIZE < len {
        return Err(ComposeError::Refused(Wrong::TooLong(len)));
    }
    if out.len() < len {
        return Err(ComposeError::Room(len));
    }
    emit_rpc(records, bytes, out);
    Ok(len)
}

// Writes the RPC that the lists say at the front of the lent bytes, each of its messages as the flags allow it. A refusal, and a lack of room, leave them as they were.
pub fn write_rpc(
    records: &[u64],
    bytes: &[u8],
    flags: usize,
    out: &mut [u8],
) -> Result<usize, ComposeError>
    ensures { Leaves (write_answer flags records.now bytes.now out.old)
        (write_left flags records.now bytes.now out.old) result out.new }
{
    if !known_flags(flags) {
        return Err(ComposeError::Refused(Wrong::BadSetting));
    }
    lists_of(records, bytes)?;
    messages_fine(records, bytes, flags)?;
    write_tested(records, bytes, out)
}

// The row of the message at an index: 20.
fn message_row(records: &[u64], bytes: &[u8], index: usize) -> Result<usize, Wrong>
    ensures { FindsRow records.now bytes.now index result }
{
    let n = records.len() / RECORD_WORDS;
    let mut count: usize = 0;
    for i in 0..n {
        if is_code(records, i, RAW_MESSAGE) {
            if count == index {
                return Ok(i);
            }
            count += 1;
        }
    }
    Err(Wrong::NoMessage(count))
}

// The bytes to sign of the message at a row: the prefix, then its fields.
fn emit_signed(records: &[u64], bytes: &[u8], i: usize, out: &mut [u8]) -> usize
    requires inside { Inside records.now bytes.now }
    requires message_row { IsMessageRow records.now i }
    ensures { Puts out.old 0 (sign_bytes (message_of bytes.now (record_from records.now (i * 20)) (rows_from records.now (i + 1)))) out.new result }
{
    let j = emit_bytes(b"libp2p-pubsub:", out, 0);
    emit_fields(records, bytes, i, out, j)
}

// Writes them at the front of out: 12.
fn sign_row(records: &[u64], bytes: &[u8], i: usize, out: &mut [u8]) -> Result<usize, ComposeError>
    requires inside { Inside records.now bytes.now }
    requires message_row { IsMessageRow records.now i }
    ensures { Leaves (put_answer (sign_bytes (message_of bytes.now (record_from records.now (i * 20)) (rows_from records.now (i + 1)))) out.old)
        (written (sign_bytes (message_of bytes.now (record_from records.now (i * 20)) (rows_from records.now (i + 1)))) out.old) result out.new }
{
    let needed = emit_signed(records, bytes, i, &mut []);
    if out.len() < needed {
        return Err(ComposeError::Room(needed));
    }
    emit_signed(records, bytes, i, out);
    Ok(needed)
}

// Writes the bytes to sign of the message at an index of the lists: the prefix, then from, data, seqno and every topic. A signature and a key, there or not,
// change nothing.
pub fn sign_fields(
    records: &[u64],
    bytes: &[u8],
    index: usize,
    out: &mut [u8],
) -> Result<usize, ComposeError>
    ensures { Leaves (sign_answer records.now bytes.now index out.old)
        (sign_left records.now bytes.now index out.old) result out.new }
{
    lists_of(records, bytes)?;
    let i = message_row(records, bytes, index)?;
    sign_row(records, bytes, i, out)
}
