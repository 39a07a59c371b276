// The answer to a body: a line for the call, and a line for each record. Absent is `-`; bytes are `=` and their hex. A field takes at most
// 131,202 bytes, the hex of 65,600 and two more; a message has six of them, and 787,456 hold each line.
ghost use Rattle.std.specs.Prelude.{◌+◌, ◌*◌, ◌≤◌, ◌≡◌, [], ◌∷◌, ◌++◌, length};
ghost use Rattle.text.specs.Line.{Puts};
ghost use Rattle.message.specs.Rows.{record_at};
ghost use Rattle.lines.specs.Lines.{Wrote};
ghost use Rattle.inspect.specs.Records.{bytes_text, place_text, count_text, flag_text, sub_text, message_text, prune_text, peer_text, record_text, record_line, row_line, decoded_text, decode_line, records_in};

use basis::Told;
use lines::{end_line, put_value, put_word, refusal_line, start_line};
use message::Record;
use schema::{Kind, Number, Place, Slots};

// A blank, `=` and hex.
pub(crate) fn put_bytes(out: &mut [u8], at: usize, s: &[u8]) -> usize
    requires { at + (2 + 2 * length s.now) ≤ length out.old }
    ensures { Puts (2 + 2 * length s.now) (bytes_text s.now) out.old at out.new result }
{
    let i = put_word(out, at, b" =");
    text::put_hex(out, i, s)
}

// A field of a record whose bytes are s. After decode each place lies within s.
fn put_place(out: &mut [u8], at: usize, s: &[u8], place: Place) -> usize
    requires s_len_bound { length s.now ≤ 65600 }
    requires at_in_bounds { at + 131202 ≤ length out.old }
    ensures { Puts 131202 (place_text s.now place) out.old at out.new result }
{
    match place {
        Place::Absent => put_word(out, at, b" -"),
        Place::Present { start, end } => {
            if end < start {
                return put_word(out, at, b" -");
            }
            if s.len() < end {
                return put_word(out, at, b" -");
            }
            put_bytes(out, at, &s[start..end])
        }
    }
}

fn put_count(out: &mut [u8], at: usize, number: Number) -> usize
    requires { at + 21 ≤ length out.old }
    ensures { Puts 21 (count_text number) out.old at out.new result }
{
    match number {
        Number::Absent => put_word(out, at, b" -"),
        Number::Present(v) => put_value(out, at, v),
    }
}

fn put_flag(out: &mut [u8], at: usize, number: Number) -> usize
    requires { at + 2 ≤ length out.old }
    ensures { Puts 2 (flag_text number) out.old at out.new result }
{
    match number {
        Number::Absent => put_word(out, at, b" -"),
        Number::Present(v) => {
            if v == 0 {
                return put_word(out, at, b" 0");
            }
            put_word(out, at, b" 1")
        }
    }
}

// A record that is only its bytes: a topic or a message id.
fn put_whole(out: &mut [u8], word: &[u8], s: &[u8]) -> usize
    requires { length word.now + (2 + 2 * length s.now) ≤ length out.old }
    ensures { Puts (length word.now + (2 + 2 * length s.now)) (word.now ++ bytes_text s.now) out.old 0 out.new result }
{
    let i = put_word(out, 0, word);
    put_bytes(out, i, s)
}

// A record's word and its first field.
fn put_first(out: &mut [u8], word: &[u8], s: &[u8], first: Place) -> usize
    requires s_len_bound { length s.now ≤ 65600 }
    requires word_in_bounds { length word.now + 131202 ≤ length out.old }
    ensures { Puts (length word.now + 131202) (word.now ++ place_text s.now first) out.old 0 out.new result }
{
    let i = put_word(out, 0, word);
    put_place(out, i, s, first)
}

fn put_sub(out: &mut [u8], s: &[u8], slots: Slots) -> usize
    requires s_len_bound { length s.now ≤ 65600 }
    requires in_bounds { 787455 ≤ length out.old }
    ensures { Puts 787455 (sub_text s.now slots) out.old 0 out.new result }
{
    let subscribe = slots.number;
    let topic_id = slots.first;
    let i = put_word(out, 0, b"  sub");
    let j = put_flag(out, i, subscribe);
    put_place(out, j, s, topic_id)
}

fn put_message(out: &mut [u8], s: &[u8], slots: Slots) -> usize
    requires s_len_bound { length s.now ≤ 65600 }
    requires in_bounds { 787455 ≤ length out.old }
    ensures { Puts 787455 (message_text s.now slots) out.old 0 out.new result }
{
    let from = slots.first;
    let data = slots.second;
    let seqno = slots.third;
    let signature = slots.fourth;
    let key = slots.fifth;
    let i = put_whole(out, b"  message", s);
    let j = put_place(out, i, s, from);
    let k = put_place(out, j, s, data);
    let l = put_place(out, k, s, seqno);
    let m = put_place(out, l, s, signature);
    put_place(out, m, s, key)
}

fn put_prune(out: &mut [u8], s: &[u8], slots: Slots) -> usize
    requires s_len_bound { length s.now ≤ 65600 }
    requires in_bounds { 787455 ≤ length out.old }
    ensures { Puts 787455 (prune_text s.now slots) out.old 0 out.new result }
{
    let topic_id = slots.first;
    let backoff = slots.number;
    let i = put_first(out, b"  prune", s, topic_id);
    put_count(out, i, backoff)
}

fn put_peer(out: &mut [u8], s: &[u8], slots: Slots) -> usize
    requires s_len_bound { length s.now ≤ 65600 }
    requires in_bounds { 787455 ≤ length out.old }
    ensures { Puts 787455 (peer_text s.now slots) out.old 0 out.new result }
{
    let peer_id = slots.first;
    let signed_peer_record = slots.second;
    let i = put_first(out, b"  peer", s, peer_id);
    put_place(out, i, s, signed_peer_record)
}

// A record whose bytes are s. No record is an RPC or a control.
fn put_record(out: &mut [u8], s: &[u8], kind: Kind, slots: Slots) -> usize
    requires s_len_bound { length s.now ≤ 65600 }
    requires in_bounds { 787455 ≤ length out.old }
    ensures { Puts 787455 (record_text kind s.now slots) out.old 0 out.new result }
{
    let topic_id = slots.first;
    match kind {
        Kind::Rpc(_) => put_word(out, 0, b"  rpc"),
        Kind::SubOpts => put_sub(out, s, slots),
        Kind::RawMessage => put_message(out, s, slots),
        Kind::Topic => put_whole(out, b"  topic", s),
        Kind::ControlMessage(_) => put_word(out, 0, b"  control"),
        Kind::ControlIHave => put_first(out, b"  ihave", s, topic_id),
        Kind::ControlIWant => put_word(out, 0, b"  iwant"),
        Kind::MessageId => put_whole(out, b"  id", s),
        Kind::ControlGraft => put_first(out, b"  graft", s, topic_id),
        Kind::ControlPrune => put_prune(out, s, slots),
        Kind::PeerInfo => put_peer(out, s, slots),
        Kind::ControlIDontWant => put_word(out, 0, b"  idontwant"),
    }
}

// Puts the line of a record of the body at the front of out and says how long it is: 0 where the record does not lie within the body. After
// decode each does.
fn record_line(body: &[u8], found: Record, out: &mut [u8]) -> usize
    requires body_len_bound { length body.now ≤ 65600 }
    requires in_bounds { 787456 ≤ length out.old }
    ensures { Wrote 787456 (record_line body.now found) out.old 0 out.new result }
{
    let start = found.start;
    let end = found.end;
    if end < start {
        return 0;
    }
    if body.len() < end {
        return 0;
    }
    let kind = found.kind;
    let i = put_record(out, &body[start..end], kind, found.slots);
    end_line(out, i)
}

// The line of the record at a row of the table; 0 where the table has no such row.
pub(crate) fn row_line(body: &[u8], table: &[u64], row: usize, out: &mut [u8]) -> usize
    requires body_len_bound { length body.now ≤ 65600 }
    requires in_bounds { 787456 ≤ length out.old }
    ensures { Wrote 787456 (row_line body.now (record_at table.now row)) out.old 0 out.new result }
{
    match message::record_at(table, row) {
        None => 0,
        Some(found) => record_line(body, found, out),
    }
}

// How many records there are, and whether a control is there.
fn put_decoded(out: &mut [u8], at: usize, t: Told) -> usize
    requires { at + 39 ≤ length out.old }
    ensures { Puts 39 (decoded_text t) out.old at out.new result }
{
    let i = put_word(out, at, b" decode ok");
    let j = put_value(out, i, t.first);
    if t.second == 1 {
        return put_word(out, j, b" control");
    }
    put_word(out, j, b" plain")
}

// Puts the line of record n at the front of out and says how long it is.
pub(crate) fn decode_line(n: u64, t: Told, out: &mut [u8]) -> usize
    requires { 256 ≤ length out.old }
    ensures { Wrote 256 (decode_line n t) out.old 0 out.new result }
{
    if t.number == 0 {
        let i = start_line(out, n);
        let j = put_decoded(out, i, t);
        return end_line(out, j);
    }
    refusal_line(n, b" decode", true, t, out)
}

// How many records were written to the table.
pub(crate) fn records_in(t: Told) -> usize
    ensures { result ≡ records_in t }
{
    if t.number == 0 { t.first as usize } else { 0 }
}
