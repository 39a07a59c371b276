// Answers records from standard input, a line for each: the record's number from 1, the call, the answer. A record is its content's length
// (u32), its kind (u16) and its content, little-endian. Kinds: 1 decode (body), 2 encode (body), 3 sign (index u16, body),
// 4 id (index u16, body), 5 walk (place u64, body), 6 varint (bytes), 7 utf8 (bytes), 8 key (bytes), 9 peer (bytes),
// 10 write (lists), 11 tosign (index u16, lists); what lists are stands in specs/Lists.antt. 21 to 25 are a dialect u8, 0 to 3 (bit 0: 0 is gossipsub
// 1.1, 1 is 1.2; bit 1: groups are passed over), and then as 1 to 5, which read in dialect 0. After the line of kinds 1 and 21 come those of the
// body's records.
#![tactic(auto)]

mod lists;
mod made;
mod records;
mod senders;

ghost use Rattle.std.specs.Prelude.{◌+◌, ◌≤◌, ◌<◌, ◌≡◌, length, ltb};
ghost use Rattle.text.specs.Line.{Puts};
ghost use Rattle.lines.specs.Lines.{Wrote};
ghost use Rattle.inspect.specs.Answers.{walk, varint, walk_answer, spoken_answer, varint_answer, utf8_answer, answer_to, line_of};

use basis::{Dialect, Mode, dialect_of};
use compose::told::told_composed;
use compose::{sign_fields, write_rpc};
use ids::told::told_message;
use lines::{end_line, put_refusal, put_value, put_word, start_line};
use lists::read_lists;
use made::{encode_line, id_line, sign_line, tosign_line, write_line};
use message::told::told_decoded;
use peer_id::VarintError;
use peer_id::told::told_varint;
use protobuf::told::{told_encoded, told_refusal};
use protobuf::{Cursor, Refusal, Walked};
use records::{decode_line, records_in, row_line};
use senders::{answer_key, answer_peer};
use text::{Header, HeaderError, last, next_header};

// The highest number of a dialect.
const MAX_DIALECT: u64 = 3;

// The buffers of a run: a record's content, the table of a body's records or of lists, what a call makes, and a line.
type Content = [u8; 65600];

type Table = [u64; 12800];

type Made = [u8; 65600];

type Lines = [u8; 787456];

// One step of the field walk.
fn put_walk(out: &mut [u8], at: usize, w: Result<Option<Walked>, Refusal>) -> usize
    requires { at + 182 ≤ length out.old }
    ensures { Puts 182 (walk w) out.old at out.new result }
{
    match w {
        Ok(None) => put_word(out, at, b" end"),
        Ok(Some(found)) => {
            let i = put_value(out, at, found.field);
            let j = put_value(out, i, found.wire_type as u64);
            let k = put_value(out, j, found.tag_end as u64);
            put_value(out, k, found.next.at as u64)
        }
        Err(refusal) => put_refusal(out, at, told_refusal(refusal)),
    }
}

fn put_varint(out: &mut [u8], at: usize, v: Result<(u64, usize), VarintError>) -> usize
    requires { at + 182 ≤ length out.old }
    ensures { Puts 182 (varint v) out.old at out.new result }
{
    match v {
        Ok((value, used)) => {
            let i = put_value(out, at, value);
            put_value(out, i, used as u64)
        }
        Err(why) => put_refusal(out, at, told_varint(why)),
    }
}

// Kind 5, in a mode: the place, and then the body.
fn answer_walk(mode: Mode, content: &[u8], out: &mut [u8], at: usize) -> usize
    requires { at + 131227 ≤ length out.old }
    ensures { Puts 131227 (walk_answer mode content.now) out.old at out.new result }
{
    if content.len() < 8 {
        return at;
    }
    let place = basis::little_at(content, 0, 8);
    let cursor = Cursor { at: place as usize };
    let w = cursor.step(mode, &content[8..]);
    let i = put_word(out, at, b" walk");
    put_walk(out, i, w)
}

// Kind 25: the number of a dialect, of which the mode counts, and then as kind 5.
fn answer_spoken(content: &[u8], out: &mut [u8], at: usize) -> usize
    requires { at + 131227 ≤ length out.old }
    ensures { Puts 131227 (spoken_answer content.now) out.old at out.new result }
{
    if content.len() < 1 {
        return at;
    }
    let number = basis::little_at(content, 0, 1);
    if MAX_DIALECT < number {
        return at;
    }
    let dialect = dialect_of(number);
    let mode = dialect.mode;
    answer_walk(mode, &content[1..], out, at)
}

// Kind 6.
fn answer_varint(content: &[u8], out: &mut [u8], at: usize) -> usize
    requires { at + 131227 ≤ length out.old }
    ensures { Puts 131227 (varint_answer content.now) out.old at out.new result }
{
    let v = peer_id::read_uvarint(content);
    let i = put_word(out, at, b" varint");
    put_varint(out, i, v)
}

// Kind 7.
fn answer_utf8(content: &[u8], out: &mut [u8], at: usize) -> usize
    requires { at + 131227 ≤ length out.old }
    ensures { Puts 131227 (utf8_answer content.now) out.old at out.new result }
{
    if utf8::is_utf8(content) {
        return put_word(out, at, b" utf8 yes");
    }
    put_word(out, at, b" utf8 no")
}

// The call and the answer; nothing where the record is bad.
fn answer(kind: u64, content: &[u8], out: &mut [u8], at: usize) -> usize
    requires content_len_bound { length content.now ≤ 65600 }
    requires at_in_bounds { at + 131227 ≤ length out.old }
    ensures { Puts 131227 (answer_to kind content.now) out.old at out.new result }
{
    match kind {
        5 => answer_walk(Mode::Plain, content, out, at),
        6 => answer_varint(content, out, at),
        7 => answer_utf8(content, out, at),
        8 => answer_key(content, out, at),
        9 => answer_peer(content, out, at),
        25 => answer_spoken(content, out, at),
        _ => at,
    }
}

// Whether content is the number of a dialect, a place and a body.
fn has_spoken(content: &[u8]) -> bool
    ensures { result ≡ ltb 0 (length (spoken_answer content.now)) }
{
    if content.len() < 9 {
        return false;
    }
    let number = basis::little_at(content, 0, 1);
    number <= MAX_DIALECT
}

// Whether there is an answer. The record is bad where there is none.
fn has_answer(kind: u64, content: &[u8]) -> bool
    ensures { result ≡ ltb 0 (length (answer_to kind content.now)) }
{
    match kind {
        5 => 8 <= content.len(),
        6 => true,
        7 => true,
        8 => true,
        9 => true,
        25 => has_spoken(content),
        _ => false,
    }
}

// Puts the line of record n at the front of out and says how long it is.
fn line(n: u64, kind: u64, content: &[u8], out: &mut [u8]) -> usize
    requires nonzero { 0 < length (answer_to kind content.now) }
    requires content_len_bound { length content.now ≤ 65600 }
    requires in_bounds { 131328 ≤ length out.old }
    ensures { Wrote 131328 (line_of n kind content.now) out.old 0 out.new result }
{
    let i = start_line(out, n);
    let j = answer(kind, content, out, i);
    end_line(out, j)
}

// Prints a line of k bytes. Answers whether it was printed.
fn print(out: &[u8], k: usize) -> bool
    requires { k ≤ length out.now }
{
    io::write_all(1, &out[..k])
}

// Prints the lines of the first `count` rows of the table. Answers whether they were printed.
fn print_rows(body: &[u8], table: &[u64], count: usize, out: &mut Lines) -> bool
    requires { length body.now ≤ 65600 }
{
    for row in 0..count {
        let k = row_line(body, table, row, out);
        if !print(out, k) {
            return false;
        }
    }
    true
}

// Kind 1: prints the line of record n, and those of the body's records. Answers whether to go on.
fn reply_decode(n: u64, dialect: Dialect, body: &[u8], table: &mut Table, out: &mut Lines) -> bool
    requires { length body.now ≤ 65600 }
{
    let d = message::decode(dialect, body, table);
    let t = told_decoded(d);
    let k = decode_line(n, t, out);
    if !print(out, k) {
        return false;
    }
    let count = records_in(t);
    print_rows(body, table, count, out)
}

// Kind 2.
fn reply_encode(n: u64, dialect: Dialect, body: &[u8], made: &mut [u8], out: &mut Lines) -> bool
    requires { length made.old ≤ 65600 }
{
    let e = encode::encode(dialect, body, made);
    let k = encode_line(n, made, told_encoded(e), out);
    print(out, k)
}

// Kind 3: the index, and then the body.
fn reply_sign(n: u64, dialect: Dialect, content: &[u8], made: &mut [u8], out: &mut Lines) -> bool
    requires { length made.old ≤ 65600 }
{
    if content.len() < 2 {
        return last(b"bad\n");
    }
    let index = basis::little_at(content, 0, 2);
    let r = encode::sign_bytes(dialect, &content[2..], index as usize, made);
    let k = sign_line(n, made, told_message(r), out);
    print(out, k)
}

// Kind 4: the index, and then the body.
fn reply_id(n: u64, dialect: Dialect, content: &[u8], made: &mut [u8], out: &mut Lines) -> bool
    requires { length made.old ≤ 65600 }
{
    if content.len() < 2 {
        return last(b"bad\n");
    }
    let index = basis::little_at(content, 0, 2);
    let r = ids::message_id(dialect, &content[2..], index as usize, made);
    let k = id_line(n, made, told_message(r), out);
    print(out, k)
}

// Kinds 1 to 4 in a dialect, those that write bytes with their buffer.
fn reply_body(
    n: u64,
    kind: u64,
    dialect: Dialect,
    content: &[u8],
    table: &mut Table,
    made: &mut Made,
    out: &mut Lines,
) -> bool
    requires { length content.now ≤ 65600 }
{
    match kind {
        1 => reply_decode(n, dialect, content, table, out),
        2 => reply_encode(n, dialect, content, &mut made[..65536], out),
        3 => reply_sign(n, dialect, content, made, out),
        _ => reply_id(n, dialect, content, &mut made[..65536], out),
    }
}

// Kinds 21 to 24: the number of a dialect, and then the content of `kind`, one of 1 to 4.
fn reply_spoken(
    n: u64,
    kind: u64,
    content: &[u8],
    table: &mut Table,
    made: &mut Made,
    out: &mut Lines,
) -> bool
    requires { length content.now ≤ 65600 }
{
    if content.len() < 1 {
        return last(b"bad\n");
    }
    let number = basis::little_at(content, 0, 1);
    if MAX_DIALECT < number {
        return last(b"bad\n");
    }
    let dialect = dialect_of(number);
    reply_body(n, kind, dialect, &content[1..], table, made, out)
}

// The line of an RPC that is written from lists, in all of `made`. Each message must be signed.
fn write_lists(n: u64, records: &[u64], bytes: &[u8], made: &mut [u8], out: &mut Lines) -> bool
    requires { length made.old ≤ 65600 }
{
    let r = write_rpc(records, bytes, 0, made);
    let k = write_line(n, made, told_composed(r), out);
    print(out, k)
}

// Kind 10: as many bytes of the buffer are lent as the room says.
fn reply_write(n: u64, content: &[u8], table: &mut Table, made: &mut Made, out: &mut Lines) -> bool
    requires { length content.now ≤ 65600 }
{
    let Some(lent) = read_lists(content, table) else {
        return last(b"bad\n");
    };
    write_lists(
        n,
        &table[..lent.words],
        &content[lent.start..],
        &mut made[..lent.room],
        out,
    )
}

// The line of the bytes to sign of a message of lists, in all of `made`.
fn sign_lists(
    n: u64,
    records: &[u64],
    bytes: &[u8],
    index: usize,
    made: &mut [u8],
    out: &mut Lines,
) -> bool
    requires { length made.old ≤ 65600 }
{
    let r = sign_fields(records, bytes, index, made);
    let k = tosign_line(n, made, told_composed(r), out);
    print(out, k)
}

// The same, from the content behind the index.
fn reply_tosign(
    n: u64,
    index: usize,
    content: &[u8],
    table: &mut Table,
    made: &mut Made,
    out: &mut Lines,
) -> bool
    requires { length content.now ≤ 65600 }
{
    let Some(lent) = read_lists(content, table) else {
        return last(b"bad\n");
    };
    sign_lists(
        n,
        &table[..lent.words],
        &content[lent.start..],
        index,
        &mut made[..lent.room],
        out,
    )
}

// The kinds that take lists. Kind 11: the index, and then as kind 10.
fn reply_lists(
    n: u64,
    kind: u64,
    content: &[u8],
    table: &mut Table,
    made: &mut Made,
    out: &mut Lines,
) -> bool
    requires { length content.now ≤ 65600 }
{
    if kind == 10 {
        return reply_write(n, content, table, made, out);
    }
    if content.len() < 2 {
        return last(b"bad\n");
    }
    let index = basis::little_at(content, 0, 2);
    reply_tosign(n, index as usize, &content[2..], table, made, out)
}

// Kinds 5 to 9, and 25.
fn reply_line(n: u64, kind: u64, content: &[u8], out: &mut Lines) -> bool
    requires { length content.now ≤ 65600 }
{
    if has_answer(kind, content) {
        let k = line(n, kind, content, out);
        return print(out, k);
    }
    last(b"bad\n")
}

// Reads the content of record n and prints its line. Answers whether to go on.
fn reply(
    n: u64,
    kind: u64,
    len: usize,
    content: &mut Content,
    table: &mut Table,
    made: &mut Made,
    out: &mut Lines,
) -> bool
    requires { len ≤ 65600 }
{
    let got = io::read_full(0, &mut content[..len]);
    if got < len {
        return last(b"bad\n");
    }
    match kind {
        1..=4 => reply_body(n, kind, dialect_of(0), &content[..len], table, made, out),
        10 | 11 => reply_lists(n, kind, &content[..len], table, made, out),
        21..=24 => reply_spoken(n, kind - 20, &content[..len], table, made, out),
        _ => reply_line(n, kind, &content[..len], out),
    }
}

// Reads a record and prints its line, or the word that ends the run. Answers whether to go on.
fn turn(
    n: u64,
    content: &mut Content,
    table: &mut Table,
    made: &mut Made,
    out: &mut Lines,
) -> bool {
    match next_header(65600) {
        Ok(None) => false,
        Err(HeaderError::Bad) => last(b"bad\n"),
        Err(HeaderError::Long) => last(b"long\n"),
        Ok(Some(Header { kind, len })) => reply(n, kind, len, content, table, made, out),
    }
}

// The count of records only bounds the loop: no run uses it up.
fn main() {
    let mut content = [0u8; 65600];
    let mut table = [0u64; 12800];
    let mut made = [0u8; 65600];
    let mut out = [0u8; 787456];
    for n in 1..u64::MAX {
        if !turn(n, &mut content, &mut table, &mut made, &mut out) {
            break;
        }
    }
}
