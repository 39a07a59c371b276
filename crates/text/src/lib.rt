// Records in and lines out, for the programs that run the libraries on bytes: the header of a record, and words, decimal
// numbers and hex put into a line. A writer takes the line, a place in it and what to put there, and hands back the place after that. Where the
// line has not the room, a public writer writes nothing and hands back the place as it was.
#![tactic(auto)]

ghost use Rattle.std.specs.Prelude.{◌≡◌, ◌+◌, ◌*◌, ◌≤◌, ◌∷◌, [], length, take, false};
ghost use Rattle.io.specs.Digits.{hex_digit_ascii as glyphOf};
ghost use Rattle.basis.specs.Writing.{end_in, set_in};
ghost use Rattle.text.specs.Record.{header_of, content_length};
ghost use Rattle.text.specs.Line.{Puts, decimal, number, numbers, refused, hex};

use basis::{has_room, little_at};

// A record's kind, and how long its content is.
#[derive(Clone, Copy)]
pub struct Header {
    pub kind: u64,
    pub len: usize,
}

// Why there is no header: the record is cut, or its content is too long.
#[derive(Clone, Copy)]
pub enum HeaderError {
    Bad,
    Long,
}

// The header of a record, of which s was read: at the end of the input nothing, of a cut one less than six bytes. The length is tested as
// soon as it is there.
pub fn read_header(s: &[u8], most: u64) -> Result<Option<Header>, HeaderError>
    ensures { result ≡ header_of most s.now }
{
    if s.is_empty() {
        return Ok(None);
    }
    if s.len() < 4 {
        return Err(HeaderError::Bad);
    }
    let len = little_at(s, 0, 4);
    if most < len {
        return Err(HeaderError::Long);
    }
    if s.len() < 6 {
        return Err(HeaderError::Bad);
    }
    let kind = little_at(s, 4, 2);
    let len = len as usize;
    Ok(Some(Header { kind, len }))
}

// Reads the header of the next record from standard input.
pub fn next_header(most: u64) -> Result<Option<Header>, HeaderError>
    ensures { content_length result ≤ most }
{
    let mut head = [0u8; 6];
    let got = io::read_full(0, &mut head);
    read_header(&head[..got], most)
}

// Reads the content of a record from standard input. Answers whether it was there and had room.
pub fn read_content(content: &mut [u8], len: usize) -> bool {
    if content.len() < len {
        return false;
    }
    let got = io::read_full(0, &mut content[..len]);
    got == len
}

// Reads the next record from standard input: bad where its content is cut or has no room.
pub fn next_record(content: &mut [u8], most: u64) -> Result<Option<Header>, HeaderError>
    ensures { content_length result ≤ most }
{
    let Some(header) = next_header(most)? else {
        return Ok(None);
    };
    if read_content(content, header.len) {
        return Ok(Some(header));
    }
    Err(HeaderError::Bad)
}

// Prints the word that ends a run. Answers whether to go on.
pub fn last(word: &[u8]) -> bool
    ensures { result ≡ false }
{
    io::write_all(1, word);
    false
}

// Puts a text at `at`, where it fits, and says where it ends.
fn spell_text(out: &mut [u8], at: usize, text: &[u8]) -> usize
    requires { at + length text.now ≤ length out.old }
    ensures { Puts (length text.now) text.now out.old at out.new result }
{
    let end = at + text.len();
    out[at..end].copy_from_slice(text);
    end
}

pub fn put_text(out: &mut [u8], at: usize, text: &[u8]) -> usize
    ensures value { result ≡ end_in (length text.now) at text.now out.old }
    ensures out_after { out.new ≡ set_in (length text.now) at text.now out.old }
{
    if has_room(out.len(), at, text.len()) {
        return spell_text(out, at, text);
    }
    at
}

fn spell_decimal(out: &mut [u8], at: usize, n: u64) -> usize
    requires { at + 20 ≤ length out.old }
    ensures { Puts 20 (decimal n) out.old at out.new result }
{
    let mut text = [0u8; 20];
    let k = io::decimal(n, &mut text);
    spell_text(out, at, &text[..k])
}

pub fn put_decimal(out: &mut [u8], at: usize, n: u64) -> usize
    ensures value { result ≡ end_in 20 at (decimal n) out.old }
    ensures out_after { out.new ≡ set_in 20 at (decimal n) out.old }
{
    if has_room(out.len(), at, 20) {
        return spell_decimal(out, at, n);
    }
    at
}

// A blank and a number.
fn spell_number(out: &mut [u8], at: usize, n: u64) -> usize
    requires { at + 21 ≤ length out.old }
    ensures { Puts 21 (number n) out.old at out.new result }
{
    out[at] = b' ';
    spell_decimal(out, at + 1, n)
}

// A blank and a number.
pub fn put_number(out: &mut [u8], at: usize, n: u64) -> usize
    ensures value { result ≡ end_in 21 at (number n) out.old }
    ensures out_after { out.new ≡ set_in 21 at (number n) out.old }
{
    if has_room(out.len(), at, 21) {
        return spell_number(out, at, n);
    }
    at
}

// The first `count` of three numbers.
fn spell_numbers(
    out: &mut [u8],
    at: usize,
    count: u64,
    first: u64,
    second: u64,
    third: u64,
) -> usize
    requires { at + 63 ≤ length out.old }
    ensures { Puts 63 (numbers (take count (first ∷ second ∷ third ∷ []))) out.old at out.new result }
{
    if count == 0 {
        return at;
    }
    let i = spell_number(out, at, first);
    if count == 1 {
        return i;
    }
    let j = spell_number(out, i, second);
    if count == 2 {
        return j;
    }
    spell_number(out, j, third)
}

// The first `count` of three numbers.
pub fn put_numbers(
    out: &mut [u8],
    at: usize,
    count: u64,
    first: u64,
    second: u64,
    third: u64,
) -> usize
    ensures value { result ≡ end_in 63 at (numbers (take count (first ∷ second ∷ third ∷ []))) out.old }
    ensures out_after { out.new ≡ set_in 63 at (numbers (take count (first ∷ second ∷ third ∷ []))) out.old }
{
    if has_room(out.len(), at, 63) {
        return spell_numbers(out, at, count, first, second, third);
    }
    at
}

// A refusal: its number and the first `count` of three values.
fn spell_refused(
    out: &mut [u8],
    at: usize,
    refusal: u64,
    count: u64,
    first: u64,
    second: u64,
    third: u64,
) -> usize
    requires { at + 92 ≤ length out.old }
    ensures { Puts 92 (refused refusal (take count (first ∷ second ∷ third ∷ []))) out.old at out.new result }
{
    let i = spell_text(out, at, b" refused");
    let j = spell_number(out, i, refusal);
    spell_numbers(out, j, count, first, second, third)
}

// A refusal: its number and the first `count` of three values.
pub fn put_refused(
    out: &mut [u8],
    at: usize,
    refusal: u64,
    count: u64,
    first: u64,
    second: u64,
    third: u64,
) -> usize
    ensures value { result ≡ end_in 92 at (refused refusal (take count (first ∷ second ∷ third ∷ []))) out.old }
    ensures out_after { out.new ≡ set_in 92 at (refused refusal (take count (first ∷ second ∷ third ∷ []))) out.old }
{
    if has_room(out.len(), at, 92) {
        return spell_refused(out, at, refusal, count, first, second, third);
    }
    at
}

// A digit of a byte.
fn glyph(d: u8) -> u8
    requires { d ≤ 15 }
    ensures { result ≡ glyphOf d }
{
    if d < 10 { 48 + d } else { 87 + d }
}

// Two lower-case digits for each byte.
fn spell_hex(out: &mut [u8], at: usize, s: &[u8]) -> usize
    requires { at + 2 * length s.now ≤ length out.old }
    ensures { Puts (2 * length s.now) (hex s.now) out.old at out.new result }
{
    let mut i = at;
    for b in s {
        out[i] = glyph(b / 16);
        out[i + 1] = glyph(b % 16);
        i += 2;
    }
    i
}

// Two lower-case digits for each byte. Twice their number could pass a usize, so the room is tested in two steps.
pub fn put_hex(out: &mut [u8], at: usize, s: &[u8]) -> usize
    ensures value { result ≡ end_in (2 * length s.now) at (hex s.now) out.old }
    ensures out_after { out.new ≡ set_in (2 * length s.now) at (hex s.now) out.old }
{
    if has_room(out.len(), at, s.len()) {
        if has_room(out.len(), at + s.len(), s.len()) {
            return spell_hex(out, at, s);
        }
    }
    at
}
