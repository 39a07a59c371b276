// Lines and their pieces, for the programs that answer records. A writer wants a number of bytes, the same for each of its texts; where they are
// not there, nothing is written, and the place comes back as it was.
#![tactic(auto)]

ghost use Rattle.std.specs.Prelude.{◌≡◌, ◌+◌, ◌-◌, ◌≤◌, cond, [], ◌∷◌, ◌++◌, length, take};
ghost use Rattle.basis.specs.Spot.{fields_of};
ghost use Rattle.text.specs.Line.{Puts, decimal, number, numbers, refused};
ghost use Rattle.lines.specs.Lines.{Wrote, fields_text, spot_text, refusal, shown_text, words_line, number_line, refusal_line};
ghost use Rattle.lines.specs.Lines.{told_line, either_line, bytes_line, made_line};

use basis::{Spot, Told, has_room};

pub fn put_word(out: &mut [u8], at: usize, word: &[u8]) -> usize
    ensures { Wrote (length word.now) word.now out.old at out.new result }
{
    text::put_text(out, at, word)
}

// A record's number, at the front of its line.
pub fn start_line(out: &mut [u8], n: u64) -> usize
    ensures { Wrote 20 (decimal n) out.old 0 out.new result }
{
    text::put_decimal(out, 0, n)
}

// A blank and a number.
pub fn put_value(out: &mut [u8], at: usize, n: u64) -> usize
    ensures { Wrote 21 (number n) out.old at out.new result }
{
    text::put_number(out, at, n)
}

// The first `count` of three numbers.
fn put_values(out: &mut [u8], at: usize, count: u64, first: u64, second: u64, third: u64) -> usize
    requires { at + 63 ≤ length out.old }
    ensures { Puts 63 (numbers (take count (first ∷ second ∷ third ∷ []))) out.old at out.new result }
{
    text::put_numbers(out, at, count, first, second, third)
}

// A refusal with the first `count` of three values.
fn put_refused(
    out: &mut [u8],
    at: usize,
    refusal: u64,
    count: u64,
    first: u64,
    second: u64,
    third: u64,
) -> usize
    ensures { Wrote 92 (refused refusal (take count (first ∷ second ∷ third ∷ []))) out.old at out.new result }
{
    text::put_refused(out, at, refusal, count, first, second, third)
}

// The fields that enclose a place.
fn put_fields(out: &mut [u8], at: usize, spot: Spot) -> usize
    requires { at + 66 ≤ length out.old }
    ensures { Puts 66 (fields_text (fields_of (Some spot))) out.old at out.new result }
{
    let count = spot.depth();
    if count == 0 {
        return at;
    }
    let i = put_word(out, at, b" in");
    put_values(out, i, count, spot.outer, spot.middle, spot.inner)
}

// Where in the body a refusal stands.
fn put_spot(out: &mut [u8], at: usize, spot: Option<Spot>) -> usize
    requires { at + 90 ≤ length out.old }
    ensures { Puts 90 (spot_text spot) out.old at out.new result }
{
    match spot {
        None => at,
        Some(spot) => {
            let i = put_word(out, at, b" at");
            let j = put_value(out, i, spot.offset as u64);
            put_fields(out, j, spot)
        }
    }
}

// A refusal of the scope's table, with its values and its place.
pub fn put_refusal(out: &mut [u8], at: usize, t: Told) -> usize
    ensures { Wrote 182 (refusal t) out.old at out.new result }
{
    if has_room(out.len(), at, 182) {
        let i = put_refused(
            out,
            at,
            t.number as u64,
            t.count as u64,
            t.first,
            t.second,
            t.third,
        );
        return put_spot(out, i, t.spot);
    }
    at
}

// Its number alone where it is not to be shown in full.
fn put_told(out: &mut [u8], at: usize, full: bool, t: Told) -> usize
    requires { at + 182 ≤ length out.old }
    ensures { Puts 182 (cond full (refusal t) (refused t.number [])) out.old at out.new result }
{
    if full {
        return put_refusal(out, at, t);
    }
    put_refused(out, at, t.number as u64, 0, 0, 0, 0)
}

// The hex of the first bytes. A writer never counts more than it was lent.
fn put_hex_of(out: &mut [u8], at: usize, made: &[u8], count: usize) -> usize
    requires made_len_bound { length made.now ≤ 65600 }
    requires at_in_bounds { at + 131201 ≤ length out.old }
    ensures { Puts 131201 (shown_text made.now count) out.old at out.new result }
{
    if count == 0 {
        return at;
    }
    if made.len() < count {
        return at;
    }
    let i = put_word(out, at, b" ");
    text::put_hex(out, i, &made[..count])
}

// How many bytes were made and, above 0, their hex.
fn put_shown(out: &mut [u8], at: usize, made: &[u8], count: usize) -> usize
    requires made_len_bound { length made.now ≤ 65600 }
    requires at_in_bounds { at + 131222 ≤ length out.old }
    ensures { Puts 131222 (number count ++ shown_text made.now count) out.old at out.new result }
{
    let i = put_value(out, at, count as u64);
    put_hex_of(out, i, made, count)
}

// A newline.
pub fn end_line(out: &mut [u8], at: usize) -> usize
    ensures { Wrote 1 (10 ∷ []) out.old at out.new result }
{
    put_word(out, at, b"\n")
}

// Puts the line of record n at the front of out and says how long it is: the words. 256 bytes hold each line that shows no bytes.
pub fn words_line(n: u64, words: &[u8], out: &mut [u8]) -> usize
    ensures { Wrote 256 (words_line n words.now) out.old 0 out.new result }
{
    if 32 < words.len() {
        return 0;
    }
    if out.len() < 256 {
        return 0;
    }
    let i = start_line(out, n);
    let j = put_word(out, i, words);
    end_line(out, j)
}

// The words and a number.
pub fn number_line(n: u64, words: &[u8], value: u64, out: &mut [u8]) -> usize
    ensures { Wrote 256 (number_line n words.now value) out.old 0 out.new result }
{
    if 32 < words.len() {
        return 0;
    }
    if out.len() < 256 {
        return 0;
    }
    let i = start_line(out, n);
    let j = put_word(out, i, words);
    let k = put_value(out, j, value);
    end_line(out, k)
}

// The words and a refusal, with its values and its place where `full`.
pub fn refusal_line(n: u64, words: &[u8], full: bool, t: Told, out: &mut [u8]) -> usize
    ensures { Wrote 256 (refusal_line n words.now full t) out.old 0 out.new result }
{
    if 32 < words.len() {
        return 0;
    }
    if out.len() < 256 {
        return 0;
    }
    let i = start_line(out, n);
    let j = put_word(out, i, words);
    let k = put_told(out, j, full, t);
    end_line(out, k)
}

// The words for what was done; or those of the call, and its refusal.
pub fn told_line(n: u64, done: &[u8], words: &[u8], full: bool, t: Told, out: &mut [u8]) -> usize
    ensures { Wrote 256 (told_line n done.now words.now full t) out.old 0 out.new result }
{
    if t.number == 0 {
        return words_line(n, done, out);
    }
    refusal_line(n, words, full, t, out)
}

// The same with two ways to be done: the first value is 1, or it is not.
pub fn either_line(
    n: u64,
    one: &[u8],
    other: &[u8],
    words: &[u8],
    full: bool,
    t: Told,
    out: &mut [u8],
) -> usize
    ensures { Wrote 256 (either_line n one.now other.now words.now full t) out.old 0 out.new result }
{
    if t.first == 1 {
        return told_line(n, one, words, full, t, out);
    }
    told_line(n, other, words, full, t, out)
}

// One less, at least 0.
fn further(count: u8) -> u64
    ensures { result ≡ count - 1 }
{
    count.saturating_sub(1) as u64
}

// The call, the bytes that it made, and what it tells further.
fn bytes_line(n: u64, words: &[u8], made: &[u8], t: Told, out: &mut [u8]) -> usize
    requires { 131350 ≤ length out.old }
    ensures { Wrote 131350 (bytes_line n words.now made.now t) out.old 0 out.new result }
{
    if 32 < words.len() {
        return 0;
    }
    if 65600 < made.len() {
        return 0;
    }
    let count = further(t.count);
    let i = start_line(out, n);
    let j = put_word(out, i, words);
    let k = put_shown(out, j, made, t.first as usize);
    let l = put_values(out, k, count, t.second, t.third, t.fourth);
    end_line(out, l)
}

// The line of a call that writes bytes: how many and, above 0, their hex, and what it tells further; or its refusal. 131,350 bytes hold each, the
// hex of 65,600 bytes and some numbers and words.
pub fn made_line(n: u64, words: &[u8], full: bool, made: &[u8], t: Told, out: &mut [u8]) -> usize
    ensures { Wrote 131350 (made_line n words.now full made.now t) out.old 0 out.new result }
{
    if out.len() < 131350 {
        return 0;
    }
    if t.number == 0 {
        return bytes_line(n, words, made, t, out);
    }
    refusal_line(n, words, full, t, out)
}
