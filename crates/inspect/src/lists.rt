// The lists of kinds 10 and 11: the room, how many rows, the rows, and then the lent bytes. The words of the rows go to a table.
ghost use Rattle.std.specs.Prelude.{◌+◌, ◌*◌, ◌≤◌, ◌≡◌, [], ◌∷◌, length};
ghost use Rattle.std.proofs.lemmas.List.Edits.{sets};
ghost use Rattle.inspect.specs.Lists.{word_if, fields_words, fields_end, words_by, words_end, RowRead, RowsRead, ListsRead};

use basis::{has_room, little_at};

// How much room there is, how many words the rows have in the table, and where the lent bytes begin.
#[derive(Clone, Copy)]
pub(crate) struct Lent {
    pub room: usize,
    pub words: usize,
    pub start: usize,
}

// The word at a place where a bit is set, else 0.
fn word_if(bit: u64, s: &[u8], at: usize) -> u64
    ensures { result ≡ word_if bit s.now at }
{
    if bit == 0 {
        return 0;
    }
    little_at(s, at, 8)
}

// Three words at i; the place after them.
fn put_three(table: &mut [u64], i: usize, a: u64, b: u64, c: u64) -> usize
    requires { i + 3 ≤ length table.old }
    ensures value { result ≡ i + 3 }
    ensures table_after { table.new ≡ sets table.old i (a ∷ b ∷ c ∷ []) }
{
    table[i] = a;
    table[i + 1] = b;
    table[i + 2] = c;
    i + 3
}

// The words of five fields, by the lowest bits of a mask, at i. Where the fields end.
fn put_fields(mask: u64, s: &[u8], at: usize, table: &mut [u64], i: usize) -> usize
    requires { (at ≤ 100000) × (i + 15 ≤ length table.old) }
    ensures value { result ≡ fields_end 5 mask at }
    ensures table_after { table.new ≡ sets table.old i (fields_words 5 mask s.now at) }
{
    let mut m = mask;
    let mut p = at;
    for field in 0..5 {
        let bit = m % 2;
        let start = word_if(bit, s, p);
        let end = word_if(bit, s, p + 8);
        put_three(table, i + 3 * field, bit, start, end);
        p += 16 * bit as usize;
        m /= 2;
    }
    p
}

// The words of a row at `at` with this mask, at i. Where the row ends.
fn put_words(mask: u64, s: &[u8], at: usize, table: &mut [u64], i: usize) -> usize
    requires { (at ≤ 65600) × (i + 20 ≤ length table.old) }
    ensures value { result ≡ words_end mask at }
    ensures table_after { table.new ≡ sets table.old i (words_by mask s.now at) }
{
    let bit = mask % 2;
    let kind = little_at(s, at, 1);
    let start = little_at(s, at + 2, 8);
    let end = little_at(s, at + 10, 8);
    let j = put_three(table, i, kind, start, end);
    let number = word_if(bit, s, at + 18);
    table[j] = bit;
    table[j + 1] = number;
    let first = at + 18 + 8 * bit as usize;
    put_fields(mask / 2, s, first, table, j + 2)
}

// A row at `at`, whose words go to the table at i. Where it ends; nothing where it is cut or its mask is none.
fn put_row(s: &[u8], at: usize, table: &mut [u64], i: usize) -> Option<usize>
    requires { (length s.now ≤ 65600) × (i + 20 ≤ length table.old) }
    ensures { RowRead s.now at table.old i table.new result }
{
    if !has_room(s.len(), at, 18) {
        return None;
    }
    let mask = little_at(s, at + 1, 1);
    if 63 < mask {
        return None;
    }
    let end = put_words(mask, s, at, table, i);
    if s.len() < end {
        return None;
    }
    Some(end)
}

// So many rows, from `at` on, whose words go to the front of the table. Where they end; nothing where one is bad.
fn put_rows(count: usize, s: &[u8], at: usize, table: &mut [u64]) -> Option<usize>
    requires { (length s.now ≤ 65600) × (20 * count ≤ length table.old) }
    ensures { RowsRead count s.now at table.new result }
{
    let mut p = at;
    for row in 0..count {
        p = put_row(s, p, table, 20 * row)?;
    }
    Some(p)
}

// The lists that a content holds; nothing where it is bad.
pub(crate) fn read_lists(s: &[u8], table: &mut [u64]) -> Option<Lent>
    requires { (length s.now ≤ 65600) × (12800 ≤ length table.old) }
    ensures { ListsRead s.now table.new result }
{
    if s.len() < 6 {
        return None;
    }
    let room = little_at(s, 0, 4);
    if 65600 < room {
        return None;
    }
    let count = little_at(s, 4, 2);
    if 640 < count {
        return None;
    }
    let start = put_rows(count as usize, s, 6, table)?;
    Some(Lent {
        room: room as usize,
        words: 20 * count as usize,
        start,
    })
}
