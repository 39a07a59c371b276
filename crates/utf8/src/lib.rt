// UTF-8, as RFC 3629 has it.
#![tactic(auto)]

ghost use Rattle.std.specs.Prelude.{◌+◌, ◌≤◌, ◌<◌, ◌≡◌, Some, true, length, drop, slice_index, EachIndex};
ghost use Rattle.utf8.specs.Utf8.{wanting, lead_of, step_of, is_utf8};

// What must come next: `tails` more bytes of this character, the first of them from low to high; or, with no tail, a character's first byte.
#[derive(Clone, Copy)]
pub struct Want {
    pub tails: usize,
    pub low: u8,
    pub high: u8,
}

fn wanting(tails: usize, low: u8, high: u8) -> Option<Want>
    ensures { result ≡ wanting tails low high }
{
    Some(Want { tails, low, high })
}

// After the first byte of a character; nothing where no character begins with it.
fn lead(a: u8) -> Option<Want>
    ensures { result ≡ lead_of a }
{
    match a {
        0x00..=0x7f => wanting(0, 0x80, 0xbf),
        0xc2..=0xdf => wanting(1, 0x80, 0xbf),
        0xe0 => wanting(2, 0xa0, 0xbf),
        0xed => wanting(2, 0x80, 0x9f),
        0xe1..=0xef => wanting(2, 0x80, 0xbf),
        0xf0 => wanting(3, 0x90, 0xbf),
        0xf1..=0xf3 => wanting(3, 0x80, 0xbf),
        0xf4 => wanting(3, 0x80, 0x8f),
        _ => None,
    }
}

// After one more byte.
fn step(last: Want, b: u8) -> Option<Want>
    ensures { result ≡ step_of (Some last) b }
{
    if last.tails == 0 {
        return lead(b);
    }
    if b < last.low || last.high < b {
        return None;
    }
    wanting(last.tails - 1, 0x80, 0xbf)
}

// Whether a block is ASCII. Its bits are joined, so that it costs one test.
fn ascii(block: &[u8]) -> bool
    ensures { result ≡ true → EachIndex block.now (λ k. slice_index block.now k < 0x80) }
{
    let mut bits = 0;
    for b in block {
        bits |= *b;
    }
    bits < 0x80
}

// Past the blocks of n ASCII bytes from a place on.
fn past(s: &[u8], at: usize, n: usize) -> usize
    requires at_in_bounds { at ≤ length s.now }
    requires le_n { 1 ≤ n }
    requires n_bound { n ≤ 32 }
    ensures lower_bound { at ≤ result }
    ensures upper_bound { result ≤ length s.now }
    ensures s_value { is_utf8 (drop at s.now) ≡ is_utf8 (drop result s.now) }
{
    let mut i = at;
    while i + n <= s.len() && ascii(&s[i..i + n]) {
        i += n;
    }
    i
}

// Past the ASCII bytes from a place on, by blocks first.
fn past_ascii(s: &[u8], at: usize) -> usize
    requires { at ≤ length s.now }
    ensures lower_bound { at ≤ result }
    ensures upper_bound { result ≤ length s.now }
    ensures s_value { is_utf8 (drop at s.now) ≡ is_utf8 (drop result s.now) }
{
    let i = past(s, at, 32);
    let j = past(s, i, 8);
    past(s, j, 1)
}

pub fn is_utf8(s: &[u8]) -> bool
    ensures { result ≡ is_utf8 s.now }
{
    let mut last = Want {
        tails: 0,
        low: 0x80,
        high: 0xbf,
    };
    let mut i = past_ascii(s, 0);
    while i < s.len() {
        let b = s[i];
        let Some(next) = step(last, b) else {
            return false;
        };
        last = next;
        i += 1;
        // where the byte before is not ASCII, its follower costs one test
        if b < 0x80 && last.tails == 0 {
            i = past_ascii(s, i);
        }
    }
    last.tails == 0
}
