// What several crates share: the dialect in which a body is read, what a call tells, the answer of a writer, the test for room, and little-endian numbers. The specs hold the case and
// list laws that more than one crate cites.
#![tactic(auto)]

pub mod refusals;

ghost use Rattle.std.specs.Prelude.{◌≡◌, [], ◌∷◌, ◌+◌, ◌≤◌, min, length, take, drop, leb};
ghost use Rattle.std.proofs.lemmas.List.Edits.{sets};
ghost use Rattle.basis.specs.Writing.{end_in, set_in};
ghost use Rattle.basis.specs.Little.{little, bytes_of};
ghost use Rattle.basis.specs.Told.{told, placed, fault_told, fine_told};
ghost use Rattle.basis.specs.Spot.{at, fields_of};
ghost use Rattle.basis.specs.Dialect.{edition_of, mode_of, dialect_of};
ghost use Rattle.basis.specs.Unique.{Leaves};

// The editions of gossipsub: 1.1, and 1.2, whose controls also hold IDONTWANTs.
#[derive(Clone, Copy)]
pub enum Edition {
    V11,
    V12,
}

// The reading modes: groups, the wire types 3 and 4, are refused, as the Rust does; or they are passed over.
#[derive(Clone, Copy)]
pub enum Mode {
    Plain,
    Groups,
}

// How a body is read.
#[derive(Clone, Copy)]
pub struct Dialect {
    pub edition: Edition,
    pub mode: Mode,
}

// The edition that a number names: only its lowest bit counts, 0 for 1.1 and 1 for 1.2.
#[tactic(auto, unfolding(crate::specs::Dialect::edition_of))]
impl From<u64> for Edition {
    ghost from_gives = { λ number edition. edition ≡ edition_of number };

    fn from(number: u64) -> Edition {
        match number % 2 {
            0 => Edition::V11,
            _ => Edition::V12,
        }
    }
}

// The mode that a number names, by its second bit.
#[tactic(auto, unfolding(crate::specs::Dialect::mode_of))]
impl From<u64> for Mode {
    ghost from_gives = { λ number mode. mode ≡ mode_of number };

    fn from(number: u64) -> Mode {
        match number / 2 % 2 {
            0 => Mode::Plain,
            _ => Mode::Groups,
        }
    }
}

// The dialect that a number names, by both bits.
#[tactic(auto, unfolding(crate::specs::Dialect::dialect_of))]
impl From<u64> for Dialect {
    ghost from_gives = { λ number dialect. dialect ≡ dialect_of number };

    fn from(number: u64) -> Dialect {
        Dialect {
            edition: Edition::from(number),
            mode: Mode::from(number),
        }
    }
}

// The same three under names of their own.
pub fn edition_of(number: u64) -> Edition
    ensures { result ≡ edition_of number }
{
    Edition::from(number)
}

pub fn mode_of(number: u64) -> Mode
    ensures { result ≡ mode_of number }
{
    Mode::from(number)
}

pub fn dialect_of(number: u64) -> Dialect
    ensures { result ≡ dialect_of number }
{
    Dialect::from(number)
}

// Where in a body a refusal stands: how many bytes after the body's start, and the numbers of the fields that enclose it, the outermost first, 0
// for none. A refusal of no byte of a body has none.
#[derive(Clone, Copy)]
pub struct Spot {
    pub offset: usize,
    pub outer: u64,
    pub middle: u64,
    pub inner: u64,
}

impl Spot {
    // A place that no field encloses.
    pub fn at(offset: usize) -> Spot
        ensures { result ≡ at offset }
    {
        Spot {
            offset,
            outer: 0,
            middle: 0,
            inner: 0,
        }
    }

    // How many fields enclose a place.
    pub fn depth(self) -> u64
        ensures { result ≡ length (fields_of (Some self)) }
    {
        match (self.outer, self.middle, self.inner) {
            (0, _, _) => 0,
            (_, 0, _) => 1,
            (_, _, 0) => 2,
            _ => 3,
        }
    }
}

// What a call tells: the scope's number, 0 where it is done, and how many values stand beside it; the others are 0. And where in the body it stands.
#[derive(Clone, Copy)]
pub struct Told {
    pub number: u8,
    pub count: u8,
    pub first: u64,
    pub second: u64,
    pub third: u64,
    pub fourth: u64,
    pub spot: Option<Spot>,
}

impl Told {
    pub fn none(number: u8) -> Told
        ensures { result ≡ told number [] }
    {
        Told {
            number,
            count: 0,
            first: 0,
            second: 0,
            third: 0,
            fourth: 0,
            spot: None,
        }
    }

    pub fn one(number: u8, first: u64) -> Told
        ensures { result ≡ told number (first ∷ []) }
    {
        Told {
            count: 1,
            first,
            ..Told::none(number)
        }
    }

    pub fn two(number: u8, first: u64, second: u64) -> Told
        ensures { result ≡ told number (first ∷ second ∷ []) }
    {
        Told {
            count: 2,
            second,
            ..Told::one(number, first)
        }
    }

    pub fn three(number: u8, first: u64, second: u64, third: u64) -> Told
        ensures { result ≡ told number (first ∷ second ∷ third ∷ []) }
    {
        Told {
            count: 3,
            third,
            ..Told::two(number, first, second)
        }
    }

    pub fn four(number: u8, first: u64, second: u64, third: u64, fourth: u64) -> Told
        ensures { result ≡ told number (first ∷ second ∷ third ∷ fourth ∷ []) }
    {
        Told {
            count: 4,
            fourth,
            ..Told::three(number, first, second, third)
        }
    }

    // The same, with its place.
    pub fn placed(self, spot: Option<Spot>) -> Told
        ensures { result ≡ placed spot self }
    {
        Told { spot, ..self }
    }
}

// What is wrong with lent state: the refusals 40, 41 and 42.
#[derive(Clone, Copy)]
pub enum Fault {
    BadSetting,
    BadStore,
    Malformed,
}

impl Fault {
    pub fn told(self) -> Told
        ensures { result ≡ fault_told self }
    {
        match self {
            Fault::BadSetting => Told::none(refusals::BAD_SETTING),
            Fault::BadStore => Told::none(refusals::BAD_STORE),
            Fault::Malformed => Told::none(refusals::MALFORMED),
        }
    }
}

// What a test of lent state, or a start, tells: that all is well, or what is wrong.
pub fn told_fine(answer: Result<(), Fault>) -> Told
    ensures { result ≡ fine_told answer }
{
    match answer {
        Ok(()) => Told::none(0),
        Err(why) => why.told(),
    }
}

// Why a writer at the front of a lent slice wrote nothing: so many bytes do not fit (refusal 12).
#[derive(Clone, Copy)]
pub struct ShortRoom {
    pub needed: usize,
}

// Whether `room` bytes from `at` on lie within len.
pub fn has_room(len: usize, at: usize, room: usize) -> bool
    ensures { result ≡ leb (at + room) len }
{
    at <= len && room <= len - at
}

// The number in n bytes at `at`, the low byte first, where they are there.
fn read_little(s: &[u8], at: usize, n: usize) -> u64
    requires n_bound { n ≤ 8 }
    requires n_in_bounds { at + n ≤ length s.now }
    ensures { result ≡ little (take n (drop at s.now)) }
{
    let mut value = 0;
    for b in s[at..at + n].iter().rev() {
        value = value * 256 + u64::from(*b);
    }
    value
}

// The lesser of two.
pub fn least(a: usize, b: usize) -> usize
    ensures { result ≡ min a b }
{
    a.min(b)
}

// The number in n bytes at `at`, the low byte first: in the first eight of them, and in those that are there.
pub fn little_at(s: &[u8], at: usize, n: usize) -> u64
    ensures { result ≡ little (take (min n 8) (drop at s.now)) }
{
    if s.len() < at {
        return 0;
    }
    let m = n.min(8).min(s.len() - at);
    read_little(s, at, m)
}

// The low n bytes of a number at `at`, the low byte first, where they fit.
fn spell_little(out: &mut [u8], at: usize, n: usize, value: u64)
    requires { at + n ≤ length out.old }
    ensures { out.new ≡ sets out.old at (bytes_of n value) }
{
    let mut v = value;
    for i in 0..n {
        out[at + i] = (v % 256) as u8;
        v /= 256;
    }
}

// The low n bytes of a number at `at`, the low byte first, and the place after them; nothing, and the place as it was, where they do not fit.
pub fn put_little(out: &mut [u8], at: usize, n: usize, value: u64) -> usize
    ensures { Leaves (end_in n at (bytes_of n value) out.old)
        (set_in n at (bytes_of n value) out.old) result out.new }
{
    if !has_room(out.len(), at, n) {
        return at;
    }
    spell_little(out, at, n, value);
    at + n
}
