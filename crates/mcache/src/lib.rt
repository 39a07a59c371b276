// The heartbeat-windowed message cache, from mcache.rs: messages in a lent store, a place of 4,096 bytes each; their ids, lengths, windows, arrival
// numbers and the places of their topics by value. The places are a ring, so that a message that leaves moves no other, and a freed place is used again.
#![tactic(auto)]

pub mod told;

ghost use Rattle.std.specs.Prelude.{◌≡◌, ℕ, ◌+◌, ◌-◌, ◌*◌, ◌<◌, ◌≤◌, true, ◌++◌, map, length, take, drop, replicate, if◌then◌else◌, slice_index};
ghost use Rattle.std.proofs.lemmas.List.Edits.{sets};
ghost use Rattle.basis.specs.declared.Fault.TheVariants.{BadSetting};
ghost use Rattle.basis.specs.Dialect.{mode_of};
ghost use Rattle.rows.specs.Rows.{place_of};
ghost use Rattle.rows.specs.Ids.{among};
ghost use Rattle.rows.specs.Store.{InStore, in_use, id_at};
ghost use Rattle.admission.specs.Admission.{cut, spans_in, admission_of};
ghost use Rattle.mcache.specs.State.{message_size, message_id_size, message_limit, ring_of, message_in, falls_from, runs_to, gives_in, ids_fit, rows_fit, stale, older, Laid, Usable, Placed, fresh, dropped, appended, told, has_topic, spot_of, put_at, insert_row};
ghost use Rattle.mcache.specs.State.{table, Roomy, Found};
ghost use Rattle.mcache.specs.Calls.{lent_of, index_in, entered, entered_store};
ghost use Rattle.mcache.specs.Calls.{shifted, found, formable, rows_lie, keepable, plan_fit, answered};
ghost use Rattle.mcache.specs.Calls.{kept_in, stored_in, get_part, lookup_answer, offer_in};
ghost use Rattle.mcache.specs.Messages.{offer_for};
ghost use Rattle.mcache.specs.Unique.{Starts, Puts, Keeps, Shifts, Gossips, TellsRows, Forms, WritesId};

use admission::{MAX_TOPIC_SIZE, MAX_TOPICS, Unfit, admit, kept_with, known_flags, topics_of};
use basis::{Dialect, Edition, Fault, ShortRoom, has_room, least, mode_of};
use ids::message_at;
use protobuf::{Refusal, put_bytes};
use rows::{Ring, Store, all_within, at_or, place, precedes, same};
use schema::accept;

pub const MESSAGE_SIZE: usize = 4096;

pub const MESSAGE_ID_SIZE: usize = 128;

pub const MAX_HISTORY: usize = 16;

pub const MAX_MESSAGES: usize = 64;

#[derive(Clone, Copy)]
pub struct MessageCache {
    pub history_len: usize,
    pub max_messages: usize,
    pub next_generation: u64,
    pub start: usize,
    pub count: usize,
    pub generation: [u64; MAX_MESSAGES],
    pub window: [u8; MAX_MESSAGES],
    pub len: [u16; MAX_MESSAGES],
    pub id_len: [u8; MAX_MESSAGES],
    pub ids: [u8; MAX_MESSAGES * MESSAGE_ID_SIZE],
    pub topic_count: [u8; MAX_MESSAGES],
    pub topic_start: [u16; MAX_MESSAGES * MAX_TOPICS],
    pub topic_len: [u16; MAX_MESSAGES * MAX_TOPICS],
    pub flags: usize,
}

#[derive(Clone, Copy)]
pub struct Started {
    pub answer: Result<(), Fault>,
    pub cache: MessageCache,
}

// Whether a message came in, or was held already.
#[derive(Clone, Copy)]
pub enum Kept {
    Stored,
    Held,
}

// Why a message was not put.
#[derive(Clone, Copy)]
pub enum PutError {
    Faulty(Fault),
    Refused(Refusal),
    NoMessage(usize),
    Unfit(Unfit),
}

#[derive(Clone, Copy)]
pub struct PutDone {
    pub answer: Result<Kept, PutError>,
    pub cache: MessageCache,
}

#[derive(Clone, Copy)]
pub struct Shifted {
    pub answer: Result<(), Fault>,
    pub cache: MessageCache,
}

// Why no ids are told.
#[derive(Clone, Copy)]
pub enum GossipError {
    Faulty(Fault),
    TopicTooLong(usize),
}

// Whether an id is told of for a topic and the newest windows asked for, and why not: no message with it is cached; that one does not carry the topic;
// it does, and its window has an age that they do not reach, the newest being 0.
#[derive(Clone, Copy)]
pub enum Offer {
    Listed,
    NotCached,
    WithoutTopic,
    OlderWindow(usize),
}

// The places of the messages that are told of, in the order of their ids: the first `count` of rows.
#[derive(Clone, Copy)]
pub struct GossipIds {
    pub answer: Result<(), GossipError>,
    pub count: usize,
    pub rows: [u8; MAX_MESSAGES],
}

// ---- the test of the lent state

// Whether each window's age is at most the one before it, the first at most `most`.
#[tactic(auto, using(crate::proofs::Walks::walked), unfolding(crate::specs::State::falls_from, rows::specs::Store::in_use))]
fn windows_fall(window: &[u8], ring: Ring, most: usize) -> bool
    requires { InStore ring window.now }
    ensures { result ≡ falls_from most (in_use ring window.now) }
{
    let mut last = most;
    for i in 0..ring.count {
        let p = place(ring, i);
        let w = window[p] as usize;
        if last < w {
            return false;
        }
        last = w;
    }
    true
}

// Whether the arrival numbers go up by one from old to new and on to the next: the age of a row among those that live is a wrapping difference.
#[tactic(auto, using(crate::proofs::Walks::walked), unfolding(crate::specs::State::runs_to, rows::specs::Store::in_use))]
fn generations_run(generation: &[u64], ring: Ring, next: u64) -> bool
    requires { InStore ring generation.now }
    ensures { result ≡ runs_to next (in_use ring generation.now) }
{
    for i in 0..ring.count {
        let p = place(ring, i);
        let age = std::num::wrapping_sub_u64(next, generation[p]);
        if age != (ring.count - i) as u64 {
            return false;
        }
    }
    true
}

// Whether each message fits its place, may be taken under the flags, gives its stored id, and has its topics where they are kept.
#[tactic(auto, using(crate::proofs::Walks::walked), unfolding(crate::specs::State::gives_in, crate::specs::State::all_true))]
fn messages_fit(
    lens: &[u16],
    id_lens: &[u8],
    ids: &[u8],
    counts: &[u8],
    starts: &[u16],
    sizes: &[u16],
    store: &[u8],
    ring: Ring,
    flags: usize,
) -> bool
    requires { Laid ring lens.now id_lens.now ids.now (table counts.now starts.now sizes.now) store.now }
    ensures { result ≡ gives_in flags ring lens.now id_lens.now ids.now (table counts.now starts.now sizes.now) store.now }
{
    for i in 0..ring.count {
        let p = place(ring, i);
        let n = lens[p] as usize;
        if MESSAGE_SIZE < n {
            return false;
        }
        let base = p * MESSAGE_SIZE;
        let end = base + n;
        let id_base = p * MESSAGE_ID_SIZE;
        let id_end = id_base + id_lens[p] as usize;
        let slot = p * MAX_TOPICS;
        let topics = counts[p] as usize;
        if !kept_with(
            &store[base..end],
            &ids[id_base..id_end],
            topics,
            &starts[slot..],
            &sizes[slot..],
            flags,
        ) {
            return false;
        }
    }
    true
}

// ---- shifting

// Each window's age, a window later.
fn age_windows(window: &mut [u8])
    ensures { window.new ≡ map older window.old }
{
    for age in window.iter_mut() {
        *age = age.saturating_add(1);
    }
}

// How many of the oldest leave when a window is opened: those in front of the first that stays.
#[tactic(auto, using(crate::proofs::Walks::walked), unfolding(crate::specs::State::stale, rows::specs::Store::in_use))]
fn stale_rows(window: &[u8], ring: Ring, history_len: usize) -> usize
    ensures { result ≡ stale history_len (in_use ring window.now) }
{
    for i in 0..ring.count {
        let p = place(ring, i);
        let w = at_or(window, p, 0) as usize;
        if w + 1 < history_len {
            return i;
        }
    }
    ring.count
}

// ---- putting

// Whether from and seqno lie within n bytes, and m bytes have room for both.
#[tactic(auto, unfolding(crate::specs::Calls::formable))]
fn can_form(n: usize, a: usize, e: usize, b: usize, f: usize, m: usize) -> bool
    ensures { result ≡ formable n a e b f m }
{
    a <= e && e <= n && b <= f && f <= n && has_room(m, e - a, f - b)
}

// Writes the id of a message, from and then seqno, at the front of out, and answers its length; 0 and nothing, where they do not lie in the part or
// out has no room.
#[tactic(auto, using(std::proofs::lemmas::Bool::Decides::nat_tests), unfolding(crate::specs::Calls::formable))]
pub fn form_id(part: &[u8], a: usize, e: usize, b: usize, f: usize, out: &mut [u8]) -> usize
    ensures { Forms part.now a e b f out.old result out.new }
{
    if can_form(part.len(), a, e, b, f, out.len()) {
        let i = put_bytes(out, 0, &part[a..e]);
        return put_bytes(out, i, &part[b..f]);
    }
    0
}

// Writes numbers below 2^16 from a place on: the first n of `values`.
fn put_shorts(out: &mut [u16], at: usize, values: &[usize], n: usize)
    requires { (at + n ≤ length out.old) × (n ≤ length values.now) × ((i : ℕ) → i < n → slice_index values.now i < 65536) }
    ensures { out.new ≡ sets out.old at (take n values.now) }
{
    for i in 0..n {
        out[at + i] = values[i] as u16;
    }
}

// ---- what keep and tell ask of the rows

// Whether the rows lie within the arrays.
#[tactic(auto, unfolding(crate::specs::Calls::rows_lie))]
fn rows_lie(ring: Ring) -> bool
    ensures { result ≡ rows_lie ring }
{
    ring.cap <= MAX_MESSAGES && ring.start <= ring.cap && ring.count <= ring.cap
}

// Whether a store of s bytes has their places too, and a message of m bytes and an id of i fit theirs.
#[tactic(auto, unfolding(crate::specs::Calls::keepable))]
fn can_keep(ring: Ring, s: usize, m: usize, i: usize) -> bool
    ensures { result ≡ keepable ring s m i }
{
    rows_lie(ring) && s == ring.cap * MESSAGE_SIZE && m <= MESSAGE_SIZE && i <= MESSAGE_ID_SIZE
}

// ---- telling

// A part of some bytes, cut at their end.
fn part_of<'s>(bytes: &'s [u8], start: usize, len: usize) -> &'s [u8]
    ensures { result.now ≡ take len (drop start bytes.now) }
{
    let rest = &bytes[start.min(bytes.len())..];
    &rest[..len.min(rest.len())]
}

// The message in place p: cut at the end of the store.
#[tactic(auto, unfolding(crate::specs::State::message_in))]
fn message_in<'l, 's>(lens: &'l [u16], store: &'s [u8], p: usize) -> &'s [u8]
    requires { p < message_limit }
    ensures { result.now ≡ message_in lens.now store.now p }
{
    part_of(store, p * MESSAGE_SIZE, at_or(lens, p, 0) as usize)
}

// Whether one of the first n parts of a message is the topic.
#[tactic(auto, using(crate::proofs::Walks::part_walked), unfolding(rows::specs::Ids::among))]
fn carries(message: &[u8], starts: &[u16], sizes: &[u16], n: usize, topic: &[u8]) -> bool
    ensures { result ≡ among topic.now (map (cut message.now) (spans_in starts.now sizes.now n)) }
{
    for i in 0..n {
        let start = at_or(starts, i, 0) as usize;
        let len = at_or(sizes, i, 0) as usize;
        if same(part_of(message, start, len), topic) {
            return true;
        }
    }
    false
}

// Whether the message in place p carries the topic, by what is kept of it.
#[tactic(auto, unfolding(crate::specs::State::topics_at))]
fn has_topic(
    lens: &[u16],
    counts: &[u8],
    starts: &[u16],
    sizes: &[u16],
    store: &[u8],
    p: usize,
    topic: &[u8],
) -> bool
    requires { (p < message_limit) × Roomy (table counts.now starts.now sizes.now) }
    ensures { result ≡ has_topic lens.now (table counts.now starts.now sizes.now) store.now topic.now p }
{
    let first = p * MAX_TOPICS;
    let n = at_or(counts, p, 0) as usize;
    carries(
        message_in(lens, store, p),
        &starts[first..],
        &sizes[first..],
        n,
        topic,
    )
}

// Whether the message in place p is in the newest windows asked for and carries the topic.
#[tactic(auto, unfolding(crate::specs::State::told))]
fn is_told(
    window: &[u8],
    lens: &[u16],
    counts: &[u8],
    starts: &[u16],
    sizes: &[u16],
    store: &[u8],
    p: usize,
    windows: usize,
    topic: &[u8],
) -> bool
    requires { (p < message_limit) × Roomy (table counts.now starts.now sizes.now) }
    ensures { result ≡ told window.now lens.now (table counts.now starts.now sizes.now) store.now windows topic.now p }
{
    (at_or(window, p, 0) as usize) < windows
        && has_topic(lens, counts, starts, sizes, store, p, topic)
}

// What is said of a message: the topic is named before the window.
#[tactic(auto, using(std::proofs::lemmas::Bool::Decides::nat_tests))]
fn offer_for(carried: bool, age: usize, windows: usize) -> Offer
    ensures { result ≡ offer_for carried age windows }
{
    if carried {
        if age < windows {
            return Offer::Listed;
        }
        return Offer::OlderWindow(age);
    }
    Offer::WithoutTopic
}

// Where the row p goes among the first n of `rows`: before the first whose id does not come before its own.
#[tactic(auto, unfolding(crate::specs::State::spot_of))]
fn spot(rows: &[u8], n: usize, id_lens: &[u8], ids: &[u8], p: usize) -> usize
    requires { n ≤ length rows.now }
    ensures { result ≡ spot_of (id_at message_id_size id_lens.now ids.now) p (take n rows.now) }
{
    let held = Store {
        lens: id_lens,
        ids,
        size: MESSAGE_ID_SIZE,
    };
    let own = held.id_at(p);
    for i in 0..n {
        let q = rows[i] as usize;
        if !precedes(held.id_at(q), own) {
            return i;
        }
    }
    n
}

// Puts p at `at` among the first n of `rows`, and moves the rest of them up by one.
fn put_row(rows: &mut [u8], n: usize, at: usize, p: u8)
    requires { (at ≤ n) × (n < length rows.old) }
    ensures { rows.new ≡ put_at at p (take n rows.old) ++ drop (n + 1) rows.old }
{
    rows.copy_within(at..n, at + 1);
    rows[at] = p;
}

// Puts the row p into its spot among the first n of `rows`, where it is to be there; and how many there are then.
fn tell_row(there: bool, rows: &mut [u8], n: usize, id_lens: &[u8], ids: &[u8], p: usize) -> usize
    requires { (n < length rows.old) × (p < message_limit) }
    ensures value { result ≡ (if there then n + 1 else n) }
    ensures rows_after { rows.new ≡ (if there then insert_row (id_at message_id_size id_lens.now ids.now) p (take n rows.old) ++ drop (n + 1) rows.old else rows.old) }
{
    if there {
        let at = spot(rows, n, id_lens, ids, p);
        put_row(rows, n, at, p as u8);
        return n + 1;
    }
    n
}

impl MessageCache {
    // An empty cache. Settings out of range are 40: history_len 0, where the Rust can panic, or above 16, max_messages above 64, or unknown flags.
    pub fn new(history_len: usize, max_messages: usize, flags: usize) -> Started
        ensures { Starts history_len max_messages flags result }
    {
        if history_len == 0 {
            return MessageCache::refused();
        }
        if MAX_HISTORY < history_len {
            return MessageCache::refused();
        }
        if MAX_MESSAGES < max_messages {
            return MessageCache::refused();
        }
        if !known_flags(flags) {
            return MessageCache::refused();
        }
        Started {
            answer: Ok(()),
            cache: MessageCache::empty(history_len, max_messages, flags),
        }
    }

    fn empty(history_len: usize, max_messages: usize, flags: usize) -> Self
        ensures { result ≡ fresh history_len max_messages flags }
    {
        MessageCache {
            history_len,
            max_messages,
            next_generation: 0,
            start: 0,
            count: 0,
            generation: [0; MAX_MESSAGES],
            window: [0; MAX_MESSAGES],
            len: [0; MAX_MESSAGES],
            id_len: [0; MAX_MESSAGES],
            ids: [0; MAX_MESSAGES * MESSAGE_ID_SIZE],
            topic_count: [0; MAX_MESSAGES],
            topic_start: [0; MAX_MESSAGES * MAX_TOPICS],
            topic_len: [0; MAX_MESSAGES * MAX_TOPICS],
            flags,
        }
    }

    // Its rows.
    pub fn ring(self) -> Ring
        ensures { result ≡ ring_of self }
    {
        Ring {
            cap: self.max_messages,
            start: self.start,
            count: self.count,
        }
    }

    // The answer to settings out of range, beside a cache that keeps nothing.
    fn refused() -> Started
        ensures answer_value { result.answer ≡ Err BadSetting }
        ensures cache_value { result.cache ≡ fresh 1 0 0 }
    {
        Started {
            answer: Err(Fault::BadSetting),
            cache: MessageCache::empty(1, 0, 0),
        }
    }

    // Whether the messages are well formed, where the settings, the counts and the store's length were tested.
    #[tactic(auto, unfolding(crate::specs::State::ids_fit))]
    fn ids_fit(&self, store: &[u8]) -> bool
        requires { (self.now.max_messages ≤ message_limit) × (self.now.start ≤ self.now.max_messages) × (self.now.count ≤ self.now.max_messages) × (length store.now ≡ self.now.max_messages * message_size) }
        ensures { result ≡ ids_fit self.now store.now }
    {
        let ring = self.ring();
        let held = Store {
            lens: &self.id_len,
            ids: &self.ids,
            size: MESSAGE_ID_SIZE,
        };
        all_within(&self.id_len, ring, MESSAGE_ID_SIZE as u8)
            && messages_fit(
                &self.len,
                &self.id_len,
                &self.ids,
                &self.topic_count,
                &self.topic_start,
                &self.topic_len,
                store,
                ring,
                self.flags,
            )
            && held.differ(ring)
    }

    // Whether the rows are well formed, where the settings, the counts and the store's length were tested.
    #[tactic(auto, unfolding(crate::specs::State::rows_fit))]
    fn rows_fit(&self, store: &[u8]) -> bool
        requires max_messages_bound { (self.now.max_messages ≤ message_limit) × (self.now.start ≤ self.now.max_messages) × (self.now.count ≤ self.now.max_messages) × (length store.now ≡ self.now.max_messages * message_size) }
        requires bound { 1 ≤ self.now.history_len }
        ensures { result ≡ rows_fit self.now store.now }
    {
        let ring = self.ring();
        windows_fall(&self.window, ring, self.history_len - 1)
            && generations_run(&self.generation, ring, self.next_generation)
            && self.ids_fit(store)
    }

    // Whether a store and the cache can be used together.
    pub fn lent(self, store: &[u8]) -> Result<(), Fault>
        ensures { result ≡ lent_of self store.now }
    {
        let max = self.max_messages;
        if store.len() / MESSAGE_SIZE != max {
            return Err(Fault::BadStore);
        }
        if store.len() % MESSAGE_SIZE != 0 {
            return Err(Fault::BadStore);
        }
        let history_len = self.history_len;
        if history_len == 0 {
            return Err(Fault::Malformed);
        }
        if MAX_HISTORY < history_len {
            return Err(Fault::Malformed);
        }
        if MAX_MESSAGES < max {
            return Err(Fault::Malformed);
        }
        if !known_flags(self.flags) {
            return Err(Fault::Malformed);
        }
        if max < self.start {
            return Err(Fault::Malformed);
        }
        if max < self.count {
            return Err(Fault::Malformed);
        }
        if self.rows_fit(store) {
            return Ok(());
        }
        Err(Fault::Malformed)
    }

    // Without the k oldest.
    fn without(mut self, k: usize) -> Self
        requires { k ≤ self.count }
        ensures { result ≡ dropped k self }
    {
        let start = place(self.ring(), k);
        self.start = start;
        self.count = self.count - k;
        self
    }

    // With a message more, the newest; where its topics stand was found before: n of them, each with its start and its length.
    fn append(
        mut self,
        store: &mut [u8],
        part: &[u8],
        id: &[u8],
        n: usize,
        from: &[usize],
        long: &[usize],
    ) -> Self
        requires placed { Placed self store.old }
        requires count_bound { self.count < self.max_messages }
        requires part_len_bound { (length part.now ≤ message_size) × (length id.now ≤ message_id_size) }
        requires found { Found (mode_of self.flags) part.now n from.now long.now }
        ensures value { result ≡ appended part.now id.now self }
        ensures store_after { store.new ≡ sets store.old (place_of (ring_of self) self.count * message_size) part.now }
    {
        let count = self.count;
        let p = place(self.ring(), count);
        put_bytes(store, p * MESSAGE_SIZE, part);
        let mut ids = self.ids;
        put_bytes(&mut ids, p * MESSAGE_ID_SIZE, id);
        self.ids = ids;
        let mut starts = self.topic_start;
        let mut sizes = self.topic_len;
        put_shorts(&mut starts, p * MAX_TOPICS, from, n);
        put_shorts(&mut sizes, p * MAX_TOPICS, long, n);
        self.topic_start = starts;
        self.topic_len = sizes;
        self.topic_count[p] = n as u8;
        self.id_len[p] = id.len() as u8;
        self.len[p] = part.len() as u16;
        self.window[p] = 0;
        self.generation[p] = self.next_generation;
        self.next_generation = std::num::wrapping_add_u64(self.next_generation, 1);
        self.count = count + 1;
        self
    }

    // With a message whose id is not held: past max_messages the oldest goes.
    fn enter(
        mut self,
        store: &mut [u8],
        part: &[u8],
        id: &[u8],
        n: usize,
        from: &[usize],
        long: &[usize],
    ) -> Self
        requires placed { Placed self store.old }
        requires part_len_bound { (length part.now ≤ message_size) × (length id.now ≤ message_id_size) }
        requires found { Found (mode_of self.flags) part.now n from.now long.now }
        ensures value { result ≡ entered part.now id.now self }
        ensures store_after { store.new ≡ entered_store self store.old part.now }
    {
        let max = self.max_messages;
        if max == 0 {
            self.next_generation = std::num::wrapping_add_u64(self.next_generation, 1);
            return self;
        }
        let k = (self.count + 1).saturating_sub(max);
        let rest = self.without(k);
        rest.append(store, part, id, n, from, long)
    }

    // Which row holds an id, counted from the oldest; the count of rows where none does.
    fn find(self, id: &[u8]) -> usize
        ensures { result ≡ index_in self id.now }
    {
        let ring = self.ring();
        let held = Store {
            lens: &self.id_len,
            ids: &self.ids,
            size: MESSAGE_ID_SIZE,
        };
        held.find_from(ring, 0, id)
    }

    // Puts a message under its id into a state that the caller tested; it tests only that the rows lie in the arrays and the store, and that both
    // fit. A held id changes nothing.
    pub fn keep(self, store: &mut [u8], part: &[u8], id: &[u8]) -> PutDone
        ensures { Keeps self store.old part.now id.now result store.new }
    {
        let ring = self.ring();
        if can_keep(ring, store.len(), part.len(), id.len()) {
            let row = self.find(id);
            if row < self.count {
                return PutDone {
                    answer: Ok(Kept::Held),
                    cache: self,
                };
            }
            let mut from = [0usize; MAX_TOPICS];
            let mut long = [0usize; MAX_TOPICS];
            let t = topics_of(mode_of(self.flags as u64), part, &mut from, &mut long);
            let n = least(t.count, MAX_TOPICS);
            let cache = self.enter(store, part, id, n, &from, &long);
            return PutDone {
                answer: Ok(Kept::Stored),
                cache,
            };
        }
        self.not_put(PutError::Faulty(Fault::Malformed))
    }

    // Puts the message in a part, where the state was tested.
    fn put_part(self, store: &mut [u8], part: &[u8]) -> PutDone
        requires { Usable self store.old }
        ensures answer_value { result.answer ≡ answered (plan_fit self part.now (admission_of self.flags part.now true)) }
        ensures cache_value { result.cache ≡ kept_in self (plan_fit self part.now (admission_of self.flags part.now true)) }
        ensures store_after { store.new ≡ stored_in self store.old (plan_fit self part.now (admission_of self.flags part.now true)) }
    {
        match admit(part, true, self.flags) {
            Err(why) => self.not_put(PutError::Unfit(why)),
            Ok(((a, e), (b, f))) => {
                let mut id = [0u8; MESSAGE_ID_SIZE];
                let n = form_id(part, a, e, b, f, &mut id);
                self.keep(store, part, &id[..n])
            }
        }
    }

    // Puts the message at an index of a body. A held id changes nothing.
    pub fn put(self, store: &mut [u8], edition: Edition, body: &[u8], index: usize) -> PutDone
        ensures { Puts self store.old edition body.now index result store.new }
    {
        if let Err(why) = self.lent(store) {
            return self.not_put(PutError::Faulty(why));
        }
        let mode = mode_of(self.flags as u64);
        if let Err(why) = accept(Dialect { edition, mode }, body) {
            return self.not_put(PutError::Refused(why));
        }
        match message_at(mode, body, index) {
            Err(n) => self.not_put(PutError::NoMessage(n)),
            Ok((start, end)) => self.put_part(store, &body[start..end]),
        }
    }

    // A refusal, with the cache as it was.
    fn not_put(self, why: PutError) -> PutDone
        ensures { result ≡ record { answer = Err why; cache = self } }
    {
        PutDone {
            answer: Err(why),
            cache: self,
        }
    }

    // A window later, of a state that the caller tested.
    pub fn next_window(mut self) -> Self
        ensures { result ≡ shifted self }
    {
        let ring = self.ring();
        let mut window = self.window;
        let k = stale_rows(&window, ring, self.history_len);
        age_windows(&mut window);
        self.window = window;
        self.without(k)
    }

    // Opens a window; what is in windows beyond history_len goes.
    #[tactic(auto, unfolding(crate::specs::Calls::shift_cache))]
    pub fn shift(self, store: &[u8]) -> Shifted
        ensures { Shifts self store.now result }
    {
        match self.lent(store) {
            Ok(()) => Shifted {
                answer: Ok(()),
                cache: self.next_window(),
            },
            Err(fault) => Shifted {
                answer: Err(fault),
                cache: self,
            },
        }
    }

    // The part of the store that holds the message with an id, where the state was tested; empty for none.
    fn message_of<'s, 'i>(self, store: &'s [u8], id: &'i [u8]) -> &'s [u8]
        requires { Usable self store.now }
        ensures { result.now ≡ found self store.now id.now }
    {
        let i = self.find(id);
        if i < self.count {
            let p = place(self.ring(), i);
            let base = p * MESSAGE_SIZE;
            let end = base + self.len[p] as usize;
            return &store[base..end];
        }
        &store[..0]
    }

    // The part of the store that holds the message with an id; empty for none, 41 and 42.
    pub fn get<'s, 'i>(self, store: &'s [u8], id: &'i [u8]) -> &'s [u8]
        ensures { result.now ≡ get_part self store.now id.now }
    {
        if self.lent(store).is_err() {
            return &store[..0];
        }
        self.message_of(store, id)
    }

    // Why `get` gave what it gave.
    pub fn lookup(self, store: &[u8], id: &[u8]) -> Result<bool, Fault>
        ensures { result ≡ lookup_answer self store.now id.now }
    {
        self.lent(store)?;
        Ok(self.find(id) < self.count)
    }

    // The messages of the newest windows asked for that carry the topic, of a state that the caller tested; it tests only that the rows lie in the
    // arrays.
    pub fn tell(self, store: &[u8], topic: &[u8], windows: usize) -> GossipIds
        ensures { TellsRows self store.now topic.now windows result }
    {
        let ring = self.ring();
        if rows_lie(ring) {
            let window = self.window;
            let lens = self.len;
            let id_lens = self.id_len;
            let ids = self.ids;
            let counts = self.topic_count;
            let starts = self.topic_start;
            let sizes = self.topic_len;
            let mut rows = [0u8; MAX_MESSAGES];
            let mut count = 0;
            for i in 0..ring.count {
                let p = place(ring, i);
                let there = is_told(
                    &window, &lens, &counts, &starts, &sizes, store, p, windows, topic,
                );
                count = tell_row(there, &mut rows, count, &id_lens, &ids, p);
            }
            return GossipIds {
                answer: Ok(()),
                count,
                rows,
            };
        }
        MessageCache::untold(Err(GossipError::Faulty(Fault::Malformed)))
    }

    // Whether an id is among those, and why not, of a state that the caller tested; it tests only that the rows lie in the arrays.
    pub fn offer(self, store: &[u8], id: &[u8], topic: &[u8], windows: usize) -> Offer
        ensures { result ≡ offer_in self store.now id.now topic.now windows }
    {
        let ring = self.ring();
        if rows_lie(ring) {
            let row = self.find(id);
            if row < ring.count {
                let p = place(ring, row);
                let window = self.window;
                let lens = self.len;
                let counts = self.topic_count;
                let starts = self.topic_start;
                let sizes = self.topic_len;
                let carried = has_topic(&lens, &counts, &starts, &sizes, store, p, topic);
                let age = at_or(&window, p, 0) as usize;
                return offer_for(carried, age, windows);
            }
        }
        Offer::NotCached
    }

    // No ids.
    fn untold(answer: Result<(), GossipError>) -> GossipIds
        ensures answer_value { result.answer ≡ answer }
        ensures count_value { result.count ≡ 0 }
        ensures rows_value { result.rows ≡ replicate message_limit 0 }
    {
        GossipIds {
            answer,
            count: 0,
            rows: [0; MAX_MESSAGES],
        }
    }

    // The distinct ids of the newest windows asked for that carry the topic, in byte order, a prefix first.
    pub fn gossip_ids(self, store: &[u8], topic: &[u8], windows: usize) -> GossipIds
        ensures { Gossips self store.now topic.now windows result }
    {
        if let Err(why) = self.lent(store) {
            return MessageCache::untold(Err(GossipError::Faulty(why)));
        }
        if MAX_TOPIC_SIZE < topic.len() {
            return MessageCache::untold(Err(GossipError::TopicTooLong(topic.len())));
        }
        self.tell(store, topic, windows)
    }

    // Writes the id in a place, as `gossip_ids` answers places, at the front of out; a place past the last has none.
    pub fn id_at(self, row: usize, out: &mut [u8]) -> Result<usize, ShortRoom>
        ensures { WritesId self row out.old result out.new }
    {
        let held = Store {
            lens: &self.id_len,
            ids: &self.ids,
            size: MESSAGE_ID_SIZE,
        };
        let id = held.id_at(row);
        if out.len() < id.len() {
            return Err(ShortRoom { needed: id.len() });
        }
        put_bytes(out, 0, id);
        Ok(id.len())
    }
}
