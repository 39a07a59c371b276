// A gateway, the scope's "The node": the settings, the clock, the ids seen and the messages held. The node goes in by value and comes back, beside two
// lent stores: seen, max_seen rows of 129 bytes, and cache, max_messages places of 4,096 bytes. Each call tests them first.
#![tactic(auto)]

mod parts;
pub mod told;

ghost use Rattle.std.specs.Prelude.{◌≡◌, true, false, cond, not, List, [], ◌∷◌, ◌++◌, map, ℕ, ◌+◌, ◌-◌, ◌*◌, ◌≤◌, ◌<◌, min, ltb, length, drop, take, get_or};
ghost use Rattle.std.proofs.lemmas.List.Edits.{sets};
ghost use Rattle.basis.specs.Dialect.{mode_of, spoken};
ghost use Rattle.basis.specs.Writing.{answer, written};
ghost use Rattle.rows.specs.Rows.{place_of};
ghost use Rattle.rows.specs.Ids.{among};
ghost use Rattle.rows.specs.Store.{InStore, Sound, in_use, ids_in, id_at};
ghost use Rattle.protobuf.specs.Walk.{between};
ghost use Rattle.protobuf.specs.Encode.{bytes_field};
ghost use Rattle.rpc.specs.Encode.{encode_rpc, repeated};
ghost use Rattle.encode.specs.Puts.{Puts, Fits};
ghost use Rattle.schema.specs.Accept.{accept_of};
ghost use Rattle.ids.specs.Ids.{message_at, id_bytes, mark};
ghost use Rattle.admission.specs.Flags.{allows_unsigned};
ghost use Rattle.admission.specs.Admission.{admission_of, is_signed};
ghost use Rattle.node.specs.declared.BeatError.TheVariants as beat;
ghost use Rattle.node.specs.declared.AdvertiseError.TheVariants as advertise;
ghost use Rattle.node.specs.declared.ExplainError.TheVariants as explain;
ghost use Rattle.node.specs.declared.AskError.TheVariants as ask;
ghost use Rattle.node.specs.declared.ServeError.TheVariants as serve;
ghost use Rattle.node.specs.Parts.{parts_in, Parts, at_path, without};
ghost use Rattle.seen.specs.State.{id_size};
ghost use Rattle.seen.specs.WellFormed.{Sized as IdsSized};
ghost use Rattle.mcache.specs.WellFormed.{Sized as MessagesSized};
ghost use Rattle.mcache.specs.State.{message_size, message_id_size, message_limit, message_in, Listed, Usable};
ghost use Rattle.node.specs.Gateway.{marked, form_of, advertisement, request};
ghost use Rattle.node.specs.Unique.{Starts, Admits, Beats, Advertises, Explains, Asks, Serves};
ghost use Rattle.node.specs.State.{seen_ring, Ready, rises_from, seen_fits, fresh_node};
ghost use Rattle.node.specs.Calls.{lent_of, later_node, taken, plan_fit, swept, held_at};
ghost use Rattle.node.specs.Calls.{admit_answer, admit_node, admit_seen, admit_cache, told_in};
ghost use Rattle.node.specs.Calls.{beat_answer, advertise_bytes, advertised, advertise_answer, advertise_left, explain_answer, known_in, unseen_from, unseen_of, offered, ask_bytes, asked, ask_answer, ask_left};
ghost use Rattle.node.specs.Calls.{rows_for, cached_of, max_rpc_size, unwanted_in, remaining, reply_to, reply_bytes, serve_answer, serve_left};

use admission::{MAX_TOPIC_SIZE, Unfit, admit, allows_unsigned, is_signed};
use basis::{Dialect, Edition, Fault, Mode, mode_of};
use ids::message_at;
use mcache::{MESSAGE_ID_SIZE, MESSAGE_SIZE, MessageCache, Offer, form_id};
use parts::{
    add_part, add_where, emit_bytes, emit_head, emit_parts, first_mentions, parts_at,
    parts_that_fit, parts_without,
};
use protobuf::{MAX_RPC_SIZE, Refusal, put_bytes};
use rows::{Ring, Store, place};
use schema::{MAX_RECORDS, accept};
use seen::{ID_SIZE, MAX_IDS, SeenCache, expiry_of};

#[derive(Clone, Copy)]
pub struct Node {
    pub ttl: u64,
    pub max_seen: usize,
    pub clock: u64,
    pub seen: SeenCache,
    pub cache: MessageCache,
}

#[derive(Clone, Copy)]
pub struct Started {
    pub answer: Result<(), Fault>,
    pub node: Node,
}

// Whether a message is new.
#[derive(Clone, Copy)]
pub enum Novelty {
    New,
    Duplicate,
}

#[derive(Clone, Copy)]
pub enum AdmitError {
    Faulty(Fault),
    Refused(Refusal),
    NoMessage(usize),
    Unfit(Unfit),
    ClockBack(u64),
}

#[derive(Clone, Copy)]
pub struct Admitted {
    pub answer: Result<Novelty, AdmitError>,
    pub node: Node,
}

#[derive(Clone, Copy)]
pub enum BeatError {
    Faulty(Fault),
    ClockBack(u64),
}

impl From<Fault> for BeatError {
    ghost from_gives = { λ why e. e ≡ beat.Faulty why };

    fn from(why: Fault) -> BeatError {
        BeatError::Faulty(why)
    }
}

#[derive(Clone, Copy)]
pub struct Beaten {
    pub answer: Result<(), BeatError>,
    pub node: Node,
}

#[derive(Clone, Copy)]
pub enum AdvertiseError {
    Faulty(Fault),
    TopicTooLong(usize),
    Room(usize),
}

impl From<Fault> for AdvertiseError {
    ghost from_gives = { λ why e. e ≡ advertise.Faulty why };

    fn from(why: Fault) -> AdvertiseError {
        AdvertiseError::Faulty(why)
    }
}

#[derive(Clone, Copy)]
pub struct Advertised {
    pub answer: Result<usize, AdvertiseError>,
    pub node: Node,
}

#[derive(Clone, Copy)]
pub enum ExplainError {
    Faulty(Fault),
    TopicTooLong(usize),
}

impl From<Fault> for ExplainError {
    ghost from_gives = { λ why e. e ≡ explain.Faulty why };

    fn from(why: Fault) -> ExplainError {
        ExplainError::Faulty(why)
    }
}

#[derive(Clone, Copy)]
pub struct Explained {
    pub answer: Result<Offer, ExplainError>,
    pub node: Node,
}

#[derive(Clone, Copy)]
pub enum AskError {
    Faulty(Fault),
    Refused(Refusal),
    Room(usize),
}

impl From<Fault> for AskError {
    ghost from_gives = { λ why e. e ≡ ask.Faulty why };

    fn from(why: Fault) -> AskError {
        AskError::Faulty(why)
    }
}

impl From<Refusal> for AskError {
    ghost from_gives = { λ why e. e ≡ ask.Refused why };

    fn from(why: Refusal) -> AskError {
        AskError::Refused(why)
    }
}

#[derive(Clone, Copy)]
pub struct Asked {
    pub answer: Result<usize, AskError>,
    pub node: Node,
}

// How many bytes and messages were written, and how many cached ones were left.
#[derive(Clone, Copy)]
pub struct Reply {
    pub bytes: usize,
    pub messages: usize,
    pub left: usize,
}

#[derive(Clone, Copy)]
pub enum ServeError {
    Faulty(Fault),
    Refused(Refusal),
    Room(usize),
}

impl From<Fault> for ServeError {
    ghost from_gives = { λ why e. e ≡ serve.Faulty why };

    fn from(why: Fault) -> ServeError {
        ServeError::Faulty(why)
    }
}

impl From<Refusal> for ServeError {
    ghost from_gives = { λ why e. e ≡ serve.Refused why };

    fn from(why: Refusal) -> ServeError {
        ServeError::Refused(why)
    }
}

#[derive(Clone, Copy)]
pub struct Served {
    pub answer: Result<Reply, ServeError>,
    pub node: Node,
}

// ---- the test of the lent state

// Whether the expiries never fall from old to new.
fn expiries_rise(expiry: &[u64], ring: Ring) -> bool
    requires { InStore ring expiry.now }
    ensures { result ≡ rises_from 0 (in_use ring expiry.now) }
{
    (0..ring.count).is_sorted_by_key(|i| expiry[place(ring, i)])
}

// Whether the ids seen of a node are well formed, where the store's length was tested.
fn seen_fits(seen: &SeenCache, max_seen: usize, seen_store: &[u8]) -> bool
    requires { length seen_store.now ≡ max_seen * id_size }
    ensures { (n : Node) → n.seen ≡ seen.now → n.max_seen ≡ max_seen → result ≡ seen_fits n seen_store.now }
{
    if seen.lent(seen_store).is_err() {
        return false;
    }
    expiries_rise(&seen.expiry, seen.ring(max_seen))
}

// ---- asking and serving

// The mark byte of an id: 1 for a message with a signature, 0 for one without.
fn mark_of(signed: bool) -> u8
    ensures { result ≡ mark signed }
{
    if signed {
        return 1;
    }
    0
}

// Whether an id is seen in one form: the mark and the id are in some row. One above 128 bytes never is.
fn is_seen(lens: &[u8], store: &[u8], ring: Ring, signed: bool, id: &[u8]) -> bool
    requires { Sound id_size ring lens.now store.now }
    ensures { result ≡ among (marked signed id.now) (ids_in id_size ring lens.now store.now) }
{
    let n = id.len();
    if MESSAGE_ID_SIZE < n {
        return false;
    }
    let mut key = [0u8; ID_SIZE];
    key[0] = mark_of(signed);
    put_bytes(&mut key, 1, id);
    let held = Store {
        lens,
        ids: store,
        size: ID_SIZE,
    };
    held.find_from(ring, 0, &key[..n + 1]) < ring.count
}

// Whether an id is not held: no message with a signature was seen under it, nor, where unsigned messages are allowed, one without.
fn is_unseen(lens: &[u8], store: &[u8], ring: Ring, flags: usize, id: &[u8]) -> bool
    requires { Sound id_size ring lens.now store.now }
    ensures { result ≡ not (known_in flags (ids_in id_size ring lens.now store.now) id.now) }
{
    if is_seen(lens, store, ring, true, id) {
        return false;
    }
    if allows_unsigned(flags) {
        return !is_seen(lens, store, ring, false, id);
    }
    true
}

// Puts the parts that are ids not held into another table; how many those are.
fn unseen(
    lens: &[u8],
    store: &[u8],
    ring: Ring,
    flags: usize,
    body: &[u8],
    from: &[usize],
    n: usize,
    to: &mut [usize],
) -> usize
    requires sound { Sound id_size ring lens.now store.now }
    requires parts { Parts body.now from.now n }
    requires n_in_bounds { n * 2 ≤ length to.old }
    ensures result_after { parts_in body.now to.new result ≡ unseen_from flags (ids_in id_size ring lens.now store.now) (parts_in body.now from.now n) }
    ensures parts_2 { Parts body.now to.new result }
    ensures upper_bound { result ≤ n }
{
    let mut k: usize = 0;
    for i in 0..n {
        let a = from[i * 2];
        let e = from[i * 2 + 1];
        let there = is_unseen(lens, store, ring, flags, &body[a..e]);
        k = add_where(there, to, k, a, e);
    }
    k
}

// Puts the parts that the IDONTWANTs of a second body do not name into another table; how many those are. Where there is no second body, no table is made
// for its ids.
fn not_declined(
    mode: Mode,
    body: &[u8],
    from: &[usize],
    n: usize,
    unwanted: &[u8],
    to: &mut [usize],
) -> usize
    requires parts { Parts body.now from.now n }
    requires n_in_bounds { n * 2 ≤ length to.old }
    requires unwanted_len_bound { length (at_path mode (3 ∷ 5 ∷ 1 ∷ []) unwanted.now) ≤ 512 }
    ensures result_after { parts_in body.now to.new result ≡ without (unwanted_in mode unwanted.now) (parts_in body.now from.now n) }
    ensures parts_2 { Parts body.now to.new result }
    ensures upper_bound { result ≤ n }
{
    if unwanted.len() == 0 {
        return parts_without(body, from, n, unwanted, from, 0, to);
    }
    let mut declined = [0usize; 2 * MAX_RECORDS];
    let path = [3u64, 5, 1];
    let m = parts_at(mode, unwanted, 0, unwanted.len(), &path, &mut declined, 0);
    parts_without(body, from, n, unwanted, &declined, m, to)
}

// Puts the places of the messages with the ids in some parts, those that are cached, into another table; how many those are.
fn cached(
    lens: &[u16],
    id_lens: &[u8],
    ids: &[u8],
    ring: Ring,
    body: &[u8],
    from: &[usize],
    n: usize,
    to: &mut [usize],
) -> usize
    requires sound { Sound message_id_size ring id_lens.now ids.now }
    requires cap_le_max_messages { (ring.cap ≤ message_limit) × (length lens.now ≡ message_limit) × ((i : ℕ) → i < ring.count → get_or lens.now (place_of ring i) 0 ≤ message_size) }
    requires parts { Parts body.now from.now n }
    requires n_in_bounds { n * 2 ≤ length to.old }
    ensures by_index { (cs : List ℕ) → parts_in cs to.new result ≡ map (message_in lens.now cs) (rows_for ring (ids_in message_id_size ring id_lens.now ids.now) (parts_in body.now from.now n)) }
    ensures by_index_2 { (cs : List ℕ) → length cs ≡ ring.cap * message_size → Parts cs to.new result }
    ensures upper_bound { result ≤ n }
{
    let held = Store {
        lens: id_lens,
        ids,
        size: MESSAGE_ID_SIZE,
    };
    let mut k: usize = 0;
    for i in 0..n {
        let a = from[i * 2];
        let e = from[i * 2 + 1];
        let row = held.find_from(ring, 0, &body[a..e]);
        k = add_message(lens, ring, row, to, k);
    }
    k
}

// Puts the place of the message in a row into a table, where there is such a row; how many places there are then.
fn add_message(lens: &[u16], ring: Ring, row: usize, to: &mut [usize], n: usize) -> usize
    requires start_le_cap { (ring.start ≤ ring.cap) × (ring.count ≤ ring.cap) × (ring.cap ≤ message_limit) × (length lens.now ≡ message_limit) }
    requires n_in_bounds { (n + 1) * 2 ≤ length to.old }
    ensures value { result ≡ cond (ltb row ring.count) (n + 1) n }
    ensures to_after { to.new ≡ cond (ltb row ring.count) (sets to.old (n * 2) ((place_of ring row * message_size) ∷ (place_of ring row * message_size + get_or lens.now (place_of ring row) 0) ∷ [])) to.old }
{
    if row < ring.count {
        let p = place(ring, row);
        let base = p * MESSAGE_SIZE;
        return add_part(to, n, base, base + lens[p] as usize);
    }
    n
}

// The room for a reply: the buffer or 65,536, the smaller.
fn reply_room(len: usize) -> usize
    ensures { result ≡ min len max_rpc_size }
{
    len.min(MAX_RPC_SIZE)
}

// ---- writing

// An RPC with one IWANT that holds n parts.
fn emit_request(body: &[u8], table: &[usize], n: usize, out: &mut [u8], at: usize) -> usize
    requires parts { Parts body.now table.now n }
    requires fits { Fits at (encode_rpc (request (parts_in body.now table.now n))) }
    ensures { Puts out.old at (encode_rpc (request (parts_in body.now table.now n))) out.new result }
{
    let len = emit_parts(body, table, n, 1, &mut [], 0);
    let entry = emit_head(2, len, &mut [], 0) + len;
    let i = emit_head(3, entry, out, at);
    let j = emit_head(2, len, out, i);
    emit_parts(body, table, n, 1, out, j)
}

// The ids in n rows, as fields of an IHAVE.
fn emit_ids(rows: &[u8], n: usize, id_lens: &[u8], ids: &[u8], out: &mut [u8], at: usize) -> usize
    requires n_in_bounds { n ≤ length rows.now }
    requires listed { Listed n rows.now id_lens.now ids.now }
    requires fits { Fits at (repeated (bytes_field 2) (map (id_at message_id_size id_lens.now ids.now) (take n rows.now))) }
    ensures { Puts out.old at (repeated (bytes_field 2) (map (id_at message_id_size id_lens.now ids.now) (take n rows.now))) out.new result }
{
    let mut end = at;
    for row in &rows[..n] {
        let p = *row as usize;
        let len = id_lens[p] as usize;
        let base = p * MESSAGE_ID_SIZE;
        end = emit_head(2, len, out, end);
        end = emit_bytes(&ids[base..base + len], out, end);
    }
    end
}

// An RPC with one IHAVE: the topic, and the ids in n rows.
fn emit_advertisement(
    topic: &[u8],
    rows: &[u8],
    n: usize,
    id_lens: &[u8],
    ids: &[u8],
    out: &mut [u8],
    at: usize,
) -> usize
    requires n_in_bounds { n ≤ length rows.now }
    requires listed { Listed n rows.now id_lens.now ids.now }
    requires fits { Fits at (encode_rpc (advertisement topic.now (map (id_at message_id_size id_lens.now ids.now) (take n rows.now)))) }
    ensures { Puts out.old at (encode_rpc (advertisement topic.now (map (id_at message_id_size id_lens.now ids.now) (take n rows.now)))) out.new result }
{
    let named = emit_ids(rows, n, id_lens, ids, &mut [], 0);
    let topic_end = emit_head(1, topic.len(), &mut [], 0) + topic.len();
    let len = topic_end + named;
    let entry = emit_head(1, len, &mut [], 0) + len;
    let i = emit_head(3, entry, out, at);
    let j = emit_head(1, len, out, i);
    let k = emit_head(1, topic.len(), out, j);
    let l = emit_bytes(topic, out, k);
    emit_ids(rows, n, id_lens, ids, out, l)
}

// ---- admitting

// Whether a message that may be taken under some flags has a signature; where unsigned messages are not allowed each has one.
fn has_signature(part: &[u8], flags: usize) -> bool
    requires { allows_unsigned flags ≡ false → is_signed (mode_of flags) part.now ≡ true }
    ensures { result ≡ is_signed (mode_of flags) part.now }
{
    if allows_unsigned(flags) {
        return is_signed(mode_of(flags as u64), part);
    }
    true
}

impl Node {
    // A node that holds nothing. Settings out of range are 40.
    pub fn start(
        ttl: u64,
        max_seen: usize,
        history_len: usize,
        max_messages: usize,
        flags: usize,
    ) -> Started
        ensures { Starts ttl max_seen history_len max_messages flags result }
    {
        let begun = MessageCache::new(history_len, max_messages, flags);
        if begun.answer.is_err() || MAX_IDS < max_seen {
            return Node::refused();
        }
        Started {
            answer: Ok(()),
            node: Node {
                ttl,
                max_seen,
                clock: 0,
                seen: SeenCache::new(),
                cache: begun.cache,
            },
        }
    }

    // The answer to settings out of range, beside a node that keeps nothing.
    fn refused() -> Started
        ensures answer_value { result.answer ≡ Err Fault.BadSetting }
        ensures node_value { result.node ≡ fresh_node 0 0 1 0 0 }
    {
        let begun = MessageCache::new(1, 0, 0);
        Started {
            answer: Err(Fault::BadSetting),
            node: Node {
                ttl: 0,
                max_seen: 0,
                clock: 0,
                seen: SeenCache::new(),
                cache: begun.cache,
            },
        }
    }

    // Whether the node and its stores can be used together.
    pub fn lent(self, seen_store: &[u8], cache_store: &[u8]) -> Result<(), Fault>
        ensures { result ≡ lent_of self seen_store.now cache_store.now }
    {
        self.tested(seen_store, cache_store)
    }

    // The same of a node behind a reference: a node is some 12 KB, and the calls look at it where it stands.
    fn tested(&self, seen_store: &[u8], cache_store: &[u8]) -> Result<(), Fault>
        ensures { result ≡ lent_of self.now seen_store.now cache_store.now }
    {
        let cap = seen_store.len() / ID_SIZE;
        let max_seen = self.max_seen;
        if cap < max_seen {
            return Err(Fault::BadSetting);
        }
        if max_seen < cap {
            return Err(Fault::BadStore);
        }
        if seen_store.len() % ID_SIZE != 0 {
            return Err(Fault::BadStore);
        }
        self.cache.lent(cache_store)?;
        if seen_fits(&self.seen, max_seen, seen_store) {
            return Ok(());
        }
        Err(Fault::Malformed)
    }

    // With another clock and other caches.
    fn later(mut self, at: u64, seen: SeenCache, cache: MessageCache) -> Self
        ensures { result ≡ later_node at seen cache self }
    {
        self.clock = at;
        self.seen = seen;
        self.cache = cache;
        self
    }

    // Inserts a marked id that is not refused, and puts its message under the id, where the state was tested.
    fn insert(
        self,
        seen_store: &mut [u8],
        cache_store: &mut [u8],
        part: &[u8],
        key: &[u8],
        at: u64,
    ) -> Admitted
        requires ready { Ready self seen_store.old cache_store.old }
        requires part_len_bound { (length part.now ≤ message_size) × (length key.now ≤ id_size) × (key.now ≡ form_of (mode_of self.cache.flags) part.now (drop 1 key.now)) }
        ensures answer_value { result.answer ≡ admit_answer self seen_store.old at (taken part.now (drop 1 key.now)) }
        ensures node_value { result.node ≡ admit_node self seen_store.old at (taken part.now (drop 1 key.now)) }
        ensures seen_store_after { seen_store.new ≡ admit_seen self seen_store.old at (taken part.now (drop 1 key.now)) }
        ensures cache_store_after { cache_store.new ≡ admit_cache self seen_store.old cache_store.old at (taken part.now (drop 1 key.now)) }
    {
        let cap = self.max_seen;
        let seen = self.seen.clean(cap, at);
        if seen.holds(seen_store, cap, key) {
            return Admitted {
                answer: Ok(Novelty::Duplicate),
                node: self.later(at, seen, self.cache),
            };
        }
        let expires = expiry_of(at, self.ttl);
        let seen = seen.enter(seen_store, cap, key, expires, cap);
        let kept = self.cache.keep(cache_store, part, &key[1..]);
        Admitted {
            answer: Ok(Novelty::New),
            node: self.later(at, seen, kept.cache),
        }
    }

    // Admits the message in a part, where the state was tested: 21 to 30, 34 to 36 in their places, 31.
    fn admit_part(
        self,
        seen_store: &mut [u8],
        cache_store: &mut [u8],
        part: &[u8],
        verified: bool,
        at: u64,
    ) -> Admitted
        requires { Ready self seen_store.old cache_store.old }
        ensures answer_value { result.answer ≡ admit_answer self seen_store.old at (plan_fit self at part.now (admission_of self.cache.flags part.now verified)) }
        ensures node_value { result.node ≡ admit_node self seen_store.old at (plan_fit self at part.now (admission_of self.cache.flags part.now verified)) }
        ensures seen_store_after { seen_store.new ≡ admit_seen self seen_store.old at (plan_fit self at part.now (admission_of self.cache.flags part.now verified)) }
        ensures cache_store_after { cache_store.new ≡ admit_cache self seen_store.old cache_store.old at (plan_fit self at part.now (admission_of self.cache.flags part.now verified)) }
    {
        let flags = self.cache.flags;
        match admit(part, verified, flags) {
            Err(why) => Admitted {
                answer: Err(AdmitError::Unfit(why)),
                node: self,
            },
            Ok(((from_start, from_end), (seqno_start, seqno_end))) => {
                if at < self.clock {
                    return Admitted {
                        answer: Err(AdmitError::ClockBack(self.clock)),
                        node: self,
                    };
                }
                let mut key = [0u8; ID_SIZE];
                key[0] = mark_of(has_signature(part, flags));
                let n = form_id(
                    part,
                    from_start,
                    from_end,
                    seqno_start,
                    seqno_end,
                    &mut key[1..],
                );
                self.insert(seen_store, cache_store, part, &key[..n + 1], at)
            }
        }
    }

    // Admits the message at an index of a body, given the host's word on its signature and a reading of the clock.
    pub fn admit(
        self,
        seen_store: &mut [u8],
        cache_store: &mut [u8],
        edition: Edition,
        body: &[u8],
        index: usize,
        verified: bool,
        at: u64,
    ) -> Admitted
        ensures { Admits self seen_store.old cache_store.old edition body.now index verified at result seen_store.new cache_store.new }
    {
        if let Err(why) = self.tested(seen_store, cache_store) {
            return Admitted {
                answer: Err(AdmitError::Faulty(why)),
                node: self,
            };
        }
        let mode = mode_of(self.cache.flags as u64);
        if let Err(why) = accept(Dialect { edition, mode }, body) {
            return Admitted {
                answer: Err(AdmitError::Refused(why)),
                node: self,
            };
        }
        match message_at(mode, body, index) {
            Err(count) => Admitted {
                answer: Err(AdmitError::NoMessage(count)),
                node: self,
            },
            Ok((start, end)) => {
                self.admit_part(seen_store, cache_store, &body[start..end], verified, at)
            }
        }
    }

    // What a heartbeat answers: the state is tested, and then the clock.
    fn beat_answer(&self, seen_store: &[u8], cache_store: &[u8], at: u64) -> Result<(), BeatError>
        ensures { result ≡ beat_answer self.now seen_store.now cache_store.now at }
    {
        self.tested(seen_store, cache_store)?;
        if at < self.clock {
            return Err(BeatError::ClockBack(self.clock));
        }
        Ok(())
    }

    // Cleans up, opens a window and sets the clock.
    pub fn heartbeat(self, seen_store: &[u8], cache_store: &[u8], at: u64) -> Beaten
        ensures { Beats self seen_store.now cache_store.now at result }
    {
        let answer = self.beat_answer(seen_store, cache_store, at);
        if answer.is_err() {
            return Beaten { answer, node: self };
        }
        let seen = self.seen.clean(self.max_seen, at);
        let cache = self.cache.next_window();
        Beaten {
            answer,
            node: self.later(at, seen, cache),
        }
    }

    // Writes an advertisement of a topic, where the state and the topic were tested.
    fn announce(
        &self,
        cache_store: &[u8],
        topic: &[u8],
        windows: usize,
        out: &mut [u8],
    ) -> Result<usize, AdvertiseError>
        requires { (Usable self.now.cache cache_store.now) × (length topic.now ≤ 1024) }
        ensures value { result ≡ advertised (answer (advertise_bytes self.now cache_store.now topic.now windows) out.old) }
        ensures out_after { out.new ≡ written (advertise_bytes self.now cache_store.now topic.now windows) out.old }
    {
        let told = self.cache.tell(cache_store, topic, windows);
        let n = told.count;
        if n == 0 {
            return Ok(0);
        }
        let rows = &told.rows;
        let id_lens = &self.cache.id_len;
        let ids = &self.cache.ids;
        let needed = emit_advertisement(topic, rows, n, id_lens, ids, &mut [], 0);
        if out.len() < needed {
            return Err(AdvertiseError::Room(needed));
        }
        emit_advertisement(topic, rows, n, id_lens, ids, out, 0);
        Ok(needed)
    }

    // What an advertise answers: the state is tested, and then the topic.
    fn advertise_answer(
        &self,
        seen_store: &[u8],
        cache_store: &[u8],
        topic: &[u8],
        windows: usize,
        out: &mut [u8],
    ) -> Result<usize, AdvertiseError>
        requires { (IdsSized self.now.seen) × (MessagesSized self.now.cache) }
        ensures value { result ≡ advertise_answer self.now seen_store.now cache_store.now topic.now windows out.old }
        ensures out_after { out.new ≡ advertise_left self.now seen_store.now cache_store.now topic.now windows out.old }
    {
        self.tested(seen_store, cache_store)?;
        if MAX_TOPIC_SIZE < topic.len() {
            return Err(AdvertiseError::TopicTooLong(topic.len()));
        }
        self.announce(cache_store, topic, windows, out)
    }

    // Writes an RPC with one IHAVE: the topic, and the ids of the newest windows asked for that carry it. Without such ids, no bytes.
    pub fn advertise(
        self,
        seen_store: &[u8],
        cache_store: &[u8],
        topic: &[u8],
        windows: usize,
        out: &mut [u8],
    ) -> Advertised
        ensures { Advertises self seen_store.now cache_store.now topic.now windows out.old result out.new }
    {
        Advertised {
            answer: self.advertise_answer(seen_store, cache_store, topic, windows, out),
            node: self,
        }
    }

    // What an explain answers: the state is tested, then the topic, and then the cache is asked.
    fn explain_answer(
        &self,
        seen_store: &[u8],
        cache_store: &[u8],
        id: &[u8],
        topic: &[u8],
        windows: usize,
    ) -> Result<Offer, ExplainError>
        ensures { result ≡ explain_answer self.now seen_store.now cache_store.now id.now topic.now windows }
    {
        self.tested(seen_store, cache_store)?;
        if MAX_TOPIC_SIZE < topic.len() {
            return Err(ExplainError::TopicTooLong(topic.len()));
        }
        Ok(self.cache.offer(cache_store, id, topic, windows))
    }

    // Whether an id stands in the advertisement of a topic from the newest windows asked for, and why not. An id of any length is taken.
    pub fn explain(
        self,
        seen_store: &[u8],
        cache_store: &[u8],
        id: &[u8],
        topic: &[u8],
        windows: usize,
    ) -> Explained
        ensures { Explains self seen_store.now cache_store.now id.now topic.now windows result }
    {
        Explained {
            answer: self.explain_answer(seen_store, cache_store, id, topic, windows),
            node: self,
        }
    }

    // Writes a request for what a body offers and is not seen, where the state and the body were tested.
    fn request_for(&self, seen_store: &[u8], body: &[u8], out: &mut [u8]) -> Result<usize, AskError>
        requires sound { Sound id_size (seen_ring self.now) self.now.seen.len seen_store.now }
        requires body_len_bound { (length body.now ≤ max_rpc_size) × (length (at_path (mode_of self.now.cache.flags) (3 ∷ 1 ∷ 2 ∷ []) body.now) ≤ 512) }
        ensures value { result ≡ asked (answer (ask_bytes self.now seen_store.now body.now) out.old) }
        ensures out_after { out.new ≡ written (ask_bytes self.now seen_store.now body.now) out.old }
    {
        let mut named = [0usize; 2 * MAX_RECORDS];
        let mut first = [0usize; 2 * MAX_RECORDS];
        let path = [3u64, 1, 2];
        let flags = self.cache.flags;
        let mode = mode_of(flags as u64);
        let n = parts_at(mode, body, 0, body.len(), &path, &mut named, 0);
        let k = first_mentions(body, &named, n, &mut first);
        let ring = self.seen.ring(self.max_seen);
        let lens = &self.seen.len;
        let m = unseen(lens, seen_store, ring, flags, body, &first, k, &mut named);
        if m == 0 {
            return Ok(0);
        }
        let needed = emit_request(body, &named, m, &mut [], 0);
        if out.len() < needed {
            return Err(AskError::Room(needed));
        }
        emit_request(body, &named, m, out, 0);
        Ok(needed)
    }

    // What an ask answers: the state is tested, and then the body.
    fn ask_answer(
        &self,
        seen_store: &[u8],
        cache_store: &[u8],
        edition: Edition,
        body: &[u8],
        out: &mut [u8],
    ) -> Result<usize, AskError>
        requires { (IdsSized self.now.seen) × (MessagesSized self.now.cache) }
        ensures value { result ≡ ask_answer self.now seen_store.now cache_store.now edition body.now out.old }
        ensures out_after { out.new ≡ ask_left self.now seen_store.now cache_store.now edition body.now out.old }
    {
        self.tested(seen_store, cache_store)?;
        let mode = mode_of(self.cache.flags as u64);
        accept(Dialect { edition, mode }, body)?;
        self.request_for(seen_store, body, out)
    }

    // Writes an RPC with one IWANT that holds every id in the IHAVEs of a body that is not held, each once. Without such ids, no bytes.
    pub fn ask(
        self,
        seen_store: &[u8],
        cache_store: &[u8],
        edition: Edition,
        body: &[u8],
        out: &mut [u8],
    ) -> Asked
        ensures { Asks self seen_store.now cache_store.now edition body.now out.old result out.new }
    {
        Asked {
            answer: self.ask_answer(seen_store, cache_store, edition, body, out),
            node: self,
        }
    }

    // Writes the cached messages that a body asks for and a second one does not decline, as many as the reply room takes, where the state and the bodies
    // were tested.
    fn reply_to(
        &self,
        cache_store: &[u8],
        body: &[u8],
        unwanted: &[u8],
        out: &mut [u8],
    ) -> Result<Reply, ServeError>
        requires usable { Usable self.now.cache cache_store.now }
        requires body_len_bound { (length (at_path (mode_of self.now.cache.flags) (3 ∷ 2 ∷ 1 ∷ []) body.now) ≤ 512) × (length (at_path (mode_of self.now.cache.flags) (3 ∷ 5 ∷ 1 ∷ []) unwanted.now) ≤ 512) }
        ensures value { result ≡ reply_to (cached_of self.now.cache cache_store.now (remaining (mode_of self.now.cache.flags) body.now unwanted.now)) out.old }
        ensures out_after { out.new ≡ sets out.old 0 (reply_bytes (cached_of self.now.cache cache_store.now (remaining (mode_of self.now.cache.flags) body.now unwanted.now)) out.old) }
    {
        let mut named = [0usize; 2 * MAX_RECORDS];
        let mut first = [0usize; 2 * MAX_RECORDS];
        let path = [3u64, 2, 1];
        let mode = mode_of(self.cache.flags as u64);
        let n = parts_at(mode, body, 0, body.len(), &path, &mut named, 0);
        let k = first_mentions(body, &named, n, &mut first);
        let r = not_declined(mode, body, &first, k, unwanted, &mut named);
        let ring = self.cache.ring();
        let lens = &self.cache.len;
        let id_lens = &self.cache.id_len;
        let ids = &self.cache.ids;
        let m = cached(lens, id_lens, ids, ring, body, &named, r, &mut first);
        if m == 0 {
            return Ok(Reply {
                bytes: 0,
                messages: 0,
                left: 0,
            });
        }
        let room = reply_room(out.len());
        let w = parts_that_fit(cache_store, &first, m, 2, room);
        if w == 0 {
            let needed = emit_parts(cache_store, &first, 1, 2, &mut [], 0);
            return Err(ServeError::Room(needed));
        }
        let bytes = emit_parts(cache_store, &first, w, 2, out, 0);
        Ok(Reply {
            bytes,
            messages: w,
            left: m - w,
        })
    }

    // What a serve answers: the state is tested, and then both bodies, the second in 1.2.
    fn serve_answer(
        &self,
        seen_store: &[u8],
        cache_store: &[u8],
        edition: Edition,
        body: &[u8],
        unwanted: &[u8],
        out: &mut [u8],
    ) -> Result<Reply, ServeError>
        requires { (IdsSized self.now.seen) × (MessagesSized self.now.cache) }
        ensures value { result ≡ serve_answer self.now seen_store.now cache_store.now edition body.now unwanted.now out.old }
        ensures out_after { out.new ≡ serve_left self.now seen_store.now cache_store.now edition body.now unwanted.now out.old }
    {
        self.tested(seen_store, cache_store)?;
        let mode = mode_of(self.cache.flags as u64);
        let first = Dialect { edition, mode };
        let second = Dialect {
            edition: Edition::V12,
            mode,
        };
        accept(first, body)?;
        accept(second, unwanted)?;
        self.reply_to(cache_store, body, unwanted, out)
    }

    // Writes the cached messages that the IWANTs of a body name, each once, but for those that the IDONTWANTs of a second body name, and stops before
    // the first that would pass the reply room. The second body is read in 1.2 whatever the edition; an empty one is none.
    pub fn serve(
        self,
        seen_store: &[u8],
        cache_store: &[u8],
        edition: Edition,
        body: &[u8],
        unwanted: &[u8],
        out: &mut [u8],
    ) -> Served
        ensures { Serves self seen_store.now cache_store.now edition body.now unwanted.now out.old result out.new }
    {
        Served {
            answer: self.serve_answer(seen_store, cache_store, edition, body, unwanted, out),
            node: self,
        }
    }
}
