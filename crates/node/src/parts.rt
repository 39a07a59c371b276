// Parts of lent bytes, kept as a table of places, two words a part: where it starts and where it ends. The parts of a body at a path of field
// numbers, those that are mentioned first, and parts written as fields.
ghost use Rattle.std.specs.Prelude.{◌≡◌, cond, not, [], ◌∷◌, ◌++◌, ◌+◌, ◌*◌, ◌≤◌, ◌<◌, length, drop, get_or};
ghost use Rattle.std.proofs.lemmas.List.Edits.{sets};
ghost use Rattle.protobuf.specs.Walk.{between, is_bytes, value_in};
ghost use Rattle.peer_id.specs.Uvarint.{uvarint};
ghost use Rattle.protobuf.specs.Encode.{tag, bytes_field};
ghost use Rattle.rpc.specs.Encode.{repeated};
ghost use Rattle.encode.specs.Puts.{Puts, Fits};
ghost use Rattle.schema.specs.Count.{FieldWithin};
ghost use Rattle.rows.specs.Ids.{among};
ghost use Rattle.node.specs.Parts.{parts_in, Parts, at_path, once, without, fitting};

use basis::Mode;
use encode::put_head;
use peer_id::uvarint_len;
use protobuf::{Field, WIRE_LEN, put_bytes, read_field};
use rows::same;

// Puts a part into a table after its n parts; how many there are then.
pub(crate) fn add_part(table: &mut [usize], n: usize, start: usize, end: usize) -> usize
    requires { (n + 1) * 2 ≤ length table.old }
    ensures value { result ≡ n + 1 }
    ensures table_after { table.new ≡ sets table.old (n * 2) (start ∷ end ∷ []) }
{
    table[n * 2] = start;
    table[n * 2 + 1] = end;
    n + 1
}

// Puts a part into a table where it is to be there; how many there are then.
pub(crate) fn add_where(
    there: bool,
    table: &mut [usize],
    n: usize,
    start: usize,
    end: usize,
) -> usize
    requires { (n + 1) * 2 ≤ length table.old }
    ensures value { result ≡ cond there (n + 1) n }
    ensures table_after { table.new ≡ cond there (sets table.old (n * 2) (start ∷ end ∷ [])) table.old }
{
    if there {
        return add_part(table, n, start, end);
    }
    n
}

// Puts the parts at a path of the submessage between start and end into a table after its n parts; how many there are then.
#[cycle(field_at_parts_at)]
pub(crate) fn parts_at(
    mode: Mode,
    body: &[u8],
    start: usize,
    end: usize,
    path: &[u64],
    table: &mut [usize],
    n: usize,
) -> usize
    requires start_le_end { (start ≤ end) × (end ≤ length body.now) }
    requires parts { Parts body.now table.old n }
    requires end_in_bounds { (n + length (at_path mode path.now (between body.now start end))) * 2 ≤ length table.old }
    ensures result_after { parts_in body.now table.new result ≡ parts_in body.now table.old n ++ at_path mode path.now (between body.now start end) }
    ensures parts_2 { Parts body.now table.new result }
{
    if path.len() == 0 {
        return add_part(table, n, start, end);
    }
    let mut at: usize = 0;
    let mut k = n;
    while at < end - start {
        let step = read_field(mode, &body[start..end], at);
        match step {
            Ok(None) => {
                return k;
            }
            Err(_) => {
                return k;
            }
            Ok(Some(f)) => {
                k = field_at(mode, body, start, end, f, path, table, k);
                at = f.next;
            }
        }
    }
    k
}

// The same of one field of the submessage.
#[cycle(field_at_parts_at)]
fn field_at(
    mode: Mode,
    body: &[u8],
    start: usize,
    end: usize,
    f: Field,
    path: &[u64],
    table: &mut [usize],
    n: usize,
) -> usize
    requires start_le_end { (start ≤ end) × (end ≤ length body.now) × (1 ≤ length path.now) }
    requires field_within { FieldWithin (between body.now start end) f }
    requires parts { Parts body.now table.old n }
    requires f_in_bounds { (n + length (cond (is_bytes (get_or path.now 0 0) f) (at_path mode (drop 1 path.now) (value_in (between body.now start end) f)) [])) * 2 ≤ length table.old }
    ensures result_after { parts_in body.now table.new result ≡ parts_in body.now table.old n ++ cond (is_bytes (get_or path.now 0 0) f) (at_path mode (drop 1 path.now) (value_in (between body.now start end) f)) [] }
    ensures parts_2 { Parts body.now table.new result }
{
    if f.wire_type == WIRE_LEN {
        if f.field == path[0] {
            return parts_at(
                mode,
                body,
                start + f.start,
                start + f.next,
                &path[1..],
                table,
                n,
            );
        }
    }
    n
}

// Puts the parts of `from` that are not there before into `to`, each at its first mention; how many those are.
pub(crate) fn first_mentions(body: &[u8], from: &[usize], n: usize, to: &mut [usize]) -> usize
    requires parts { Parts body.now from.now n }
    requires n_in_bounds { n * 2 ≤ length to.old }
    ensures result_after { parts_in body.now to.new result ≡ once (parts_in body.now from.now n) }
    ensures parts_2 { Parts body.now to.new result }
    ensures upper_bound { result ≤ n }
{
    let mut k: usize = 0;
    'named: for i in 0..n {
        let a = from[i * 2];
        let e = from[i * 2 + 1];
        for j in 0..k {
            let b = to[j * 2];
            let f = to[j * 2 + 1];
            if same(&body[b..f], &body[a..e]) {
                continue 'named;
            }
        }
        k = add_part(to, k, a, e);
    }
    k
}

// Whether some bytes are not among n parts.
fn is_apart(s: &[u8], table: &[usize], n: usize, bytes: &[u8]) -> bool
    requires { Parts s.now table.now n }
    ensures { result ≡ not (among bytes.now (parts_in s.now table.now n)) }
{
    (0..n).all(|i| !same(&s[table[i * 2]..table[i * 2 + 1]], bytes))
}

// Puts the parts of `from` that are not among the m parts of another body into `to`; how many those are.
pub(crate) fn parts_without(
    body: &[u8],
    from: &[usize],
    n: usize,
    other: &[u8],
    table: &[usize],
    m: usize,
    to: &mut [usize],
) -> usize
    requires parts { Parts body.now from.now n }
    requires parts_2 { Parts other.now table.now m }
    requires n_in_bounds { n * 2 ≤ length to.old }
    ensures result_after { parts_in body.now to.new result ≡ without (parts_in other.now table.now m) (parts_in body.now from.now n) }
    ensures parts_3 { Parts body.now to.new result }
    ensures upper_bound { result ≤ n }
{
    let mut k: usize = 0;
    for i in 0..n {
        let a = from[i * 2];
        let e = from[i * 2 + 1];
        let there = is_apart(other, table, m, &body[a..e]);
        k = add_where(there, to, k, a, e);
    }
    k
}

// Bytes as they stand: where they end, and written there where there is room.
pub(crate) fn emit_bytes(part: &[u8], out: &mut [u8], at: usize) -> usize
    requires { Fits at part.now }
    ensures { Puts out.old at part.now out.new result }
{
    put_bytes(out, at, part);
    at + part.len()
}

// The tag of a length-delimited field n, and its length, in the same way.
pub(crate) fn emit_head(n: u64, len: usize, out: &mut [u8], at: usize) -> usize
    requires { (n ≤ 6) × Fits at (tag n 2 ++ uvarint len) }
    ensures { Puts out.old at (tag n 2 ++ uvarint len) out.new result }
{
    put_head(n, len, out, at)
}

// Each of n parts as a field.
pub(crate) fn emit_parts(
    s: &[u8],
    table: &[usize],
    n: usize,
    field: u64,
    out: &mut [u8],
    at: usize,
) -> usize
    requires parts { Parts s.now table.now n }
    requires field_bound { (field ≤ 6) × Fits at (repeated (bytes_field field) (parts_in s.now table.now n)) }
    ensures { Puts out.old at (repeated (bytes_field field) (parts_in s.now table.now n)) out.new result }
{
    let mut end = at;
    for i in 0..n {
        let a = table[i * 2];
        let e = table[i * 2 + 1];
        end = emit_head(field, e - a, out, end);
        end = emit_bytes(&s[a..e], out, end);
    }
    end
}

// How many of n parts, from the first on, fit as fields into so many bytes.
pub(crate) fn parts_that_fit(s: &[u8], table: &[usize], n: usize, field: u64, room: usize) -> usize
    requires parts { Parts s.now table.now n }
    requires field_bound { field ≤ 6 }
    ensures value { result ≡ fitting field room (parts_in s.now table.now n) }
    ensures upper_bound { result ≤ n }
{
    let mut left = room;
    for i in 0..n {
        let a = table[i * 2];
        let e = table[i * 2 + 1];
        let part = &s[a..e];
        let size = uvarint_len(field * 8 + 2) + uvarint_len(part.len() as u64) + part.len();
        if left < size {
            return i;
        }
        left -= size;
    }
    n
}
