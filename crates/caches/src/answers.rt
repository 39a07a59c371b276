// The lines of the answers whose text is fixed by what the call tells.
ghost use Rattle.lines.specs.Lines.{Wrote};
ghost use Rattle.caches.specs.Lines.{insert_line, contains_line, clean_line, next_line, put_line, shift_line};

use basis::Told;
use lines::{either_line, number_line, refusal_line, told_line};

pub(crate) fn insert_line(n: u64, t: Told, out: &mut [u8]) -> usize
    ensures { Wrote 256 (insert_line n t) out.old 0 out.new result }
{
    either_line(
        n,
        b" insert fresh",
        b" insert held",
        b" insert",
        true,
        t,
        out,
    )
}

pub(crate) fn contains_line(n: u64, t: Told, out: &mut [u8]) -> usize
    ensures { Wrote 256 (contains_line n t) out.old 0 out.new result }
{
    either_line(
        n,
        b" contains yes",
        b" contains no",
        b" contains",
        true,
        t,
        out,
    )
}

pub(crate) fn clean_line(n: u64, t: Told, out: &mut [u8]) -> usize
    ensures { Wrote 256 (clean_line n t) out.old 0 out.new result }
{
    if t.number == 0 {
        return number_line(n, b" clean", t.first, out);
    }
    refusal_line(n, b" clean", true, t, out)
}

pub(crate) fn next_line(n: u64, t: Told, out: &mut [u8]) -> usize
    ensures { Wrote 256 (next_line n t) out.old 0 out.new result }
{
    if t.count == 1 {
        return number_line(n, b" next", t.first, out);
    }
    told_line(n, b" next none", b" next", true, t, out)
}

pub(crate) fn put_line(n: u64, t: Told, out: &mut [u8]) -> usize
    ensures { Wrote 256 (put_line n t) out.old 0 out.new result }
{
    either_line(n, b" put stored", b" put held", b" put", true, t, out)
}

pub(crate) fn shift_line(n: u64, t: Told, out: &mut [u8]) -> usize
    ensures { Wrote 256 (shift_line n t) out.old 0 out.new result }
{
    told_line(n, b" shift ok", b" shift", true, t, out)
}
