// The lines that answer a call on a node, at the front of out. `full` says whether the values beside a refusal and its place are printed. A line wants 256
// bytes, that of a writer 131,350; where they are not there nothing is written. A writer's buffer of more than 65,600 bytes has no line.
#![tactic(auto)]

ghost use Rattle.lines.specs.Lines.{Wrote};
ghost use Rattle.answers.specs.Answers.{set_line, admit_line, beat_line, advertise_line, ask_line, serve_line};
ghost use Rattle.answers.specs.Answers.{offer_line, why_line, gateway_line};

use basis::Told;
use lines::{either_line, made_line, number_line, refusal_line, told_line, words_line};

pub fn set_line(n: u64, t: Told, out: &mut [u8]) -> usize
    ensures { Wrote 256 (set_line n t) out.old 0 out.new result }
{
    told_line(n, b" set ok", b" set", false, t, out)
}

pub fn admit_line(n: u64, full: bool, t: Told, out: &mut [u8]) -> usize
    ensures { Wrote 256 (admit_line n full t) out.old 0 out.new result }
{
    either_line(n, b" admit new", b" admit dup", b" admit", full, t, out)
}

pub fn beat_line(n: u64, full: bool, t: Told, out: &mut [u8]) -> usize
    ensures { Wrote 256 (beat_line n full t) out.old 0 out.new result }
{
    told_line(n, b" beat ok", b" beat", full, t, out)
}

pub fn advertise_line(n: u64, full: bool, made: &[u8], t: Told, out: &mut [u8]) -> usize
    ensures { Wrote 131350 (advertise_line n full made.now t) out.old 0 out.new result }
{
    made_line(n, b" advertise", full, made, t, out)
}

pub fn ask_line(n: u64, full: bool, made: &[u8], t: Told, out: &mut [u8]) -> usize
    ensures { Wrote 131350 (ask_line n full made.now t) out.old 0 out.new result }
{
    made_line(n, b" ask", full, made, t, out)
}

pub fn serve_line(n: u64, full: bool, made: &[u8], t: Told, out: &mut [u8]) -> usize
    ensures { Wrote 131350 (serve_line n full made.now t) out.old 0 out.new result }
{
    made_line(n, b" serve", full, made, t, out)
}

// What was found of an id, by the first value; the second is its window's age.
fn offer_line(n: u64, offer: u64, age: u64, out: &mut [u8]) -> usize
    ensures { Wrote 256 (offer_line n offer age) out.old 0 out.new result }
{
    if offer == 0 {
        return words_line(n, b" why listed", out);
    }
    if offer == 1 {
        return words_line(n, b" why missing", out);
    }
    if offer == 2 {
        return words_line(n, b" why topic", out);
    }
    number_line(n, b" why window", age, out)
}

pub fn why_line(n: u64, full: bool, t: Told, out: &mut [u8]) -> usize
    ensures { Wrote 256 (why_line n full t) out.old 0 out.new result }
{
    if t.number == 0 {
        return offer_line(n, t.first, t.second, out);
    }
    refusal_line(n, b" why", full, t, out)
}

pub fn gateway_line(n: u64, t: Told, out: &mut [u8]) -> usize
    ensures { Wrote 256 (gateway_line n t) out.old 0 out.new result }
{
    told_line(n, b" gateway ok", b" gateway", false, t, out)
}
