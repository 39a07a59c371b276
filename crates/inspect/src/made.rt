// The lines of what was written: the bytes, or why there are none.
ghost use Rattle.lines.specs.Lines.{Wrote};
ghost use Rattle.inspect.specs.Made.{encode_line, sign_line, id_line, write_line, tosign_line};

use basis::Told;
use lines::made_line;

pub(crate) fn encode_line(n: u64, made: &[u8], t: Told, out: &mut [u8]) -> usize
    ensures { Wrote 131350 (encode_line n made.now t) out.old 0 out.new result }
{
    made_line(n, b" encode", true, made, t, out)
}

pub(crate) fn sign_line(n: u64, made: &[u8], t: Told, out: &mut [u8]) -> usize
    ensures { Wrote 131350 (sign_line n made.now t) out.old 0 out.new result }
{
    made_line(n, b" sign", true, made, t, out)
}

pub(crate) fn id_line(n: u64, made: &[u8], t: Told, out: &mut [u8]) -> usize
    ensures { Wrote 131350 (id_line n made.now t) out.old 0 out.new result }
{
    made_line(n, b" id", true, made, t, out)
}

pub(crate) fn write_line(n: u64, made: &[u8], t: Told, out: &mut [u8]) -> usize
    ensures { Wrote 131350 (write_line n made.now t) out.old 0 out.new result }
{
    made_line(n, b" write", true, made, t, out)
}

pub(crate) fn tosign_line(n: u64, made: &[u8], t: Told, out: &mut [u8]) -> usize
    ensures { Wrote 131350 (tosign_line n made.now t) out.old 0 out.new result }
{
    made_line(n, b" tosign", true, made, t, out)
}
