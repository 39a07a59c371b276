// Lines of answers. A line that does not fit is cut; none of the program's is so long.
ghost use Rattle.std.specs.Prelude.{◌≤◌, length};

// A line as it is made.
pub(crate) type Line = [u8; 20000];

// Prints a line of k bytes. Answers whether it was printed.
pub(crate) fn print_line(out: &[u8], k: usize) -> bool
    requires { k ≤ length out.now }
{
    io::write_all(1, &out[..k])
}

// Prints the first k bytes and a newline. Answers whether they were printed.
pub(crate) fn print(out: &mut [u8], k: usize) -> bool {
    if k < out.len() {
        out[k] = b'\n';
        let end = k + 1;
        return io::write_all(1, &out[..end]);
    }
    false
}

// The record's number and some words.
pub(crate) fn start(n: u64, words: &[u8], out: &mut [u8]) -> usize {
    let i = text::put_decimal(out, 0, n);
    text::put_text(out, i, words)
}

pub(crate) fn say(n: u64, words: &[u8], out: &mut [u8]) -> bool {
    let k = start(n, words, out);
    print(out, k)
}
