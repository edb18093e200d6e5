//! The lines of a file, cut off one by one.
ghost use Rattle.std.specs.Prelude.{◌≡◌, ◌+◌, ◌<◌, ◌≤◌, ◌∷◌, length, drop};
ghost use Rattle.sr_lines.specs.Lines.{lines_of};
ghost use Rattle.sr_reader.specs.Cutting.{first_end, without_return};

/// The first line, without its end, and the bytes of the lines behind it.
#[derive(Clone, Copy)]
pub struct Cut<'a> {
    pub line: &'a [u8],
    pub rest: &'a [u8],
}

fn line_end(bytes: &[u8]) -> usize
    ensures end { result ≡ first_end bytes.now }
    ensures within { result ≤ length bytes.now }
{
    for (i, b) in bytes.iter().enumerate() {
        if *b == b'\n' {
            return i;
        }
    }
    bytes.len()
}

fn without_return(line: &[u8]) -> &[u8]
    ensures same { result.now ≡ without_return line.now }
    ensures within { length result.now ≤ length line.now }
{
    match line.strip_suffix(b"\r") {
        Some(front) => front,
        None => line,
    }
}

/// Cuts the first line off.
pub fn cut_line(bytes: &[u8]) -> Cut<'_>
    requires { 0 < length bytes.now }
    ensures lines { lines_of bytes.now ≡ result.line.now ∷ lines_of result.rest.now }
    ensures rest { result.rest.now ≡ drop (first_end bytes.now + 1) bytes.now }
    ensures within { length result.line.now ≤ length bytes.now }
    ensures shorter { length result.rest.now < length bytes.now }
{
    let end = line_end(bytes);
    if end < bytes.len() {
        Cut {
            line: without_return(&bytes[..end]),
            rest: &bytes[end + 1..],
        }
    } else {
        Cut {
            line: bytes,
            rest: &bytes[end..],
        }
    }
}
