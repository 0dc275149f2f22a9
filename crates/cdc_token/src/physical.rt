//! The physical lines of a source.

ghost use Rattle.std.specs.Prelude.{◌≡◌, ◌≤◌, ◌<◌, ◌+◌, ◌∷◌, ◌==◌, length};
ghost use Rattle.std.specs.List.{prefix_len};
ghost use Rattle.std.specs.Str.Lines.{lines, strip_carriage_return};
ghost use Rattle.cdc_token.specs.Cutting.{is_inner};

/// How many bytes stand before the first line feed.
fn line_len(z: &[u8]) -> usize
    ensures value { result ≡ prefix_len is_inner z.now }
    ensures within { result ≤ length z.now }
{
    let mut end = 0;
    while end < z.len() && z[end] != b'\n' {
        end += 1;
    }
    end
}

/// A line without the carriage return at its end.
fn without_return(line: &[u8]) -> &[u8]
    ensures value { result.now ≡ strip_carriage_return line.now }
    ensures within { length result.now ≤ length line.now }
{
    match line {
        [front @ .., b'\r'] => front,
        _ => line,
    }
}

/// The first line without its end, which is a line feed with or without a carriage return, and the bytes behind that.
pub fn first_line(source: &[u8]) -> (&[u8], &[u8])
    requires { 0 < length source.now }
    ensures cut { lines source.now ≡ result.0.now ∷ lines result.1.now }
    ensures within { length result.0.now ≤ length source.now }
    ensures shorter { length result.1.now < length source.now }
{
    let (line, rest) = source.split_at(line_len(source));
    match rest {
        [_, after @ ..] => (without_return(line), after),
        [] => (line, rest),
    }
}
