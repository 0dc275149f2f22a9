// Lines and the numbers in them.
ghost use Rattle.std.specs.Prelude.{◌≡◌, ◌<◌, ◌≤◌, ◌==◌, ◌^◌, true, length, position};
ghost use Rattle.std.specs.Char.{is_digit};
ghost use Rattle.std.specs.List.{list_all};
ghost use Rattle.std.specs.Str.Lines.{lines, strip_carriage_return};
ghost use Rattle.std.specs.Str.Parse.{digits_value};
ghost use Rattle.cdc_sched.specs.Kept.{IsCutLine};
ghost use Rattle.cdc_sched.specs.Lines.{is_blank, is_text, is_plain, is_numeral, below, number_of};

// The first line without its end, and what stands behind that end.
pub(crate) fn next_line(bytes: &[u8]) -> (&[u8], &[u8])
    requires { 0 < length bytes.now }
    ensures line { IsCutLine bytes.now result.0.now result.1.now }
    ensures after { length result.1.now < length bytes.now }
{
    match line_feed(bytes) {
        Some(end) => (without_return(&bytes[..end]), &bytes[end + 1..]),
        None => (bytes, &bytes[bytes.len()..]),
    }
}

// The place of the first line feed.
fn line_feed(bytes: &[u8]) -> Option<usize>
    ensures { result ≡ position (λ b. b == 10) bytes.now }
{
    bytes.iter().position(|byte| *byte == b'\n')
}

// What stands before a line feed, without a carriage return right before that.
fn without_return(line: &[u8]) -> &[u8]
    ensures { result.now ≡ strip_carriage_return line.now }
{
    match line {
        [front @ .., b'\r'] => front,
        _ => line,
    }
}

pub(crate) fn is_blank(byte: u8) -> bool
    ensures { result ≡ is_blank byte }
{
    matches!(byte, b' ' | b'\t')
}

fn is_text(byte: u8) -> bool
    ensures { result ≡ is_text byte }
{
    matches!(byte, b' '..=b'~' | b'\t')
}

fn are_text(line: &[u8]) -> bool
    ensures { result ≡ list_all is_text line.now }
{
    line.iter().all(|byte| is_text(*byte))
}

// Whether the line has at most 255 bytes, each of them text.
pub(crate) fn is_plain(line: &[u8]) -> bool
    ensures { result ≡ is_plain line.now }
{
    line.len() <= 255 && are_text(line)
}

fn is_decimal(byte: u8) -> bool
    ensures { result ≡ is_digit byte 10 }
{
    char::from(byte).is_digit(10)
}

fn are_digits(word: &[u8]) -> bool
    ensures { result ≡ list_all (λ b. is_digit b 10) word.now }
{
    word.iter().all(|byte| is_decimal(*byte))
}

// Whether the word has 1 to 20 digits and nothing else.
fn is_numeral(word: &[u8]) -> bool
    ensures { result ≡ is_numeral word.now }
{
    !word.is_empty() && word.len() <= 20 && are_digits(word)
}

// The number that a word writes.
pub(crate) fn number(word: &[u8]) -> Option<u64>
    ensures { result ≡ number_of word.now }
{
    if is_numeral(word) {
        numeral_value(word)
    } else {
        None
    }
}

// The number that digits write, where it is below 2^64.
fn numeral_value(digits: &[u8]) -> Option<u64>
    requires { is_numeral digits.now ≡ true }
    ensures { result ≡ below (2 ^ 64) (digits_value 10 digits.now) }
{
    let Ok(text) = str::from_utf8(digits) else {
        return None;
    };
    text.parse().ok()
}

// The number of lines.
pub(crate) fn count_lines(bytes: &[u8]) -> u32
    requires { length bytes.now < 2 ^ 32 }
    ensures number { result ≡ length (lines bytes.now) }
    ensures within { result ≤ length bytes.now }
{
    let mut number = 0;
    let mut rest = bytes;
    while !rest.is_empty() {
        (_, rest) = next_line(rest);
        number += 1;
    }
    number
}
