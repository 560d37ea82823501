//! Two digits a byte, into a lent buffer and from text.
ghost use Rattle.std.specs.Prelude.{◌≡◌, ◌+◌, ◌*◌, ◌<◌, ◌≤◌, Some, true, IfOk, IsOkAnd, is_ok, length, slice_index, [], ◌∷◌};
ghost use Rattle.std.specs.List.{list_all};
ghost use Rattle.le.specs.Put.{Wrote};
ghost use Rattle.hex.specs.Hex.{upper_digits, encode_upper, decode_of, hex_digit_value, is_hex_digit};

// A digit, in capitals.
fn digit(value: u8) -> u8
    requires { value < 16 }
    ensures { result ≡ slice_index upper_digits value }
{
    if value < 10 {
        b'0' + value
    } else {
        b'A' + (value - 10)
    }
}

fn put_pair(text: &mut [u8], at: usize, byte: u8) -> usize
    requires { at + 2 ≤ length text.old }
    ensures { Wrote text.old at (encode_upper (byte ∷ [])) text.new result }
{
    text[at] = digit(byte / 16);
    text[at + 1] = digit(byte % 16);
    at + 2
}

/// Writes two digits for each byte at a place, in capitals, and gives the place after them.
pub fn put_digits(text: &mut [u8], at: usize, bytes: &[u8]) -> usize
    requires { at + 2 * length bytes.now ≤ length text.old }
    ensures { Wrote text.old at (encode_upper bytes.now) text.new result }
{
    let mut next = at;
    for byte in bytes {
        next = put_pair(text, next, *byte);
    }
    next
}

fn is_digit(c: u8) -> bool
    ensures { result ≡ is_hex_digit c }
{
    matches!(c, b'0'..=b'9' | b'A'..=b'F' | b'a'..=b'f')
}

fn are_digits(text: &[u8]) -> bool
    ensures { result ≡ list_all is_hex_digit text.now }
{
    // No branch ends it early, so that many characters are looked at at once.
    let mut all = true;
    for c in text {
        all = all & is_digit(*c);
    }
    all
}

/// Whether text is pairs of digits, of either case.
pub fn are_pairs(text: &[u8]) -> bool
    ensures { result ≡ is_ok (decode_of text.now) }
{
    text.len() % 2 == 0 && are_digits(text)
}

// The value of a digit of either case.
fn value(digit: u8) -> u8
    requires { is_hex_digit digit ≡ true }
    ensures told { hex_digit_value digit ≡ Some result }
    ensures small { result < 16 }
{
    digit % 16 + digit / 64 * 9
}

/// Writes the bytes that pairs of digits spell at a place, and gives the place after them.
pub fn put_spelt(out: &mut [u8], at: usize, pairs: &[u8]) -> usize
    requires { IsOkAnd (decode_of pairs.now) (λ bytes. at + length bytes ≤ length out.old) }
    ensures { IfOk (decode_of pairs.now) (λ bytes. Wrote out.old at bytes out.new result) }
{
    let count = pairs.len() / 2;
    for i in 0..count {
        out[at + i] = value(pairs[2 * i]) * 16 + value(pairs[2 * i + 1]);
    }
    at + count
}
