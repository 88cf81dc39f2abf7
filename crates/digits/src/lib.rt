// The digits of a network text: lines of uppercase hexadecimal digits, two for a byte, each ended by 0A. A line is scanned, or decoded where its length is
// known. The definitions are in specs/; every function is equated with one of them.
#![tactic(auto)]

ghost use Rattle.std.specs.Prelude.{ℕ, ◌+◌, ◌*◌, ◌≤◌, ◌<◌, ◌≡◌, length, get_or};
ghost use Rattle.digits.specs.Digits.{is_digit, digit, line_of};
ghost use Rattle.digits.specs.Steps.Scan.{scanned, paired, Valued, Decoding};

// What a scan finds of a line of whole pairs of digits ended by 0A: the number of its bytes and their sum modulo 256.
#[derive(Clone, Copy)]
pub struct Scanned {
    pub count: usize,
    pub sum: usize,
}

// Lowercase digits are none. The ranges are asked and joined, and not matched one after the other, so that the compiler can take many bytes at a step.
#[tactic(auto, unfolding(crate::specs::Digits::is_digit))]
pub fn is_digit(x: u8) -> bool
    ensures { result ≡ is_digit x }
{
    (b'0'..=b'9').contains(&x) | (b'A'..=b'F').contains(&x)
}

// The value of a digit, 0 for what is none.
#[tactic(auto, unfolding(crate::specs::Digits::digit))]
pub fn digit_of(x: u8) -> u8
    ensures { (result ≡ digit x) × (result < 16) }
{
    if (b'0'..=b'9').contains(&x) {
        return x - b'0';
    }
    if (b'A'..=b'F').contains(&x) {
        return x - b'A' + 10;
    }
    0
}

// The byte of two digits' values. One number holds both, which the compiler can load at once where they stand side by side; in 4097 times that
// number the byte stands above the lowest eight bits.
fn byte_of(high: u8, low: u8) -> u8
    requires { (high < 16) × (low < 16) }
    ensures { result ≡ 16 * high + low }
{
    let pair = high as u32 + 256 * (low as u32);
    (pair * 4097 / 256 % 256) as u8
}

// The line at the front of a text, without storing its bytes: a line may be of any length. After the last whole pair at most one byte is left.
pub fn scan_line(text: &[u8]) -> Option<Scanned>
    ensures { result ≡ scanned 0 0 (line_of text.now) }
{
    let mut count: usize = 0;
    let mut sum: usize = 0;
    let pairs = text.chunks_exact(2);
    let last = pairs.remainder();
    for pair in pairs {
        if pair[0] == 10 {
            return Some(Scanned { count, sum });
        }
        if !(is_digit(pair[0]) & is_digit(pair[1])) {
            return None;
        }
        sum = (sum + byte_of(digit_of(pair[0]), digit_of(pair[1])) as usize) % 256;
        count += 1;
    }
    let [end] = *last else {
        return None;
    };
    if end != 10 {
        return None;
    }
    Some(Scanned { count, sum })
}

// Fills values with those of a text's first digits, and tells whether all are digits. It does not stop at one that is none, so that the compiler can
// take many at a step.
fn values_of(text: &[u8], values: &mut [u8]) -> bool
    requires { length values.old ≤ length text.now }
    ensures { Valued (length values.old) text.now values.new result }
{
    let mut good = true;
    for (k, value) in values.iter_mut().enumerate() {
        let x = text[k];
        *value = digit_of(x);
        good &= is_digit(x);
    }
    good
}

// Joins values by twos into bytes.
fn join_values(values: &[u8], bytes: &mut [u8])
    requires { (length values.now ≡ 2 * length bytes.old) × ((i : ℕ) → get_or values.now i 0 < 16) }
    ensures { bytes.new ≡ paired (length bytes.old) values.now }
{
    for (k, byte) in bytes.iter_mut().enumerate() {
        *byte = byte_of(values[2 * k], values[2 * k + 1]);
    }
}

// Fills bytes from a text's first digits, by way of their values, and tells whether all are digits.
fn decode_by(text: &[u8], values: &mut [u8], bytes: &mut [u8]) -> bool
    requires { (2 * length bytes.old ≤ length text.now) × (length values.old ≡ 2 * length bytes.old) }
    ensures { Decoding (length bytes.old) text.now bytes.new result }
{
    let good = values_of(text, values);
    join_values(values, bytes);
    good
}

// The same for at most 16 bytes, with room of its own for the values.
fn decode_part(text: &[u8], bytes: &mut [u8]) -> bool
    requires { (2 * length bytes.old ≤ length text.now) × (length bytes.old ≤ 16) }
    ensures { Decoding (length bytes.old) text.now bytes.new result }
{
    let mut values = [0u8; 32];
    let size = 2 * bytes.len();
    decode_by(text, &mut values[..size], bytes)
}

// Fills at most 32 bytes from a text's first digits, and tells whether all are digits. Of more than 16 bytes the first 16 and the last 16 are made, which
// may overlap: parts of a length that is known need no steps for what is left over.
pub fn decode_into(text: &[u8], bytes: &mut [u8]) -> bool
    requires { (2 * length bytes.old ≤ length text.now) × (length bytes.old ≤ 32) }
    ensures { Decoding (length bytes.old) text.now bytes.new result }
{
    let n = bytes.len();
    if n < 16 {
        return decode_part(text, bytes);
    }
    let start = n - 16;
    let first = decode_part(text, &mut bytes[0..16]);
    let last = decode_part(&text[2 * start..], &mut bytes[start..n]);
    first & last
}
