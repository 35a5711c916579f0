//! Numbers, as lines write them.
ghost use Rattle.std.specs.Prelude.{◌≡◌, ◌≤◌, ◌<◌, ◌^◌, length, true, IfSome};
ghost use Rattle.std.specs.List.{list_all};
ghost use Rattle.std.specs.Char.{digit_value, is_ascii_digit};
ghost use Rattle.std.specs.Str.Parse.{digits_value};
ghost use Rattle.sbpf_asm.specs.Words.{decimal_of, hex_of, unsigned_of, number_of, signed_of, is_hex_digit};

fn are_decimal_digits(text: &[u8]) -> bool
    ensures { result ≡ list_all is_ascii_digit text.now }
{
    text.iter().all(|digit| digit.is_ascii_digit())
}

fn is_hex_digit(byte: u8) -> bool
    ensures { result ≡ is_hex_digit byte }
{
    byte.is_ascii_digit() || (97 <= byte && byte <= 102)
}

/// Whether all bytes are lower case hexadecimal digits.
pub(crate) fn are_hex_digits(text: &[u8]) -> bool
    ensures { result ≡ list_all is_hex_digit text.now }
{
    text.iter().all(|digit| is_hex_digit(*digit))
}

fn digit_value(digit: u8) -> u8
    requires { is_hex_digit digit ≡ true }
    ensures { result ≡ digit_value digit }
{
    if digit <= b'9' {
        digit - b'0'
    } else {
        digit - b'a' + 10
    }
}

/// The number that digits write.
fn value_of(text: &[u8], radix: u8) -> u128
    requires digits { list_all is_hex_digit text.now ≡ true }
    requires few { length text.now ≤ 20 }
    requires radix { radix ≤ 16 }
    ensures value { result ≡ digits_value radix text.now }
    ensures below { result < 2 ^ 127 }
{
    let mut value = 0u128;
    for digit in text {
        value = value * u128::from(radix) + u128::from(digit_value(*digit));
    }
    value
}

fn decimal_of(text: &[u8]) -> Option<u128>
    ensures value { result ≡ decimal_of text.now }
    ensures below { IfSome result (λ n. n < 2 ^ 127) }
{
    if are_decimal_digits(text) && 0 < text.len() && text.len() <= 20 {
        Some(value_of(text, 10))
    } else {
        None
    }
}

fn hex_of(text: &[u8]) -> Option<u128>
    ensures value { result ≡ hex_of text.now }
    ensures below { IfSome result (λ n. n < 2 ^ 127) }
{
    if are_hex_digits(text) && 0 < text.len() && text.len() <= 16 {
        Some(value_of(text, 16))
    } else {
        None
    }
}

fn unsigned_of(text: &[u8]) -> Option<u128>
    ensures value { result ≡ unsigned_of text.now }
    ensures below { IfSome result (λ n. n < 2 ^ 127) }
{
    if text.starts_with(b"0x") {
        hex_of(&text[2..])
    } else {
        decimal_of(text)
    }
}

/// The unsigned number that is behind a sign.
pub(crate) fn signed_of(sign: u8, text: &[u8]) -> Option<i128>
    ensures { result ≡ signed_of sign text.now }
{
    let value = unsigned_of(text)? as i128;
    if sign == b'-' {
        Some(-value)
    } else {
        Some(value)
    }
}

/// A number with an optional `-` before it.
pub fn number_of(text: &[u8]) -> Option<i128>
    ensures { result ≡ number_of text.now }
{
    if text.starts_with(b"-") {
        signed_of(b'-', &text[1..])
    } else {
        signed_of(b'+', text)
    }
}
