//! Numbers in arguments.
ghost use Rattle.std.specs.Prelude.{◌≡◌, ◌≤◌, ◌^◌, IfSome, MatchOption, true};
ghost use Rattle.std.specs.List.{list_all};
ghost use Rattle.std.specs.Char.{is_ascii_digit};
ghost use Rattle.std.specs.Str.Parse.{digits_value};
ghost use Rattle.command_parts.specs.Numbers.{is_number_text, number_in};

fn are_digits(text: &[u8]) -> bool
    ensures { result ≡ list_all is_ascii_digit text.now }
{
    text.iter().all(|digit| digit.is_ascii_digit())
}

/// Whether the text is 1 to 20 decimal digits.
fn is_number_text(text: &str) -> bool
    ensures { result ≡ is_number_text text.now }
{
    are_digits(text.as_bytes()) && 0 < text.len() && text.len() <= 20
}

/// The number that the digits write. None where it is above what a u64 holds.
fn value_of(text: &str) -> Option<u64>
    requires { is_number_text text.now ≡ true }
    ensures { MatchOption result (2 ^ 64 ≤ digits_value 10 text.now)
        (λ n. n ≡ digits_value 10 text.now) }
{
    match text.parse() {
        Ok(number) => Some(number),
        Err(_) => None,
    }
}

/// The number from `low` to `high`, both among them, that the text is: 1 to 20 decimal digits.
pub fn number_in(low: u64, high: u64, text: &str) -> Option<u64>
    ensures value { result ≡ number_in low high text.now }
    ensures range { IfSome result (λ n. (low ≤ n) × (n ≤ high)) }
{
    if !is_number_text(text) {
        return None;
    }
    let number = value_of(text)?;
    if low <= number && number <= high {
        Some(number)
    } else {
        None
    }
}
