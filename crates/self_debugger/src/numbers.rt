// Numbers in decimal notation.
ghost use Rattle.std.specs.Prelude.{◌≡◌, ◌≤◌, ℕ, length, decimal, Some, IfSome};
ghost use Rattle.std.specs.List.{list_all};
ghost use Rattle.std.specs.Char.{is_ascii_digit};
ghost use Rattle.self_debugger.specs.Numbers.{number, is_plain};

// The number that at most ten digits stand for.
fn number(digits: &[u8]) -> u64
    requires { length digits.now ≤ 10 }
    ensures { result ≡ number digits.now }
{
    let mut value = 0;
    for digit in digits {
        value = 10 * value + digit.saturating_sub(b'0') as u64;
    }
    value
}

// No byte but digits.
fn all_digits(text: &[u8]) -> bool
    ensures { result ≡ list_all is_ascii_digit text.now }
{
    text.iter().all(|b| b.is_ascii_digit())
}

// One digit or more, without leading zeros.
fn is_plain(text: &[u8]) -> bool
    ensures { result ≡ is_plain text.now }
{
    if text.is_empty() {
        return false;
    }
    if !all_digits(text) {
        return false;
    }
    if text[0] == b'0' {
        return text.len() == 1;
    }
    true
}

/// The number whose decimal notation, without leading zeros, the text is, where that number is at most `most`.
pub fn plain_number(text: &[u8], most: u32) -> Option<u32>
    ensures found { IfSome result (λ n. (text.now ≡ decimal n) × (n ≤ most)) }
    ensures only { (n : ℕ) → text.now ≡ decimal n → n ≤ most → result ≡ Some n }
{
    if !is_plain(text) {
        return None;
    }
    if text.len() > 10 {
        return None;
    }
    let number = number(text);
    if number > most as u64 {
        return None;
    }
    Some(number as u32)
}
