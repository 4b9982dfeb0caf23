// The words of a line: blanks, names and numbers.
ghost use Rattle.std.specs.Prelude.{◌≡◌, ◌≤◌, ◌<◌, ◌∷◌, ◌==◌, [], false, length, slice_index, take, drop, Some, MatchOption};
ghost use Rattle.std.specs.List.{list_all, position_or_len, prefix_len, suffix_len};
ghost use Rattle.std.specs.Char.{is_ascii_digit};
ghost use Rattle.session_text.specs.Words.{is_blank, is_word_byte, is_name, is_number, is_space, number, trimmed, value, words};

/// A word, and the text behind it.
#[derive(Clone, Copy)]
pub struct Split<'a> {
    pub word: &'a [u8],
    pub rest: &'a [u8],
}

/// Whether a byte is a space, tab or carriage return.
pub fn is_blank(byte: u8) -> bool
    ensures { result ≡ is_blank byte }
{
    byte == b' ' || byte == b'\t' || byte == b'\r'
}

// How many blanks end a line.
fn blanks_behind(line: &[u8]) -> usize
    ensures count { result ≡ suffix_len is_blank line.now }
    ensures within { result ≤ length line.now }
{
    line.iter()
        .rev()
        .take_while(|byte| is_blank(**byte))
        .count()
}

/// A line without the blanks at its end.
pub fn trimmed(line: &[u8]) -> &[u8]
    ensures { result.now ≡ trimmed line.now }
{
    let blanks = blanks_behind(line);
    &line[..line.len() - blanks]
}

/// How many bytes stand before the first that is `mark`, or all where none is.
pub fn part_len(mark: u8, text: &[u8]) -> usize
    ensures count { result ≡ position_or_len (λ b. b == mark) text.now }
    ensures within { result ≤ length text.now }
{
    text.iter().take_while(|byte| **byte != mark).count()
}

// How many spaces begin a text.
fn spaces_before(text: &[u8]) -> usize
    ensures count { result ≡ prefix_len is_space text.now }
    ensures within { result ≤ length text.now }
{
    text.iter().take_while(|byte| **byte == b' ').count()
}

// A text from its first word on.
fn from_word(text: &[u8]) -> &[u8]
    ensures same { words result.now ≡ words text.now }
    ensures shorter { length result.now ≤ length text.now }
    ensures begins { 0 < length result.now → is_space (slice_index result.now 0) ≡ false }
{
    let spaces = spaces_before(text);
    &text[spaces..]
}

/// The first word of a text, and what stands behind it; none where the text has no word.
pub fn first_word(text: &[u8]) -> Option<Split>
    ensures word { MatchOption result (words text.now ≡ []) (λ s. words text.now ≡ s.word.now ∷ words s.rest.now) }
    ensures shorter { MatchOption result (words text.now ≡ []) (λ s. length s.rest.now < length text.now) }
{
    let text = from_word(text);
    if text.is_empty() {
        return None;
    }
    let len = part_len(b' ', text);
    Some(Split {
        word: &text[..len],
        rest: &text[len..],
    })
}

fn is_word_byte(byte: u8) -> bool
    ensures { result ≡ is_word_byte byte }
{
    byte.is_ascii_alphanumeric() || byte == b'_'
}

fn are_word_bytes(text: &[u8]) -> bool
    ensures { result ≡ list_all is_word_byte text.now }
{
    text.iter().all(|byte| is_word_byte(*byte))
}

/// Whether a word is a name: a lower-case letter, then letters, digits and `_`.
pub fn is_name(word: &[u8]) -> bool
    ensures { result ≡ is_name word.now }
{
    match word {
        [] => false,
        [first, rest @ ..] => first.is_ascii_lowercase() && are_word_bytes(rest),
    }
}

fn are_digits(text: &[u8]) -> bool
    ensures { result ≡ list_all is_ascii_digit text.now }
{
    text.iter().all(|byte| byte.is_ascii_digit())
}

// The number that digits write, where it is at most 1,000,000,000.
fn value(digits: &[u8]) -> Option<u32>
    ensures { MatchOption result (1000000000 < value digits.now) (λ n. (n ≡ value digits.now) × (n ≤ 1000000000)) }
{
    let mut value: u64 = 0;
    for digit in digits {
        value = value * 10 + u64::from(digit.saturating_sub(b'0'));
        if value > 1_000_000_000 {
            return None;
        }
    }
    Some(value as u32)
}

/// The number of a word of digits that write at most 1,000,000,000; none for any other word.
pub fn number(word: &[u8]) -> Option<u32>
    ensures { result ≡ number word.now }
{
    if word.is_empty() {
        return None;
    }
    if !are_digits(word) {
        return None;
    }
    value(word)
}
