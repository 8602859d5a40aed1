ghost use Rattle.std.specs.Prelude.{◌≡◌, ◌≤◌, length, true};
ghost use Rattle.std.specs.List.{list_all};
ghost use Rattle.alb_words.specs.Numbers.{is_digit, number_in, value_of};

// Whether a word has 1 to 18 bytes.
const MOST_DIGITS: usize = 18;

// Whether a byte is a digit.
fn is_digit(byte: u8) -> bool
    ensures { result ≡ is_digit byte }
{
    byte.is_ascii_digit()
}

// Whether all bytes are digits.
fn are_digits(bytes: &[u8]) -> bool
    ensures { result ≡ list_all is_digit bytes.now }
{
    bytes.iter().all(|byte| is_digit(*byte))
}

// The number that at most 18 digits say.
fn value_of(digits: &[u8]) -> u64
    requires digits { list_all is_digit digits.now ≡ true }
    requires few { length digits.now ≤ 18 }
    ensures { result ≡ value_of 0 digits.now }
{
    let mut value = 0;
    for digit in digits {
        value = value * 10 + u64::from(*digit - b'0');
    }
    value
}

/// The number that a word of 1 to 18 digits says; `None` exactly for every other word.
pub fn number(word: &str) -> Option<u64>
    ensures { result ≡ number_in word.now }
{
    let bytes = word.as_bytes();
    if bytes.is_empty() || bytes.len() > MOST_DIGITS || !are_digits(bytes) {
        return None;
    }
    Some(value_of(bytes))
}
