// Numbers written in digits.

ghost use Rattle.std.specs.Prelude.{◌≡◌, ◌^◌, ◌<◌, ◌≤◌, length, IfSome};
ghost use Rattle.text.specs.Numbers.{numeral, below, decimal_of, hexadecimal_of};

/// The longest memory word has this many digits.
const WORD_DIGITS: usize = 8;

/// The number that a word writes in a base, if each byte is a digit and the number fits.
fn number(word: &[u8], base: u32) -> Option<usize>
    requires low { 2 ≤ base }
    requires high { base ≤ 36 }
    ensures { result ≡ below (2 ^ 64) (numeral base word.now) }
{
    if word.is_empty() {
        return None;
    }
    let mut value = 0usize;
    for byte in word {
        let digit = char::from(*byte).to_digit(base)?;
        value = value
            .checked_mul(base as usize)?
            .checked_add(digit as usize)?;
    }
    Some(value)
}

/// The decimal number that a word writes, if it is one below 2^64.
pub fn decimal(word: &[u8]) -> Option<usize>
    ensures { result ≡ decimal_of word.now }
{
    number(word, 10)
}

/// The number that a short word writes in hexadecimal digits, which fits 32 bits.
fn short_hexadecimal(word: &[u8]) -> Option<usize>
    requires { length word.now ≤ 8 }
    ensures value { result ≡ numeral 16 word.now }
    ensures small { IfSome result (λ n. n < 2 ^ 32) }
{
    number(word, 16)
}

/// The memory word that a word of a text writes: one to eight hexadecimal digits.
pub fn hexadecimal(word: &[u8]) -> Option<u32>
    ensures { result ≡ hexadecimal_of word.now }
{
    if word.len() > WORD_DIGITS {
        return None;
    }
    short_hexadecimal(word).map(|value| value as u32)
}
