// Numbers as text, put behind what is there. By hand for the reason that answer.rt gives.
ghost use Rattle.std.specs.Prelude.{◌≡◌, ◌++◌, decimal, OnOk};
ghost use Rattle.answers.specs.Buffers.{held};
ghost use Rattle.answers.specs.Digits.{word_digits};

use crate::buffer::Buffer;
use std::alloc::AllocError;

// A number in decimal, without leading zeros.
pub fn push_decimal(out: &mut Buffer, n: usize) -> Result<(), AllocError>
    ensures { OnOk result (held out.new ≡ held out.old ++ decimal n) }
{
    let mut digits = itoa::Buffer::new();
    out.put(digits.format(n).as_bytes())
}

// The eight hexadecimal digits of a memory word.
fn word_digits(word: u32) -> [u8; 8]
    ensures { result ≡ word_digits word }
{
    let mut digits = [0; 8];
    let Ok(()) = hex::encode_to_slice(word.to_be_bytes(), &mut digits) else {
        unreachable()
    };
    digits
}

// A memory word as eight hexadecimal digits.
pub fn push_word(out: &mut Buffer, word: u32) -> Result<(), AllocError>
    ensures { OnOk result (held out.new ≡ held out.old ++ word_digits word) }
{
    out.put(&word_digits(word))
}
