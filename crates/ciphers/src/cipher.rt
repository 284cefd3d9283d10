// The ciphers by name, with their sizes in words of 32 bits.
ghost use Rattle.std.specs.Prelude.{◌≡◌, Some, ◌++◌, codes};
ghost use Rattle.std.specs.Fmt.{decimal};
ghost use Rattle.ciphers.specs.Kinds.{cipher_number, rules_of, sizes_of, Decodes};

use std::error::Error;
use std::fmt;

// Each cipher with its number.
#[derive(Clone, Copy, Debug, PartialEq, Eq, Hash)]
pub enum Cipher {
    Aes128 = 0,
    Aes192 = 1,
    Aes256 = 2,
    Present80 = 3,
}

// A number that is no cipher's.
#[derive(Clone, Copy, Debug, PartialEq, Eq)]
pub struct UnknownCipher(pub usize);

impl TryFrom<usize> for Cipher {
    type Error = UnknownCipher;

    ghost try_from_gives = { Decodes };

    fn try_from(number: usize) -> Result<Self, UnknownCipher> {
        match number {
            0 => Ok(Cipher::Aes128),
            1 => Ok(Cipher::Aes192),
            2 => Ok(Cipher::Aes256),
            3 => Ok(Cipher::Present80),
            _ => Err(UnknownCipher(number)),
        }
    }
}

impl From<Cipher> for usize {
    ghost from_gives = { λ c n. n ≡ cipher_number c };

    fn from(cipher: Cipher) -> usize {
        cipher as usize
    }
}

impl fmt::Display for UnknownCipher {
    ghost output = { λ unknown. Some (codes "no cipher has the number " ++ decimal unknown.0) };

    fn fmt<W: fmt::Write>(&self, f: &mut fmt::Formatter<W>) -> fmt::Result {
        write!(f, "no cipher has the number {}", self.0)
    }
}

impl Error for UnknownCipher {}

// Sizes in words, rounds, and how many slices a block has where each slice holds one of its bits.
#[derive(Clone, Copy)]
struct Sizes {
    key_words: usize,
    block_words: usize,
    schedule_words: usize,
    rounds: usize,
    slices: usize,
}

const AES_128: Sizes = Sizes {
    key_words: 4,
    block_words: 4,
    schedule_words: 44,
    rounds: 10,
    slices: 128,
};

const AES_192: Sizes = Sizes {
    key_words: 6,
    schedule_words: 52,
    rounds: 12,
    ..AES_128
};

const AES_256: Sizes = Sizes {
    key_words: 8,
    schedule_words: 60,
    rounds: 14,
    ..AES_128
};

const PRESENT_80: Sizes = Sizes {
    key_words: 3,
    block_words: 2,
    schedule_words: 64,
    rounds: 31,
    slices: 64,
};

impl Cipher {
    fn sizes(self) -> Sizes
        ensures { result ≡ sizes_of (rules_of self) }
    {
        match self {
            Cipher::Aes128 => AES_128,
            Cipher::Aes192 => AES_192,
            Cipher::Aes256 => AES_256,
            Cipher::Present80 => PRESENT_80,
        }
    }

    pub fn key_words(self) -> usize
        ensures { result ≡ (rules_of self).key_words }
    {
        self.sizes().key_words
    }

    pub fn block_words(self) -> usize
        ensures { result ≡ (rules_of self).block_words }
    {
        self.sizes().block_words
    }

    pub fn schedule_words(self) -> usize
        ensures { result ≡ (rules_of self).schedule_words }
    {
        self.sizes().schedule_words
    }

    pub fn rounds(self) -> usize
        ensures { result ≡ (rules_of self).rounds }
    {
        self.sizes().rounds
    }

    // How many slices a block has where each slice holds one of its bits.
    pub fn slices(self) -> usize
        ensures { result ≡ (rules_of self).slices }
    {
        self.sizes().slices
    }
}
