// The steps of PRESENT-80 on a state of 64 bits and a key register of 80.
ghost use Rattle.std.specs.Prelude.{◌≡◌, ◌/◌, ◌^◌, ◌<◌, bit_xor, slice_index};
ghost use Rattle.ciphers.specs.Present.{present_s, present_byte, present_source, present_layer, present_move, words_number, number_words};
ghost use Rattle.ciphers.specs.Present.{present_register, rotated_register, top_nibble_by_s, present_turned};

use super::cipher::Cipher;
use super::table;

// The state of a block of two words, the first on top. Functions and no From, since both types are the language's.
pub fn state_of(block: [u32; 2]) -> u64
    ensures { result ≡ words_number (slice_index block 0) (slice_index block 1) }
{
    let [high, low] = block;
    (u64::from(high) << 32) + u64::from(low)
}

// The two words of a state or a round key.
pub fn block_of(s: u64) -> [u32; 2]
    ensures { result ≡ number_words s }
{
    [(s >> 32) as u32, (s % (1 << 32)) as u32]
}

pub fn add_round_key(s: u64, key: u64) -> u64
    ensures { result ≡ bit_xor s key }
{
    s ^ key
}

// S at every nibble, byte by byte from the top.
#[tactic(auto, using(crate::proofs::Nibbles::layer_by_bytes))]
pub fn sub_nibbles(s: u64) -> u64
    ensures { result ≡ present_layer s }
{
    u64::from_be_bytes(
        s.to_be_bytes()
            .map(|v| table::sub_byte(Cipher::Present80, v)),
    )
}

// The bit that moves to a place.
fn source(place: u32) -> u32
    requires { place < 64 }
    ensures { result ≡ present_source place }
{
    if place == 63 { 63 } else { 4 * place % 63 }
}

// Every bit at its new place, from the top place down.
pub fn move_bits(s: u64) -> u64
    ensures { result ≡ present_move s }
{
    (0..64).fold(0, |out, t| (out << 1) + (s >> source(63 - t)) % 2)
}

// The low nibble of what the table has for a nibble.
#[tactic(auto, using(crate::proofs::Lookups::present_s_below))]
fn sub_nibble(v: u8) -> u8
    requires { v < 16 }
    ensures value { result ≡ present_s v }
    ensures nibble { result < 16 }
{
    table::sub_byte(Cipher::Present80, v) % 16
}

// The key register: 80 bits, of which the 64 on top are the round key.
#[derive(Clone, Copy)]
pub struct KeyRegister {
    pub bits: u128,
    ghost within: { bits < 2 ^ 80 },
}

impl KeyRegister {
    // The register of a key, whose low 16 bits are ignored.
    pub fn new(key: [u32; 3]) -> KeyRegister
        ensures { result.bits ≡ present_register key }
    {
        let [top, middle, low] = key;
        KeyRegister {
            bits: (u128::from(top) << 48) + (u128::from(middle) << 16) + (u128::from(low) >> 16),
        }
    }

    pub fn round_key(self) -> u64
        ensures { result ≡ self.bits / 2 ^ 16 }
    {
        (self.bits >> 16) as u64
    }

    // The register rotated left by 61: the low 19 bits come to the top.
    fn rotated(self) -> KeyRegister
        ensures { result.bits ≡ rotated_register self.bits }
    {
        KeyRegister {
            bits: ((self.bits % (1 << 19)) << 61) + (self.bits >> 19),
        }
    }

    // The register with S at its top nibble.
    fn with_top_nibble_by_s(self) -> KeyRegister
        ensures { result.bits ≡ top_nibble_by_s self.bits }
    {
        let top = sub_nibble((self.bits >> 76) as u8);
        KeyRegister {
            bits: (u128::from(top) << 76) + self.bits % (1 << 76),
        }
    }

    // The register after its update of a number, from 1.
    #[tactic(auto, unfolding(crate::specs::Present::present_turned))]
    pub fn update(self, number: usize) -> KeyRegister
        ensures { result.bits ≡ present_turned number self.bits }
    {
        KeyRegister {
            bits: self.rotated().with_top_nibble_by_s().bits ^ ((number as u128) << 15),
        }
    }
}
