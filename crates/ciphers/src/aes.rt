// The steps of AES on a state of four columns of four rows, which go in and come out by value.
ghost use Rattle.std.specs.Prelude.{◌≡◌, ◌+◌, ◌%◌, ◌<◌, bit_xor, slice_index};
ghost use Rattle.ciphers.specs.Bytes.{listed, word_bytes};
ghost use Rattle.ciphers.specs.Field.{aes_s, field_product};
ghost use Rattle.ciphers.specs.Aes.{cell, words_state, state_words, aes_sub_bytes, aes_shift_rows, aes_mix_column, aes_mix_columns, aes_add_key};
ghost use Rattle.ciphers.specs.Aes.{aes_sub_word, rcon, aes_turned};
ghost use Rattle.ciphers.specs.Kinds.{rules_of};

use super::cipher::Cipher;
use super::table;
use std::array;

const RCON: [u32; 10] = [0x01, 0x02, 0x04, 0x08, 0x10, 0x20, 0x40, 0x80, 0x1b, 0x36];

// Four columns of four rows.
pub type State = [[u8; 4]; 4];

// The state of a block of words: word c is column c. Functions and no From, since both types are the language's.
pub fn state_of(block: [u32; 4]) -> State
    ensures { result ≡ words_state block }
{
    block.map(u32::to_be_bytes)
}

// The block of words of a state.
pub fn block_of(s: State) -> [u32; 4]
    ensures { result ≡ state_words s }
{
    s.map(u32::from_be_bytes)
}

fn sub_column(col: [u8; 4]) -> [u8; 4]
    ensures { result ≡ listed 4 (λ i. aes_s (slice_index col i)) }
{
    col.map(|v| table::sub_byte(Cipher::Aes128, v))
}

pub fn sub_bytes(s: State) -> State
    ensures { result ≡ aes_sub_bytes s }
{
    s.map(sub_column)
}

// Row r moves r columns to the left. Written out, the places show it; a closure's contract would be longer.
pub fn shift_rows(s: State) -> State
    ensures { result ≡ aes_shift_rows s }
{
    let [a, b, c, d] = s;
    [
        [a[0], b[1], c[2], d[3]],
        [b[0], c[1], d[2], a[3]],
        [c[0], d[1], a[2], b[3]],
        [d[0], a[1], b[2], c[3]],
    ]
}

// Twice a byte, in the field.
fn double(b: u8) -> u8
    ensures { result ≡ field_product 2 b }
{
    (b << 1) ^ ((b >> 7) * 0x1b)
}

// A byte of a mixed column, from the byte that was there and the three below it.
fn mix(a: u8, b: u8, c: u8, d: u8) -> u8
    ensures { result ≡ bit_xor (field_product 2 a) (bit_xor (field_product 3 b) (bit_xor c d)) }
{
    double(a) ^ ((b ^ double(b)) ^ (c ^ d))
}

// Written out, since each byte then stands with the three below it, and with no index modulo 4.
#[tactic(auto, unfolding(crate::specs::Aes::aes_mix_column))]
fn mix_column(col: [u8; 4]) -> [u8; 4]
    ensures { result ≡ aes_mix_column col }
{
    let [a, b, c, d] = col;
    [
        mix(a, b, c, d),
        mix(b, c, d, a),
        mix(c, d, a, b),
        mix(d, a, b, c),
    ]
}

pub fn mix_columns(s: State) -> State
    ensures { result ≡ aes_mix_columns s }
{
    s.map(mix_column)
}

// A word added to a column.
fn add_word(col: [u8; 4], w: u32) -> [u8; 4]
    ensures { result ≡ listed 4 (λ i. bit_xor (slice_index col i) (slice_index (word_bytes w) i)) }
{
    let key = w.to_be_bytes();
    array::from_fn(|i| col[i] ^ key[i])
}

// Each column takes its word of four. Written out: with `array::from_fn` the proof stays open, unless the closure has a
// contract that is longer than this.
#[tactic(auto, unfolding(crate::specs::Aes::aes_add_key))]
pub fn add_round_key(s: State, key: [u32; 4]) -> State
    ensures { result ≡ aes_add_key key s }
{
    [
        add_word(s[0], key[0]),
        add_word(s[1], key[1]),
        add_word(s[2], key[2]),
        add_word(s[3], key[3]),
    ]
}

// S at each byte of a word.
pub fn sub_word(w: u32) -> u32
    ensures { result ≡ aes_sub_word w }
{
    u32::from_be_bytes(sub_column(w.to_be_bytes()))
}

// The round constant of a number, from 1 to 10.
fn round_constant(j: usize) -> u32
    ensures { result ≡ rcon j }
{
    RCON.get(j.saturating_sub(1)).copied().unwrap_or(0)
}

// What word i of a schedule takes besides word i - k, where k is the cipher's key words and `before` is word i - 1.
#[tactic(auto, unfolding(crate::specs::Aes::aes_turned))]
pub fn turn(cipher: Cipher, i: usize, before: u32) -> u32
    ensures { result ≡ aes_turned (rules_of cipher).key_words i before }
{
    let k = cipher.key_words();
    match i % k {
        0 => sub_word(before.rotate_left(8)) ^ (round_constant(i / k) << 24),
        4 if k == 8 => sub_word(before),
        _ => before,
    }
}
