// S as a table: 256 bytes in 64 words, the first byte on top. PRESENT's has S at both nibbles of a byte.
ghost use Rattle.std.specs.Prelude.{◌≡◌, ℕ, ◌%◌, ◌<◌, ◌≤◌, MatchOption, slice_index};
ghost use Rattle.ciphers.specs.Bytes.{word_bytes};
ghost use Rattle.ciphers.specs.Rules.{table_word};
ghost use Rattle.ciphers.specs.Kinds.{rules_of};

use super::cipher::Cipher;

const AES: [u32; 64] = [
    0x637c_777b,
    0xf26b_6fc5,
    0x3001_672b,
    0xfed7_ab76,
    0xca82_c97d,
    0xfa59_47f0,
    0xadd4_a2af,
    0x9ca4_72c0,
    0xb7fd_9326,
    0x363f_f7cc,
    0x34a5_e5f1,
    0x71d8_3115,
    0x04c7_23c3,
    0x1896_059a,
    0x0712_80e2,
    0xeb27_b275,
    0x0983_2c1a,
    0x1b6e_5aa0,
    0x523b_d6b3,
    0x29e3_2f84,
    0x53d1_00ed,
    0x20fc_b15b,
    0x6acb_be39,
    0x4a4c_58cf,
    0xd0ef_aafb,
    0x434d_3385,
    0x45f9_027f,
    0x503c_9fa8,
    0x51a3_408f,
    0x929d_38f5,
    0xbcb6_da21,
    0x10ff_f3d2,
    0xcd0c_13ec,
    0x5f97_4417,
    0xc4a7_7e3d,
    0x645d_1973,
    0x6081_4fdc,
    0x222a_9088,
    0x46ee_b814,
    0xde5e_0bdb,
    0xe032_3a0a,
    0x4906_245c,
    0xc2d3_ac62,
    0x9195_e479,
    0xe7c8_376d,
    0x8dd5_4ea9,
    0x6c56_f4ea,
    0x657a_ae08,
    0xba78_252e,
    0x1ca6_b4c6,
    0xe8dd_741f,
    0x4bbd_8b8a,
    0x703e_b566,
    0x4803_f60e,
    0x6135_57b9,
    0x86c1_1d9e,
    0xe1f8_9811,
    0x69d9_8e94,
    0x9b1e_87e9,
    0xce55_28df,
    0x8ca1_890d,
    0xbfe6_4268,
    0x4199_2d0f,
    0xb054_bb16,
];

const PRESENT: [u32; 64] = [
    0xccc5_c6cb,
    0xc9c0_cacd,
    0xc3ce_cfc8,
    0xc4c7_c1c2,
    0x5c55_565b,
    0x5950_5a5d,
    0x535e_5f58,
    0x5457_5152,
    0x6c65_666b,
    0x6960_6a6d,
    0x636e_6f68,
    0x6467_6162,
    0xbcb5_b6bb,
    0xb9b0_babd,
    0xb3be_bfb8,
    0xb4b7_b1b2,
    0x9c95_969b,
    0x9990_9a9d,
    0x939e_9f98,
    0x9497_9192,
    0x0c05_060b,
    0x0900_0a0d,
    0x030e_0f08,
    0x0407_0102,
    0xaca5_a6ab,
    0xa9a0_aaad,
    0xa3ae_afa8,
    0xa4a7_a1a2,
    0xdcd5_d6db,
    0xd9d0_dadd,
    0xd3de_dfd8,
    0xd4d7_d1d2,
    0x3c35_363b,
    0x3930_3a3d,
    0x333e_3f38,
    0x3437_3132,
    0xece5_e6eb,
    0xe9e0_eaed,
    0xe3ee_efe8,
    0xe4e7_e1e2,
    0xfcf5_f6fb,
    0xf9f0_fafd,
    0xf3fe_fff8,
    0xf4f7_f1f2,
    0x8c85_868b,
    0x8980_8a8d,
    0x838e_8f88,
    0x8487_8182,
    0x4c45_464b,
    0x4940_4a4d,
    0x434e_4f48,
    0x4447_4142,
    0x7c75_767b,
    0x7970_7a7d,
    0x737e_7f78,
    0x7477_7172,
    0x1c15_161b,
    0x1910_1a1d,
    0x131e_1f18,
    0x1417_1112,
    0x2c25_262b,
    0x2920_2a2d,
    0x232e_2f28,
    0x2427_2122,
];

// The table of a cipher.
fn table_of(cipher: Cipher) -> &'static [u32; 64]
    ensures { (i : ℕ) → i < 64 → slice_index result.now i ≡ table_word (rules_of cipher) i }
{
    match cipher {
        Cipher::Aes128 | Cipher::Aes192 | Cipher::Aes256 => &AES,
        Cipher::Present80 => &PRESENT,
    }
}

// The word of a cipher's table that has S at the bytes 4 i to 4 i + 3, where the table has such a word.
pub fn table_word(cipher: Cipher, i: usize) -> Option<u32>
    ensures { MatchOption result (64 ≤ i) (λ w. (i < 64) × (w ≡ table_word (rules_of cipher) i)) }
{
    table_of(cipher).get(i).copied()
}

// The byte of a word at a place from the top, where place 4 is place 0 again: a byte stands so for its place in its word of the table.
pub fn byte_at(w: u32, place: u8) -> u8
    ensures { result ≡ slice_index (word_bytes w) (place % 4) }
{
    w.to_be_bytes()[usize::from(place) % 4]
}

// What S makes of a byte, by the table.
#[tactic(auto, using(crate::proofs::Lookups::byte_of_word))]
pub fn sub_byte(cipher: Cipher, v: u8) -> u8
    ensures { result ≡ (rules_of cipher).byte_by_s v }
{
    byte_at(table_of(cipher)[usize::from(v) / 4], v)
}
