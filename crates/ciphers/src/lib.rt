// The ciphers AES and PRESENT on values: what each step means, and the code that does it.

#![tactic(auto)]

pub mod aes;
pub mod cipher;
pub mod counter;
pub mod present;
pub mod table;
