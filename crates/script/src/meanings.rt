// What single words say: numbers, memory words and names.

ghost use Rattle.std.specs.Prelude.{◌≡◌, ℕ, List, Option};
ghost use Rattle.script.specs.Grammar.{kind_of, policy_of};
ghost use Rattle.std.specs.Str.{bytes_eq};
ghost use Rattle.text.specs.Numbers.{decimal_of, hexadecimal_of};

use crate::command::{PolicyName, StoreKind};
use text::numbers::{decimal, hexadecimal};

/// Whether a word is a given name: `==`, told in the grammar's words, so that no use of it needs a proof.
pub fn is(word: &[u8], name: &[u8]) -> bool
    ensures { result ≡ bytes_eq word.now name.now }
{
    word == name
}

/// What one word of a command can say. Not `FromStr`, which reads a text: a word is bytes that may be none.
pub trait FromWord {
    ghost meaning: { List ℕ → Option Self };

    /// What the word says, if it says such a thing.
    fn from_word(word: &[u8]) -> Option<Self>
    where
        Self: Sized,
        ensures { result ≡ meaning word.now };
}

impl FromWord for usize {
    ghost meaning = { decimal_of };

    fn from_word(word: &[u8]) -> Option<usize> {
        decimal(word)
    }
}

impl FromWord for u32 {
    ghost meaning = { hexadecimal_of };

    fn from_word(word: &[u8]) -> Option<u32> {
        hexadecimal(word)
    }
}

impl FromWord for StoreKind {
    ghost meaning = { kind_of };

    fn from_word(word: &[u8]) -> Option<StoreKind> {
        is(word, b"flat").then_some(StoreKind::Flat)
    }
}

impl FromWord for PolicyName {
    ghost meaning = { policy_of };

    fn from_word(word: &[u8]) -> Option<PolicyName> {
        // Not a match on byte strings: its first arm's proof stayed open.
        if is(word, b"direct") {
            Some(PolicyName::Direct)
        } else if is(word, b"lru") {
            Some(PolicyName::Lru)
        } else {
            None
        }
    }
}
