// Which engine does a run.
ghost use Rattle.std.specs.Prelude.{◌≡◌, ◌≤◌};
ghost use Rattle.engines.specs.Erasing.{work_words};

use ciphers::cipher::Cipher;

#[derive(Clone, Copy, Debug, PartialEq, Eq)]
pub enum Engine {
    Tabled,
    Sliced,
}

// The work words that an engine uses.
pub(crate) fn work_words(cipher: Cipher, engine: Engine) -> usize
    ensures value { result ≡ work_words cipher engine }
    ensures bound { result ≤ 128 }
{
    match engine {
        Engine::Tabled => 0,
        Engine::Sliced => cipher.slices(),
    }
}
