// The counter blocks of counter mode.
ghost use Rattle.std.specs.Prelude.{◌≡◌};
ghost use Rattle.ciphers.specs.Counter.{counter_block};

// The counter of block j: j is added to its last word, modulo 2^32.
pub fn counter_of<const N: usize>(mut counter: [u32; N], j: u32) -> [u32; N]
    ensures { result ≡ counter_block N counter.entry j }
{
    if let Some(last) = counter.last_mut() {
        *last = last.wrapping_add(j);
    }
    counter
}
