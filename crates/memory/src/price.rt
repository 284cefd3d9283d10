// Price settings, which exist only checked.
ghost use Rattle.std.specs.Prelude.{◌≡◌, ℕ, ◌<◌, ◌≤◌, MatchResult};
ghost use Rattle.memory.specs.declared.fault.MemoryFault.TheVariants.{HighPrice};
ghost use Rattle.memory.specs.declared.fault.Setting.TheVariants.{First, Second};

use crate::fault::{MemoryFault, Setting};

// A price setting: at most 255 cycles.
#[derive(Clone, Copy, Debug, PartialEq, Eq)]
pub struct Price {
    value: u32,
    ghost small: { value ≤ 255 },
}

impl Price {
    pub const HIGHEST: usize = 255;

    // The one setting of its kind, as a layer's hit price.
    pub fn new(value: usize) -> Result<Price, MemoryFault>
        ensures { MatchResult result
            (λ p. (value ≤ 255) × (p.value ≡ value))
            (λ f. (255 < value) × (f ≡ HighPrice First)) }
    {
        if value > Self::HIGHEST {
            return Err(MemoryFault::HighPrice(Setting::First));
        }
        Ok(Price {
            value: value as u32,
        })
    }

    // The setting 0.
    pub fn free() -> Price
        ensures { result.value ≡ 0 }
    {
        Price { value: 0 }
    }

    pub fn cycles(self) -> u32
        ensures { result ≡ self.value }
    {
        self.value
    }
}

// Two price settings that belong together, as a store's for reads and for writes.
#[derive(Clone, Copy, Debug, PartialEq, Eq)]
pub struct Prices {
    pub first: Price,
    pub second: Price,
}

impl Prices {
    pub fn new(first: usize, second: usize) -> Result<Prices, MemoryFault>
        ensures { MatchResult result
            (λ p. (first ≤ 255) × (second ≤ 255) × (p.first.value ≡ first) × (p.second.value ≡ second))
            (λ f. (255 < first → f ≡ HighPrice First) × (first ≤ 255 → (255 < second) × (f ≡ HighPrice Second))) }
    {
        let first = Price::new(first)?;
        let second = Price::new(second).map_err(|_| MemoryFault::HighPrice(Setting::Second))?;
        Ok(Prices { first, second })
    }
}
