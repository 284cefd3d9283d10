// A placement: five regions that fit a size, no two of which share an address. It exists only checked.
ghost use Rattle.std.specs.Prelude.{◌≡◌, MatchBool, MatchOption, MatchResult};
ghost use Rattle.placement.specs.Regions.{AllFit, AllApart, SharesLater, ApartLater};
ghost use Rattle.placement.specs.Misplaced.{Misplaced, FirstPast, FirstShared};

use crate::fault::BenchFault;
use crate::regions::{Region, Regions};

#[derive(Clone, Copy, Debug, PartialEq, Eq)]
pub struct Placement {
    // The size that it was made for.
    pub size: usize,
    pub regions: Regions,
    ghost fits: { AllFit size regions },
    // `∥ ∥₁` says that which proof it is makes no difference.
    ghost apart: { ∥ AllApart regions ∥₁ },
}

// The lowest region that ends past the size.
fn first_past(size: usize, regions: Regions) -> Option<Region>
    ensures { MatchOption result (AllFit size regions) (FirstPast size regions) }
{
    Region::ALL
        .iter()
        .find(|&&region| !regions.span(region).fits(size))
        .copied()
}

// Whether a region shares an address with a later one.
fn shares_later(regions: Regions, region: Region) -> bool
    ensures { MatchBool result (SharesLater regions region) (ApartLater regions region) }
{
    let span = regions.span(region);
    Region::ALL.iter().any(|&other| region < other && span.shares(regions.span(other)))
}

// The lowest region that shares an address with a later one.
fn first_shared(regions: Regions) -> Option<Region>
    ensures { MatchOption result (AllApart regions) (FirstShared regions) }
{
    Region::ALL
        .iter()
        .find(|&&region| shares_later(regions, region))
        .copied()
}

impl Placement {
    // A placement for a size, unless a region ends past it or two share an address.
    pub fn new(size: usize, regions: Regions) -> Result<Placement, BenchFault>
        ensures { MatchResult result (λ p. (p.size ≡ size) × (p.regions ≡ regions)) (Misplaced size regions) }
    {
        if let Some(region) = first_past(size, regions) {
            return Err(BenchFault::RegionPastSize(region));
        }
        if let Some(region) = first_shared(regions) {
            return Err(BenchFault::RegionsShare(region));
        }
        Ok(Placement { size, regions })
    }
}
