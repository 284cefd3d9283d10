// What a replacement policy decides: which lines a layer keeps.
ghost use Rattle.std.specs.Prelude.{◌≡◌, length};
ghost use Rattle.caches.specs.Policies.{Tags, Steady, touching, entering, cleared};

use crate::geometry::Held;

pub trait Policy {
    // The table that it tells, and its rules.
    ghost tags: { Self → Tags };

    // Whether the line of an address is kept.
    fn keeps(&self, at: Held) -> bool
        ensures { result ≡ (tags self.now).rules.kept at.address (tags self.now).told };

    // Notes a read of an address whose line is kept.
    fn touch(&mut self, at: Held)
        ensures { tags self.new ≡ touching (tags self.old) at.address };

    // Notes a read of an address whose line is not kept: from now on it is.
    fn enter(&mut self, at: Held)
        ensures { tags self.new ≡ entering (tags self.old) at.address };

    // Keeps no line any more.
    fn clear(&mut self)
        ensures { tags self.new ≡ cleared (tags self.old) };

    ghost whole: { (p : Self) → length (tags p).told ≡ (tags p).rules.count };

    ghost steady: { (p : Self) → Steady (tags p).rules };
}
