// The direct-mapped policy: each set keeps one line or none, and a read puts its line in.
ghost use Rattle.std.specs.Prelude.{◌≡◌, length, replicate};
ghost use Rattle.caches.specs.Direct.{direct_tags, mapped};
ghost use Rattle.caches.specs.Laws.{direct_steady};
ghost use Rattle.std.proofs.Common.{rules};

use crate::geometry::{Geometry, Held};
use crate::layer::Layer;
use crate::policy::Policy;
use crate::table::empty_table;

pub type DirectLayer<M> = Layer<DirectMapped, M>;

// A number for each set: the line that it keeps, plus 1, or 0. The rest of the array is not used.
// An array and no Vec, since making a layer refuses nothing, not even for want of memory.
// Its fields are the LRU policy's too, but the two tell the table by other rules: one struct in both would only add a name.
#[derive(Clone, Copy)]
pub struct DirectMapped {
    geometry: Geometry,
    table: [u32; 64],
    ghost full: { length table ≡ 64 },
}

impl DirectMapped {
    // A policy that keeps no line. It uses one way, whatever the geometry's are.
    pub fn new(geometry: Geometry) -> DirectMapped
        ensures { mapped result.geometry result.table ≡ direct_tags geometry.line geometry.sets (replicate geometry.sets 0) }
    {
        DirectMapped {
            geometry,
            table: empty_table(),
        }
    }
}

impl Policy for DirectMapped {
    ghost tags = { λ p. mapped p.geometry p.table };

    ghost whole = { Prim.search rules };

    ghost steady = { λ p. direct_steady p.geometry.line p.geometry.sets p.geometry.sets_rule.0 };

    fn keeps(&self, at: Held) -> bool {
        self.table[self.geometry.set_of(at)] == self.geometry.mark_of(at)
    }

    fn touch(&mut self, _at: Held) {}

    fn enter(&mut self, at: Held) {
        let set = self.geometry.set_of(at);
        self.table[set] = self.geometry.mark_of(at);
    }

    fn clear(&mut self) {
        self.table = empty_table();
    }
}
