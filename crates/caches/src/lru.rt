// The LRU policy: each set keeps up to as many lines as there are ways, newest first, and a read brings its line to the front.
ghost use Rattle.std.specs.Prelude.{◌≡◌, ℕ, ◌*◌, List, length, replicate};
ghost use Rattle.caches.specs.Lru.{has, newest, lru_tags, ranked};
ghost use Rattle.caches.specs.Laws.{lru_steady};
ghost use Rattle.std.proofs.Common.{rules};

use crate::geometry::{Geometry, Held};
use crate::layer::Layer;
use crate::policy::Policy;
use crate::table::empty_table;
use std::mem;

pub type LruLayer<M> = Layer<Lru, M>;

// Row by row, a number for each way: a line that is kept, plus 1, or 0. The rest of the array is not used.
// An array and no Vec, since making a layer refuses nothing, not even for want of memory.
#[derive(Clone, Copy)]
pub struct Lru {
    geometry: Geometry,
    table: [u32; 64],
    ghost full: { length table ≡ 64 },
}

impl Lru {
    // A policy that keeps no line.
    pub fn new(geometry: Geometry) -> Lru
        ensures { ranked result.geometry result.table
            ≡ lru_tags geometry.line geometry.sets geometry.ways (replicate (geometry.sets * geometry.ways) 0) }
    {
        Lru {
            geometry,
            table: empty_table(),
        }
    }
}

// Whether a row has a mark.
fn holds(row: &[u32], mark: u32) -> bool
    ensures { result ≡ has mark row.now }
{
    row.contains(&mark)
}

// Puts a mark in front, and moves the others on, up to where it stood or to the row's end.
fn promote(row: &mut [u32], mark: u32)
    ensures { row.new ≡ newest mark row.old }
{
    let mut carried = mark;
    for kept in row.iter_mut() {
        let old = mem::replace(kept, carried);
        if old == mark {
            return;
        }
        carried = old;
    }
}

impl Policy for Lru {
    ghost tags = { λ p. ranked p.geometry p.table };

    ghost whole = { Prim.search rules };

    ghost steady = { λ p. lru_steady p.geometry.line p.geometry.sets p.geometry.ways p.geometry.sets_rule.0 p.geometry.ways_rule.0 };

    fn keeps(&self, at: Held) -> bool {
        let row = self.geometry.row_of(at);
        holds(&self.table[row], self.geometry.mark_of(at))
    }

    fn touch(&mut self, at: Held) {
        let row = self.geometry.row_of(at);
        let mark = self.geometry.mark_of(at);
        promote(&mut self.table[row], mark);
    }

    fn enter(&mut self, at: Held) {
        self.touch(at);
    }

    fn clear(&mut self) {
        self.table = empty_table();
    }
}
