// The numbers of a policy's table: as many as a geometry can have lines.
ghost use Rattle.std.specs.Prelude.{◌≡◌, replicate};

pub(crate) type Table = [u32; 64];

// No line is kept.
pub(crate) fn empty_table() -> Table
    ensures { result ≡ replicate 64 0 }
{
    [0; 64]
}
