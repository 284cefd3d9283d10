// The sections of a run.
ghost use Rattle.std.specs.Prelude.{◌≡◌, ◌≤◌};
ghost use Rattle.trace.specs.Sections.{section_number};

// A section. Its discriminant is the number that trace words and totals tell.
#[derive(Clone, Copy, Debug, PartialEq, Eq)]
pub enum Section {
    Placing = 1,
    Expansion = 2,
    Rounds = 3,
    Erasing = 4,
}

impl Section {
    pub fn number(self) -> u32
        ensures value { result ≡ section_number (Some self) }
        ensures bound { result ≤ 4 }
    {
        self as u32
    }
}
