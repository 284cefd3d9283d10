// Worked figures: what the definitions give for examples that were worked out by hand, as one theorem over their list.

#![tactic(auto)]

ghost use Rattle.std.specs.Prelude.{◌≡◌, length};
ghost use Rattle.figures.specs.Figures.{Stands, figures};

// The theorem: each figure of the list stands.
fn each_stands()
    ensures { Stands figures }
{}

// How many figures there are. Each of them stands.
pub fn figures_stand() -> usize
    ensures all { Stands figures }
    ensures count { result ≡ length figures }
{
    each_stands();
    8
}
