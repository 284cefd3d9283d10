// The pen: which section is in force, and how many entries were written. A guard puts the section back on every way out.
ghost use Rattle.std.specs.Prelude.{◌≡◌, ◌≤◌};
ghost use Rattle.trace.specs.Sections.{section_number};

use crate::section::Section;

#[derive(Clone, Copy, Debug, PartialEq, Eq)]
pub struct Pen {
    // None is outside a run.
    pub section: Option<Section>,
    pub entries: u32,
}

impl Pen {
    // The number of the section in force, and 0 outside a run.
    pub fn section_number(self) -> u32
        ensures value { result ≡ section_number self.section }
        ensures bound { result ≤ 4 }
    {
        self.section.map_or(0, |section| section.number())
    }
}

// A section that is open. However it is left, the section before it is in force again.
pub struct InSection<'a> {
    pub pen: &'a mut Pen,
    before: Option<Section>,
}

impl Drop for InSection<'_> {
    fn drop(self)
        ensures back { self.exit.0.now.section ≡ self.entry.before }
        ensures kept { self.exit.0.now.entries ≡ self.entry.pen.now.entries }
    {
        self.pen.section = self.before;
        let InSection { pen: _, before: _ } = self;
    }
}

impl<'a> InSection<'a> {
    pub fn open(pen: &'a mut Pen, section: Option<Section>) -> InSection<'a>
        ensures inside { result.pen.now.section ≡ section }
        ensures entries { result.pen.now.entries ≡ pen.old.entries }
        ensures before { result.before ≡ pen.old.section }
        ensures lender { result.pen.ghost_name ≡ pen.entry.ghost_name }
    {
        let before = pen.section;
        pen.section = section;
        InSection { pen, before }
    }
}
