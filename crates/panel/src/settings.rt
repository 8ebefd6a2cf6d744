// Setting up a sheet.
ghost use Rattle.std.specs.Prelude.{◌≡◌, MatchResult};
ghost use Rattle.panel.specs.Sizes.{panel_size};
ghost use Rattle.panel.specs.Sheets.{Blank, size_answer, class_answer, Resized, Reclassed};

use crate::refusal::SheetRefusal;
use crate::sheet::Sheet;
use geometry::{Class, LAYERS, Measures, SIDE, Size};

// Whether a panel may have this size.
fn may_have_size(size: &Size) -> bool
    ensures { result ≡ panel_size size.now }
{
    (1..=SIDE).contains(&size.width)
        && (1..=SIDE).contains(&size.height)
        && (1..=LAYERS).contains(&size.layers)
}

impl Sheet {
    /// A sheet of one unit by one, with one layer and no class set.
    pub fn new() -> Sheet
        ensures { Blank result }
    {
        Sheet {
            size: Size {
                width: 1,
                height: 1,
                layers: 1,
            },
            classes: [None; 16],
        }
    }

    /// The height of the panel.
    pub fn height(&self) -> u32
        ensures { result ≡ self.now.size.height }
    {
        self.size.height
    }

    /// Sets the size, or refuses and leaves the sheet as it is.
    pub fn set_size(&mut self, size: Size) -> Result<(), SheetRefusal>
        ensures answer { result ≡ size_answer size }
        ensures sheet { MatchResult result (λ _. Resized self.old size self.new) (λ _. self.new ≡ self.old) }
    {
        if !may_have_size(&size) {
            return Err(SheetRefusal::Size);
        }
        self.size = size;
        Ok(())
    }

    /// Sets the class of a number, or refuses and leaves the sheet as it is.
    pub fn set_class(&mut self, number: u32, measures: Measures) -> Result<(), SheetRefusal>
        ensures answer { result ≡ class_answer number measures }
        ensures sheet { MatchResult result (λ _. Reclassed self.old number measures self.new) (λ _. self.new ≡ self.old) }
    {
        if !(1..=16).contains(&number) {
            return Err(SheetRefusal::Class);
        }
        let class = Class::new(measures).ok_or(SheetRefusal::Class)?;
        self.classes[number as usize - 1] = Some(class);
        Ok(())
    }
}
