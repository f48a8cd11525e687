// The class numbers of a source's labels and an expression's constants.
ghost use Rattle.std.specs.Prelude.{◌≡◌, ◌≤◌, map, length, MatchOption};
ghost use Rattle.laws.specs.Labelling.{Tells};
ghost use Rattle.view.specs.Numbers.{Nowhere, Found, AllNumbered};

use course::classes::Classes;
use course::source::SOURCE_ARROWS;
use kinds::classes::lowest_same;
use kinds::label::Label;

// The labels that a run compares: those of the source arrows, and the constants.
#[derive(Drop)]
pub(crate) struct LabelTables<'a, L> {
    pub(crate) labels: &'a [L],
    pub(crate) constants: &'a [L],
    ghost few_labels: { length labels.now ≤ 256 },
    ghost few_constants: { length constants.now ≤ 32 },
}

impl<'a, L: Label> LabelTables<'a, L> {
    // The class number of a label: the lowest source arrow that has the same label, or else 256 and
    // the lowest constant that is the same; none for a label that stands in neither table.
    fn class_of(&self, label: &L) -> Option<u16>
        ensures { MatchOption result (Nowhere (map L.meaning self.now.labels.now) (map L.meaning self.now.constants.now) (L.meaning label.now))
            (Found (map L.meaning self.now.labels.now) (map L.meaning self.now.constants.now) (L.meaning label.now)) }
    {
        if let Some(arrow) = lowest_same(self.labels, label) {
            return Some(arrow as u16);
        }
        let constant = lowest_same(self.constants, label)?;
        Some((SOURCE_ARROWS + constant) as u16)
    }

    // Writes the class number of each of some labels.
    fn number_all(&self, of: &[L], classes: &mut [u16])
        requires { length of.now ≤ length classes.old }
        ensures { AllNumbered L.meaning self.now.labels.now self.now.constants.now of.now classes.new }
    {
        for (k, label) in of.iter().enumerate() {
            if let Some(class) = self.class_of(label) {
                classes[k] = class;
            }
        }
    }

    // A class number for each label and for each constant, equal exactly where the labels are the same.
    pub(crate) fn classes(&self) -> Classes
        ensures { Tells (length self.now.labels.now) (length self.now.constants.now) L.meaning self.now.labels.now self.now.constants.now result }
    {
        let mut arrows = [0u16; 256];
        let mut constants = [0u16; 32];
        self.number_all(self.labels, &mut arrows);
        self.number_all(self.constants, &mut constants);
        Classes { arrows, constants }
    }
}
