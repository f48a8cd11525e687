// Labels found in the tables.
ghost use Rattle.std.specs.Prelude.{◌≡◌};
ghost use Rattle.editing.specs.Drafts.{label_in};
ghost use Rattle.bench.specs.Reading.{lists_of, labels_of};

use crate::bench::Bench;
use crate::entries::entry_below;
use crate::tables::Tables;
use course::course::Origin;
use kinds::label::Label;

impl Bench {
    // The present label of an origin.
    pub(crate) fn label_of<L: Label>(&self, origin: Origin, tables: &Tables<L>) -> Option<L>
        ensures { result ≡ label_in (labels_of self.now (lists_of tables.now)) origin }
    {
        match origin {
            Origin::Blank => None,
            Origin::Source(arrow) => { entry_below(tables.labels, self.count_arrows(), arrow) }
            Origin::Constant(constant) => {
                entry_below(tables.constants, self.constants, constant)
            }
        }
    }
}
