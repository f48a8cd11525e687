// An admitted expression: a table of places that keeps every rule.
ghost use Rattle.std.specs.Prelude.{◌≡◌, ℕ, ◌-◌, ◌<◌, ◌≤◌, true, [], ◌∷◌, length};
ghost use Rattle.expression.specs.declared.form.Form.TheVariants.{Node as OneNode};
ghost use Rattle.expression.specs.Forms.{tree_at};
ghost use Rattle.expression.specs.Sets.{HasSets};
ghost use Rattle.expression.specs.Rules.{keeps};
ghost use Rattle.expression.specs.Admission.{part_once, HasLevels, range_kept};

use crate::sets::Sets;
use crate::table::Table;

// How many places, constants and markers there may be.
pub const PLACES: usize = 64;

pub const CONSTANTS: usize = 32;

pub const MARKERS: usize = 8;

// The last place of the table in use is the whole. Beside the table stand each place's level and
// sets, so that nobody has to find them again. The ghost fields are the rules: each place but the
// last is a part once, levels and fields are in range, the levels and sets are the tree's, and the
// tree keeps every rule.
#[derive(Drop)]
pub struct Expression {
    pub(crate) table: Table,
    // Kept beside the table, not in its places: each is found from a table that is whole already.
    pub(crate) levels: [usize; PLACES],
    pub(crate) sets: [Sets; PLACES],
    pub(crate) constants: usize,
    ghost some: { 0 < length table.forms.items },
    ghost few_constants: { constants ≤ 32 },
    ghost once: { (k : ℕ) → k < length table.forms.items → part_once table.forms.items k ≡ true },
    ghost levels_of: { HasLevels table.forms.items levels },
    ghost ranged: { (k : ℕ) → k < length table.forms.items → range_kept table.forms.items constants k ≡ true },
    ghost sets_of: { HasSets table.forms.items sets },
    ghost rules: { keeps constants (tree_at table.forms.items (length table.forms.items - 1)) ≡ true },
}

impl Expression {
    // The smallest expression: one place, a node without arrows, and no constant.
    pub fn new() -> Expression
        ensures table { result.table.forms.items ≡ OneNode ∷ [] }
        ensures constants { result.constants ≡ 0 }
    {
        let table = Table::one_node();
        let sets = table.sets();
        Expression {
            table,
            levels: [0; PLACES],
            sets,
            constants: 0,
        }
    }
}
