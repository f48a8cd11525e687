// How the labels of two origins compare.
ghost use Rattle.std.specs.Prelude.{◌≡◌};
ghost use Rattle.course.specs.Forward.{compared};
ghost use Rattle.course.specs.Labels.{by_class};
ghost use Rattle.course.specs.View.{course_of, Tells};

use crate::classes::Classes;
use crate::course::{Full, Origin, Outcome};
use crate::rule::Rule;
use crate::workspace::Workspace;

impl Workspace {
    // How the labels of two origins compare, written down.
    pub(crate) fn compare(
        &mut self,
        rule: Rule,
        classes: &Classes,
        left: Origin,
        right: Origin,
    ) -> Result<Outcome, Full>
        ensures { Tells (by_class classes.now left right) (compared rule.place rule.frame left right (by_class classes.now left right) (course_of self.old)) self.old self.new result }
    {
        let outcome = classes.outcome(left, right);
        self.add_comparison(rule, left, right, outcome)?;
        Ok(outcome)
    }
}
