// What the forms Node, Edge and Union make once their parts are made.
ghost use Rattle.std.specs.Prelude.{◌≡◌, ◌<◌, vec_len};
ghost use Rattle.course.specs.Course.{onward, give, new_node, nodes_for};
ghost use Rattle.course.specs.Forward.{only as only_at, labelled, joint};
ghost use Rattle.course.specs.View.{course_of, Within, Steps, Makes};

use crate::course::{Full, Origin};
use crate::in_map::only;
use crate::rule::Rule;
use crate::workspace::Workspace;

impl Workspace {
    // The node of a Node, as an in-map.
    pub(crate) fn plain_node(&mut self, rule: Rule) -> Result<[usize; 8], Full>
        ensures { Makes (onward (new_node rule.place rule.frame 0 (course_of self.old)) (λ v. give (only_at 0 v))) self.old self.new result }
    {
        let node = self.add_plain(rule, 0)?;
        Ok(only(0, node))
    }

    // The node of an Edge, with its arrow.
    #[tactic(auto, unfolding(crate::specs::Forward::labelled))]
    fn label_node(&mut self, rule: Rule, origin: Origin, head: usize) -> Result<usize, Full>
        requires { head < vec_len self.old.nodes }
        ensures { Steps (labelled rule.place rule.frame origin head (course_of self.old)) self.old self.new result }
    {
        let tail = self.add_plain(rule, 0)?;
        self.add_arrow(rule, tail, head, origin)?;
        Ok(tail)
    }

    // The node of an Edge, with its arrow, as an in-map.
    pub(crate) fn edge_node(
        &mut self,
        rule: Rule,
        origin: Origin,
        head: usize,
    ) -> Result<[usize; 8], Full>
        requires { head < vec_len self.old.nodes }
        ensures { Makes (onward (labelled rule.place rule.frame origin head (course_of self.old)) (λ v. give (only_at 0 v))) self.old self.new result }
    {
        let node = self.label_node(rule, origin, head)?;
        Ok(only(0, node))
    }

    // The node of a Union for one marker, with its two blank arrows.
    #[tactic(auto, unfolding(crate::specs::Forward::joint))]
    fn join_one(
        &mut self,
        rule: Rule,
        marker: usize,
        left: [usize; 8],
        right: [usize; 8],
    ) -> Result<usize, Full>
        requires marker { marker < 8 }
        requires left { Within (vec_len self.old.nodes) left }
        requires right { Within (vec_len self.old.nodes) right }
        ensures { Steps (joint rule.place rule.frame left right marker (course_of self.old)) self.old self.new result }
    {
        let both = self.add_plain(rule, marker)?;
        self.add_arrow(rule, both, left[marker], Origin::Blank)?;
        self.add_arrow(rule, both, right[marker], Origin::Blank)?;
        Ok(both)
    }

    // The nodes of a Union, for the markers of a set.
    pub(crate) fn join(
        &mut self,
        rule: Rule,
        set: [bool; 8],
        left: [usize; 8],
        right: [usize; 8],
    ) -> Result<[usize; 8], Full>
        requires left { Within (vec_len self.old.nodes) left }
        requires right { Within (vec_len self.old.nodes) right }
        ensures { Makes (nodes_for (joint rule.place rule.frame left right) 0 set (course_of self.old)) self.old self.new result }
    {
        let mut into = [0; 8];
        for (marker, &on) in set.iter().enumerate() {
            if on {
                into[marker] = self.join_one(rule, marker, left, right)?;
            }
        }
        Ok(into)
    }
}
