// What a recursion enters: its hubs, and blank arrows between hubs and in-maps.
ghost use Rattle.std.specs.Prelude.{◌≡◌, ◌<◌, vec_len};
ghost use Rattle.course.specs.Course.{each_at};
ghost use Rattle.course.specs.Forward.{hub_step, hubs_step, link_at};
ghost use Rattle.course.specs.Recursions.{members, hubs_at};
ghost use Rattle.course.specs.View.{course_of, Within, Goes};

use crate::course::{Full, Origin};
use crate::hub_table::Hubs;
use crate::rule::Rule;
use crate::workspace::Workspace;

impl Workspace {
    // The hubs of a node for the markers of a set.
    fn make_markers(&mut self, rule: Rule, set: [bool; 8], stands: usize) -> Result<(), Full>
        ensures { Goes (each_at (hub_step rule.place rule.frame stands) 0 set (course_of self.old)) self.old self.new result }
    {
        for (marker, &on) in set.iter().enumerate() {
            if on {
                self.add_node(rule, marker, stands)?;
            }
        }
        Ok(())
    }

    // The hubs of the nodes that the tables are made for.
    pub(crate) fn make_hubs(&mut self, hubs: &Hubs) -> Result<(), Full>
        ensures { Goes (each_at (hubs_step hubs.now.rule.place hubs.now.rule.frame hubs.now.set) 0 (members hubs.now) (course_of self.old)) self.old self.new result }
    {
        for (node, &marked) in hubs.marks[..hubs.first].iter().enumerate() {
            if marked {
                self.make_markers(hubs.rule, hubs.set, node)?;
            }
        }
        Ok(())
    }

    // Blank arrows from one in-map to another, for the markers of a set.
    pub(crate) fn link_all(
        &mut self,
        rule: Rule,
        set: [bool; 8],
        tails: [usize; 8],
        heads: [usize; 8],
    ) -> Result<(), Full>
        requires tails { Within (vec_len self.old.nodes) tails }
        requires heads { Within (vec_len self.old.nodes) heads }
        ensures { Goes (each_at (link_at rule.place rule.frame tails heads) 0 set (course_of self.old)) self.old self.new result }
    {
        for (marker, &on) in set.iter().enumerate() {
            if on {
                self.add_arrow(rule, tails[marker], heads[marker], Origin::Blank)?;
            }
        }
        Ok(())
    }

    // Blank arrows from the hubs of one node to those of another.
    // Kept beside link_all: two in-maps for each blank arrow double the time of a run over many.
    pub(crate) fn link_hubs(&mut self, hubs: &Hubs, tail: usize, head: usize) -> Result<(), Full>
        requires tail { tail < hubs.now.first }
        requires head { head < hubs.now.first }
        requires tails { Within (vec_len self.old.nodes) (hubs_at hubs.now tail) }
        requires heads { Within (vec_len self.old.nodes) (hubs_at hubs.now head) }
        ensures { Goes (each_at (link_at hubs.now.rule.place hubs.now.rule.frame (hubs_at hubs.now tail) (hubs_at hubs.now head)) 0 hubs.now.set (course_of self.old)) self.old self.new result }
    {
        for (marker, &on) in hubs.set.iter().enumerate() {
            if on {
                let from = hubs.hub(tail, marker);
                let to = hubs.hub(head, marker);
                self.add_arrow(hubs.rule, from, to, Origin::Blank)?;
            }
        }
        Ok(())
    }
}
