// One more entry of a list, where it fits.
ghost use Rattle.std.specs.Prelude.{◌≡◌, ℕ, ◌+◌, ◌<◌, ◌≤◌, length, vec_len, nat_lt, if◌then◌else◌};
ghost use Rattle.course.specs.Course.{full_at, enter_node, enter_frame, new_node, new_arrow};
ghost use Rattle.course.specs.Forward.{compared};
ghost use Rattle.course.specs.View.{course_of, stack, Steps, Opens, Goes, with_node, with_arrow};

use crate::course::{
    ARROWS, Arrow, COMPARISONS, Comparison, FRAMES, Frame, Full, ListName, NODES, Node, Origin,
    Outcome,
};
use crate::rule::Rule;
use crate::workspace::Workspace;

// Refuses one more entry of a list that has as many as there may be.
fn room(rule: Rule, list: ListName, len: usize, limit: usize) -> Result<(), Full>
    ensures { result ≡ (if nat_lt len limit then Ok tt else Err (full_at rule.place rule.frame list)) }
{
    if len < limit {
        Ok(())
    } else {
        Err(Full {
            place: rule.place,
            frame: rule.frame,
            list,
        })
    }
}

impl Workspace {
    // Enters a node for which there is room.
    pub(crate) fn push_node(&mut self, node: Node)
        requires { vec_len self.old.nodes < 1024 }
        ensures items { course_of self.new ≡ with_node node (course_of self.old) }
        ensures same { stack self.new ≡ stack self.old }
        ensures len { vec_len self.new.nodes ≡ vec_len self.old.nodes + 1 }
    {
        self.nodes.push_reserved(node);
    }

    // Enters an arrow for which there is room.
    pub(crate) fn push_arrow(&mut self, arrow: Arrow)
        requires { (arrow.tail < vec_len self.old.nodes) × ((arrow.head < vec_len self.old.nodes) × (vec_len self.old.arrows < 2048)) }
        ensures items { course_of self.new ≡ with_arrow arrow (course_of self.old) }
        ensures same { stack self.new ≡ stack self.old }
        ensures nodes { vec_len self.new.nodes ≡ vec_len self.old.nodes }
        ensures len { vec_len self.new.arrows ≡ vec_len self.old.arrows + 1 }
    {
        self.steps.add(arrow.tail, arrow.head);
        self.arrows.push_reserved(arrow);
    }

    // A node that stands for another.
    #[tactic(auto, unfolding(crate::specs::Course::enter_node))]
    pub(crate) fn add_node(
        &mut self,
        rule: Rule,
        marker: usize,
        stands: usize,
    ) -> Result<usize, Full>
        ensures { Steps (enter_node (record { place = rule.place; frame = rule.frame; marker = marker; stands = stands }) (course_of self.old)) self.old self.new result }
    {
        let number = self.nodes.len();
        room(rule, ListName::Nodes, number, NODES)?;
        self.push_node(Node {
            place: rule.place,
            frame: rule.frame,
            marker,
            stands,
        });
        Ok(number)
    }

    // A node that stands for itself.
    pub(crate) fn add_plain(&mut self, rule: Rule, marker: usize) -> Result<usize, Full>
        ensures { Steps (new_node rule.place rule.frame marker (course_of self.old)) self.old self.new result }
    {
        let stands = self.nodes.len();
        self.add_node(rule, marker, stands)
    }

    // An arrow from one node to another.
    #[tactic(auto, unfolding(crate::specs::Course::enter_arrow))]
    pub(crate) fn add_arrow(
        &mut self,
        rule: Rule,
        tail: usize,
        head: usize,
        origin: Origin,
    ) -> Result<(), Full>
        requires tail { tail < vec_len self.old.nodes }
        requires head { head < vec_len self.old.nodes }
        ensures { Goes (new_arrow tail head origin rule.place rule.frame (course_of self.old)) self.old self.new result }
    {
        room(rule, ListName::Arrows, self.arrows.len(), ARROWS)?;
        self.push_arrow(Arrow {
            tail,
            head,
            origin,
            place: rule.place,
            frame: rule.frame,
        });
        Ok(())
    }

    // The frame in which the rule's place runs its body for an arrow.
    #[tactic(auto, unfolding(crate::specs::Course::enter_frame))]
    pub(crate) fn add_frame(&mut self, rule: Rule, arrow: usize) -> Result<usize, Full>
        ensures { Opens (enter_frame rule.place rule.frame (record { parent = rule.frame; place = rule.place; arrow = arrow }) (course_of self.old)) self.old self.new result }
    {
        let number = self.frames.len();
        room(rule, ListName::Frames, number, FRAMES)?;
        self.frames.push_reserved(Frame {
            parent: rule.frame,
            place: rule.place,
            arrow,
        });
        Ok(number)
    }

    // A comparison, with its outcome.
    #[tactic(auto, unfolding(crate::specs::Forward::compared, crate::specs::Course::enter_comparison))]
    pub(crate) fn add_comparison(
        &mut self,
        rule: Rule,
        left: Origin,
        right: Origin,
        outcome: Outcome,
    ) -> Result<(), Full>
        ensures { Goes (compared rule.place rule.frame left right outcome (course_of self.old)) self.old self.new result }
    {
        room(
            rule,
            ListName::Comparisons,
            self.comparisons.len(),
            COMPARISONS,
        )?;
        self.comparisons.push_reserved(Comparison {
            place: rule.place,
            frame: rule.frame,
            left,
            right,
            outcome,
        });
        Ok(())
    }
}
