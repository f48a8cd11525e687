// The nodes left open, on the stack: made by the form Out, tied by Append and by recursions.
ghost use Rattle.std.specs.Prelude.{◌≡◌, ◌-◌, ◌<◌, ◌≤◌, [], ◌∷◌, take, drop, vec_len};
ghost use Rattle.course.specs.Course.{onward, done, new_node, each};
ghost use Rattle.course.specs.Forward.{only as only_at, tie, maps, out as out_of};
ghost use Rattle.course.specs.View.{course_of, stack, Within, Goes, Agrees, cut};

use crate::course::{Full, Origin};
use crate::environment::Out;
use crate::in_map::only;
use crate::rule::Rule;
use crate::workspace::Workspace;

impl Workspace {
    // The node of an Out, which is left open.
    pub(crate) fn open_node(&mut self, rule: Rule, marker: usize) -> Result<[usize; 8], Full>
        requires { marker < 8 }
        ensures { Agrees (onward (new_node rule.place rule.frame 0 (course_of self.old)) (λ v. done (maps (only_at 0 v) (out_of v marker ∷ [])))) self.old self.new result }
    {
        let node = self.add_plain(rule, 0)?;
        self.outs.push_reserved(Out { node, marker });
        Ok(only(0, node))
    }

    // A blank arrow from an out to the node for its marker, if that is in the set.
    fn tie_out(
        &mut self,
        rule: Rule,
        out: Out,
        set: [bool; 8],
        into: [usize; 8],
    ) -> Result<(), Full>
        requires marker { out.marker < 8 }
        requires node { out.node < vec_len self.old.nodes }
        requires into { Within (vec_len self.old.nodes) into }
        ensures { Goes (tie rule.place rule.frame set into out (course_of self.old)) self.old self.new result }
    {
        if set[out.marker] {
            self.add_arrow(rule, out.node, into[out.marker], Origin::Blank)?;
        }
        Ok(())
    }

    // Blank arrows from each of the outs from base up to mid to the nodes for their markers.
    pub(crate) fn tie_outs(
        &mut self,
        rule: Rule,
        base: usize,
        mid: usize,
        set: [bool; 8],
        into: [usize; 8],
    ) -> Result<(), Full>
        requires order { base ≤ mid }
        requires end { mid ≤ vec_len self.old.outs }
        requires into { Within (vec_len self.old.nodes) into }
        ensures { Goes (each (tie rule.place rule.frame set into) (take (mid - base) (drop base (stack self.old))) (course_of self.old)) self.old self.new result }
    {
        // Kept as a loop over numbers: an arrow is entered while the outs are gone through.
        for i in base..mid {
            let out = self.outs[i];
            self.tie_out(rule, out, set, into)?;
        }
        Ok(())
    }

    // Takes the outs from base up to mid out of the stack.
    pub(crate) fn cut_outs(&mut self, base: usize, mid: usize)
        requires order { base ≤ mid }
        requires end { mid ≤ vec_len self.old.outs }
        ensures outs { stack self.new ≡ cut (stack self.old) base mid }
        ensures rest { course_of self.new ≡ course_of self.old }
        ensures sizes { vec_len self.new.nodes ≡ vec_len self.old.nodes }
    {
        self.outs.drain(base..mid);
    }

    // Takes the outs from base on off the stack.
    pub(crate) fn drop_outs(&mut self, base: usize)
        ensures outs { stack self.new ≡ take base (stack self.old) }
        ensures rest { course_of self.new ≡ course_of self.old }
        ensures sizes { vec_len self.new.nodes ≡ vec_len self.old.nodes }
    {
        self.outs.truncate(base);
    }
}
