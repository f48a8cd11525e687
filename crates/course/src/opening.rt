// The course that a run starts from.
ghost use Rattle.std.specs.Prelude.{◌≡◌, ◌≤◌, [], take, vec_len};
ghost use Rattle.course.specs.Opening.{no_course as empty_course, opening};
ghost use Rattle.course.specs.Sources.{graph_of};
ghost use Rattle.course.specs.View.{course_of, stack, with_nodes, with_arrows};

use crate::course::{Arrow, Frame, Node, Origin, SOURCE_PLACE};
use crate::source::Source;
use crate::workspace::Workspace;

impl Workspace {
    // Empties the workspace.
    pub(crate) fn clear(&mut self)
        ensures course { course_of self.new ≡ empty_course }
        ensures outs { stack self.new ≡ [] }
    {
        self.nodes.clear();
        self.arrows.clear();
        self.frames.clear();
        self.comparisons.clear();
        self.outs.clear();
        self.steps.clear();
    }

    // Enters so many source nodes into an empty course.
    fn enter_nodes(&mut self, count: usize)
        requires { (course_of self.old ≡ empty_course) × (count ≤ 128) }
        ensures course { course_of self.new ≡ with_nodes count }
        ensures outs { stack self.new ≡ stack self.old }
    {
        for stands in 0..count {
            self.push_node(Node {
                place: SOURCE_PLACE,
                frame: 0,
                marker: 0,
                stands,
            });
        }
    }

    // Enters the arrows of a source whose nodes are entered.
    fn enter_arrows(&mut self, source: &Source)
        requires { course_of self.old ≡ with_nodes source.now.nodes }
        ensures course { course_of self.new ≡ with_arrows source.now.nodes source.now.arrows.items }
        ensures outs { stack self.new ≡ stack self.old }
    {
        for (k, &(tail, head)) in source.arrows.iter().enumerate() {
            self.push_arrow(Arrow {
                tail,
                head,
                origin: Origin::Source(k),
                place: SOURCE_PLACE,
                frame: 0,
            });
        }
    }

    // Starts the course of a source: its nodes, its arrows and frame 0.
    pub(crate) fn enter_source(&mut self, source: &Source)
        ensures course { course_of self.new ≡ opening (graph_of source.now) }
    {
        self.clear();
        self.enter_nodes(source.nodes);
        self.enter_arrows(source);
        self.frames.push_reserved(Frame {
            parent: 0,
            place: SOURCE_PLACE,
            arrow: 0,
        });
    }
}
