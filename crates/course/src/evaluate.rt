// Forward evaluation: a place of an expression in an environment and a frame.
ghost use Rattle.std.specs.Prelude.{◌≡◌, ◌+◌, ◌<◌, ◌≤◌, true, vec_len};
ghost use Rattle.expression.specs.Admitted.{tree_of};
ghost use Rattle.expression.specs.Forms.{t_append, t_recursion};
ghost use Rattle.course.specs.View.{Bound};

use crate::classes::Classes;
use crate::course::{Full, Outcome};
use crate::environment::Environment;
use crate::in_map::{merge, only};
use crate::recursion::Recursion;
use crate::rule::Rule;
use crate::workspace::Workspace;
use expression::expression::Expression;
use expression::form::Form;

// What evaluation at a level goes by: the expression, the class numbers of labels and what the
// variables stand for.
#[derive(Clone, Copy)]
pub struct Evaluator<'a> {
    pub(crate) expression: &'a Expression,
    pub(crate) classes: &'a Classes,
    pub(crate) env: Environment,
    ghost level: { env.level ≤ 4 },
}

impl<'a> Evaluator<'a> {
    ghost use Rattle.course.specs.Evaluators.{Fitting, Answers};

    // The in-map of a place in a frame, for each marker its node; the outs are put on the stack.
    #[cycle(evaluation)]
    pub(crate) fn evaluate(
        &self,
        place: usize,
        frame: usize,
        work: &mut Workspace,
    ) -> Result<[usize; 8], Full>
        requires fitting { Fitting self.now self.now.env.level place }
        requires bound { Bound self.now.env (vec_len work.old.nodes) }
        ensures { Answers self.now (tree_of self.now.expression.now place) frame work.old work.new result }
    {
        let rule = Rule { place, frame };
        match self.expression.form(place) {
            Form::Zero => Ok([0; 8]),
            Form::Node => work.plain_node(rule),
            Form::Edge(term, inner) => {
                let part = self.evaluate(inner, frame, work)?;
                work.edge_node(rule, self.env.origin(term), part[0])
            }
            Form::Union(first, second) => {
                let left = self.evaluate(first, frame, work)?;
                let right = self.evaluate(second, frame, work)?;
                work.join(rule, self.expression.in_set(first), left, right)
            }
            Form::Mark(marker, inner) => {
                let part = self.evaluate(inner, frame, work)?;
                Ok(only(marker, part[0]))
            }
            Form::Out(marker) => work.open_node(rule, marker),
            Form::Disjoint(first, second) => {
                let left = self.evaluate(first, frame, work)?;
                let right = self.evaluate(second, frame, work)?;
                Ok(merge(self.expression.in_set(first), left, right))
            }
            Form::Append(first, second) => self.append(rule, first, second, work),
            Form::Graph(level) => Ok(only(0, self.env.node(level))),
            Form::If(one, another, same, other) => {
                let left = self.env.origin(one);
                let right = self.env.origin(another);
                match work.compare(rule, self.classes, left, right)? {
                    Outcome::Same => self.evaluate(same, frame, work),
                    Outcome::Other => self.evaluate(other, frame, work),
                }
            }
            Form::Recursion(body, argument) => self.recur(rule, body, argument, work),
        }
    }

    // An Append: the outs of the first part are tied to the nodes of the second.
    #[cycle(evaluation)]
    fn append(
        &self,
        rule: Rule,
        first: usize,
        second: usize,
        work: &mut Workspace,
    ) -> Result<[usize; 8], Full>
        requires low { (first < rule.place) × (second < rule.place) }
        requires first_fits { Fitting self.now self.now.env.level first }
        requires second_fits { Fitting self.now self.now.env.level second }
        requires bound { Bound self.now.env (vec_len work.old.nodes) }
        ensures { Answers self.now (t_append rule.place (tree_of self.now.expression.now first) (tree_of self.now.expression.now second)) rule.frame work.old work.new result }
    {
        let base = work.outs.len();
        let above = self.evaluate(first, rule.frame, work)?;
        let mid = work.outs.len();
        let below = self.evaluate(second, rule.frame, work)?;
        work.tie_outs(rule, base, mid, self.expression.in_set(second), below)?;
        work.cut_outs(base, mid);
        Ok(above)
    }

    // A Recursion: the argument, the hubs of what its node reaches, and then arrow by arrow the
    // body.
    #[cycle(evaluation)]
    fn recur(
        &self,
        rule: Rule,
        body: usize,
        argument: usize,
        work: &mut Workspace,
    ) -> Result<[usize; 8], Full>
        requires low { (body < rule.place) × (argument < rule.place) }
        requires level { self.now.env.level < 4 }
        requires fitting { Fitting self.now (self.now.env.level + 1) body }
        requires argued { Fitting self.now self.now.env.level argument }
        requires bound { Bound self.now.env (vec_len work.old.nodes) }
        ensures { Answers self.now (t_recursion rule.place (tree_of self.now.expression.now body) (tree_of self.now.expression.now argument)) rule.frame work.old work.new result }
    {
        let before = work.extent();
        let part = self.evaluate(argument, rule.frame, work)?;
        work.drop_outs(before.outs);
        let after = work.extent();
        let hubs = work.find_hubs(rule, part[0], after.nodes, self.expression.in_set(body));
        work.make_hubs(&hubs)?;
        let recursion = Recursion {
            around: &*self,
            body,
            hubs: &hubs,
        };
        recursion.take_arrows(after.arrows, work)?;
        Ok(hubs.in_map(part[0]))
    }
}
