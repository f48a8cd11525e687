// Makes the view of a cabinet and prints it.
use crate::cabinet::Cabinet;
use anyhow::Context;
use course::source::Source;
use expression::admit::admit;
use expression::expression::Expression;
use kinds::filed::FiledLabel;
use view::fault::ViewFault;
use view::view::View;

// How much of a view is printed.
#[derive(Clone, Copy, Debug, PartialEq, Eq)]
pub enum Detail {
    // how many entries there are
    Sizes,
    // every entry and every row
    All,
}

// A view, and where it is printed.
#[derive(Drop)]
pub struct Screen<'a> {
    pub rt: &'a HostRuntime,
    pub view: View,
}

// The expression of a cabinet.
pub fn admit_places(cabinet: &Cabinet) -> anyhow::Result<Expression> {
    let mut expression = Expression::new();
    let constants = cabinet.constants.len();
    admit(cabinet.places.as_slice(), constants, &mut expression).context(
        "an expression is not admitted",
    )?;
    Ok(expression)
}

impl Screen<'_> {
    pub fn new(rt: &HostRuntime) -> anyhow::Result<Screen<'_>> {
        let view = View::new(rt.alloc())?;
        Ok(Screen { rt, view })
    }

    // Prints why a view is refused, and what it shows then.
    fn print_fault(&self, fault: ViewFault) -> anyhow::Result<()> {
        println!(self.rt; "refused {fault}")?;
        self.print_sizes()
    }

    // Shows a source under an expression, and prints the view or the refusal.
    pub fn show_labelled<L: FiledLabel>(
        &mut self,
        source: &Source,
        expression: &Expression,
        labels: &[L],
        constants: &[L],
        detail: Detail,
    ) -> anyhow::Result<()> {
        if let Err(fault) = self.view.show(source, expression, labels, constants) {
            return self.print_fault(fault);
        }
        self.print_sizes()?;
        match detail {
            Detail::Sizes => Ok(()),
            Detail::All => {
                self.print_course()?;
                self.print_rows(labels, constants)
            }
        }
    }

    // Shows a cabinet under a name.
    pub fn show_cabinet(
        &mut self,
        name: &str,
        cabinet: &Cabinet,
        detail: Detail,
    ) -> anyhow::Result<()> {
        println!(self.rt; "case {name}")?;
        let expression = admit_places(cabinet)?;
        match Source::new(cabinet.nodes, cabinet.arrows.as_slice()) {
            Ok(source) => self.show_labelled(
                &source,
                &expression,
                cabinet.labels.as_slice(),
                cabinet.constants.as_slice(),
                detail,
            ),
            Err(fault) => {
                println!(self.rt; "refused {fault}")?;
                Ok(())
            }
        }
    }
}
