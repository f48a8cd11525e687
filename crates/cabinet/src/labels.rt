// `cabinet labels`: which lines are labels, and which labels are the same.
use kinds::filed::{FiledLabel, TEXT_SIZE};
use listing::answer::{Classified, list_labels};
use listing::totals::count_answers;
use std::io::Read;
use std::str::from_utf8;

// Prints a label's line.
fn print_label<L: FiledLabel>(
    rt: &HostRuntime,
    line: usize,
    known: &Classified<L>,
) -> anyhow::Result<()> {
    let mut buffer = [0u8; TEXT_SIZE];
    let len = known.label.write_text(&mut buffer).unwrap();
    let text = from_utf8(&buffer[..len])?;
    println!(rt; "label {line} {text} class {}", known.class)?;
    Ok(())
}

// Reads label texts from standard input and prints what each line is, and how many there are.
pub fn sort_out<L: FiledLabel>(rt: &HostRuntime) -> anyhow::Result<()> {
    let mut input = Vec::new(rt.alloc());
    rt.stdin().read_to_end(&mut input)?;
    let answers = list_labels::<L>(rt.alloc(), &input)?;
    for (line, answer) in answers.iter().enumerate() {
        match answer {
            Ok(known) => print_label(rt, line, known)?,
            Err(refusal) => println!(rt; "refused {line} {refusal}")?,
        }
    }
    let totals = count_answers(&answers);
    println!(rt;
        "labels {} distinct {} refused {}",
        totals.labels, totals.distinct, totals.refused
    )?;
    Ok(())
}
