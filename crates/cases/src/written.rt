// Places, arrows and labels as they are written: `E,v1,0`, `0,1,North`.
// Kept beside the reader of `cabinet`: that asks for each form's own fields, and this takes what comes.
use anyhow::Context;
use expression::raw::RawPlace;
use expression::term::Term;
use kinds::text::TextLabel;
use std::alloc::Global;

// The label of a text.
pub fn read_label(text: &str) -> anyhow::Result<TextLabel> {
    TextLabel::make(text.as_bytes()).context("a text is no label")
}

// The labels that spaces part.
pub fn read_labels(heap: Global, text: &str) -> anyhow::Result<Vec<TextLabel>> {
    text.split_whitespace().map(read_label).try_collect(heap)
}

// An arrow, `0,1,North`: its tail, its head and its label.
pub fn read_arrow(text: &str) -> anyhow::Result<((usize, usize), TextLabel)> {
    let (tail, rest) = text.split_once(",").context("an arrow lacks its head")?;
    let (head, label) = rest.split_once(",").context("an arrow lacks its label")?;
    Ok(((tail.parse()?, head.parse()?), read_label(label)?))
}

// The fields of a place as they come: terms are told by their letter, the others are numbers.
#[derive(Clone, Copy)]
struct Fields {
    terms: [Option<Term>; 2],
    numbers: [Option<usize>; 2],
}

// Puts a field in the first slot that is empty.
fn fill<T: Copy>(slots: &mut [Option<T>; 2], field: T) {
    if slots[0].is_none() {
        slots[0] = Some(field);
    } else {
        slots[1] = Some(field);
    }
}

impl Fields {
    fn take(&mut self, text: &str) -> anyhow::Result<()> {
        if let Some(number) = text.strip_prefix("c") {
            fill(&mut self.terms, Term::Constant(number.parse()?));
        } else if let Some(number) = text.strip_prefix("v") {
            fill(&mut self.terms, Term::Variable(number.parse()?));
        } else {
            fill(&mut self.numbers, text.parse()?);
        }
        Ok(())
    }

    // A mark's number comes before its part; of the other forms, some have a number and no part.
    fn place(&self, letter: char) -> RawPlace {
        let [term, other_term] = self.terms.map(|term| term.unwrap_or(Term::Constant(0)));
        let [number, other_part] = self.numbers.map(|number| number.unwrap_or(0));
        RawPlace {
            letter,
            term,
            other_term,
            number,
            part: if letter == 'M' { other_part } else { number },
            other_part,
        }
    }
}

// A place, `E,v1,0`.
fn read_place(text: &str) -> anyhow::Result<RawPlace> {
    let mut words = text.split(',');
    let letter = words
        .next()
        .and_then(|word| word.chars().next())
        .context("a place lacks its letter")?;
    let mut fields = Fields {
        terms: [None; 2],
        numbers: [None; 2],
    };
    for word in words {
        fields.take(word)?;
    }
    Ok(fields.place(letter))
}

// The places that spaces part.
pub fn read_places(heap: Global, text: &str) -> anyhow::Result<Vec<RawPlace>> {
    text.split_whitespace().map(read_place).try_collect(heap)
}
