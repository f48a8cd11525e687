// Places in their written form: the form's letter and its fields, with commas between them.
use expression::raw::RawPlace;
use expression::term::Term;
use std::str::Split;

// A number from 0 to 65,535, in digits without leading zeros.
pub fn read_number(text: &str) -> Option<usize> {
    if text.starts_with('+') || (text.starts_with('0') && text.len() > 1) {
        return None;
    }
    text.parse::<u16>().ok().map(usize::from)
}

// A term: `c0` is constant 0, and `v1` label variable 1.
fn read_term(text: &str) -> Option<Term> {
    match text.split_at_checked(1)? {
        ("c", number) => read_number(number).map(Term::Constant),
        ("v", number) => read_number(number).map(Term::Variable),
        _ => None,
    }
}

// A place with this letter and nothing else.
fn bare(letter: char) -> RawPlace {
    RawPlace {
        letter,
        term: Term::Constant(0),
        other_term: Term::Constant(0),
        number: 0,
        part: 0,
        other_part: 0,
    }
}

// A form with two parts and no other field.
fn read_parts(letter: char, fields: &mut Split<'_, char>) -> Option<RawPlace> {
    let part = read_number(fields.next()?)?;
    let other_part = read_number(fields.next()?)?;
    Some(RawPlace {
        part,
        other_part,
        ..bare(letter)
    })
}

// The fields of a form, as its letter asks for them.
fn read_fields(letter: char, fields: &mut Split<'_, char>) -> Option<RawPlace> {
    match letter {
        'N' | 'Z' => Some(bare(letter)),
        'O' | 'G' => Some(RawPlace {
            number: read_number(fields.next()?)?,
            ..bare(letter)
        }),
        'M' => Some(RawPlace {
            number: read_number(fields.next()?)?,
            part: read_number(fields.next()?)?,
            ..bare(letter)
        }),
        'E' => Some(RawPlace {
            term: read_term(fields.next()?)?,
            part: read_number(fields.next()?)?,
            ..bare(letter)
        }),
        'U' | 'D' | 'A' | 'R' => read_parts(letter, fields),
        'I' => {
            let term = read_term(fields.next()?)?;
            let other_term = read_term(fields.next()?)?;
            let parts = read_parts(letter, fields)?;
            Some(RawPlace {
                term,
                other_term,
                ..parts
            })
        }
        _ => None,
    }
}

// A place in its written form, as `E,v1,0`; none where a field is wrong, missing or too many.
pub fn read_place(text: &str) -> Option<RawPlace> {
    let mut fields = text.split(',');
    let mut letters = fields.next()?.chars();
    let letter = letters.next()?;
    if letters.next().is_some() {
        return None;
    }
    let place = read_fields(letter, &mut fields)?;
    fields.next().is_none().then_some(place)
}
