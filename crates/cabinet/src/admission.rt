// `cabinet expression`: whether an expression is admitted.
use crate::written::{read_number, read_place};
use expression::admit::admit;
use expression::expression::Expression;
use expression::raw::RawPlace;
use std::alloc::{AllocError, AllocFailed, Global};
use std::error::Error;
use std::fmt;
use std::io::Read;

// An expression as its lines tell it.
#[derive(Drop)]
struct Written {
    constants: usize,
    places: Vec<RawPlace>,
}

// Why the lines of a text are not read.
#[derive(Clone, Copy, Debug, PartialEq, Eq)]
enum Unread {
    // a line that cannot be read, counted from 1
    BadLine(usize),
    OutOfMemory,
}

impl fmt::Display for Unread {
    fn fmt<W: fmt::Write>(&self, f: &mut fmt::Formatter<W>) -> fmt::Result {
        match self {
            Unread::BadLine(line) => write!(f, "bad line {line}"),
            Unread::OutOfMemory => write!(f, "memory allocation failed"),
        }
    }
}

impl Error for Unread {}

impl From<AllocFailed<RawPlace>> for Unread {
    fn from(_error: AllocFailed<RawPlace>) -> Unread {
        Unread::OutOfMemory
    }
}

// Reads the number of constants on the first line, and a place on each line after it.
fn read_lines(heap: Global, text: &str) -> Result<Written, Unread> {
    let mut lines = text.strip_suffix('\n').unwrap_or(text).split('\n');
    let constants = lines
        .next()
        .and_then(|line| line.strip_prefix("const="))
        .and_then(read_number)
        .ok_or(Unread::BadLine(1))?;
    let mut places = Vec::new(heap);
    for (i, line) in lines.enumerate() {
        let place = line
            .strip_prefix("place=")
            .and_then(read_place)
            .ok_or(Unread::BadLine(i.saturating_add(2)))?;
        places.push(place)?;
    }
    Ok(Written { constants, places })
}

// The line that says whether the expression is admitted.
fn admission_line(heap: Global, written: &Written) -> Result<String, AllocError> {
    let mut expression = Expression::new();
    match admit(&written.places, written.constants, &mut expression) {
        Ok(()) => {
            let places = expression.count();
            format!(in heap; "admitted places={places}")
        }
        Err(refusal) => format!(in heap; "refused {refusal}"),
    }
}

// The answer to an expression in its written form.
fn answer(heap: Global, text: &str) -> anyhow::Result<String> {
    match read_lines(heap, text) {
        Ok(written) => Ok(admission_line(heap, &written)?),
        Err(unread @ Unread::BadLine(_)) => Ok(format!(in heap; "{unread}")?),
        Err(unread) => Err(unread.into()),
    }
}

// Reads an expression from standard input and prints whether it is admitted.
pub fn examine(rt: &HostRuntime) -> anyhow::Result<()> {
    let mut input = Vec::new(rt.alloc());
    rt.stdin().read_to_end(&mut input)?;
    let text = String::from_utf8_lossy(rt.alloc(), input.as_slice())?;
    rt.println(answer(rt.alloc(), text.as_str())?)?;
    Ok(())
}

#[cfg(test)]
mod tests {
    use super::*;
    use std::test::Fail;

    // Whether this is the answer to the expression.
    fn answers(rt: HostRuntime, text: &str, line: &str) -> anyhow::Result<bool> {
        Ok(answer(rt.alloc(), text)?.as_str() == line)
    }

    #[test]
    fn admits_and_refuses(rt: HostRuntime) -> Result<(), Fail> {
        let detours =
            "const=1\nplace=O,0\nplace=E,v1,0\nplace=N\nplace=I,v1,c0,2,1\nplace=G,0\nplace=R,3,4\n";
        assert!(rt; answers(rt, detours, "admitted places=6")?);
        assert!(rt; answers(rt, "const=33\nplace=N\n", "refused 11")?);
        assert!(rt; answers(rt, "const=0\nplace=N\nplace=M,0,1\n", "refused 12 place=1")?);
        assert!(rt; answers(rt, "const=0\nplace=N\nplace=N\n", "refused 13 place=0")?);
        assert!(rt; answers(rt, "const=0\nplace=N\nplace=E,c0,0\n", "refused 14 place=1")?);
        assert!(rt; answers(rt, "const=0\nplace=O,3", "refused 15 place=0")?);
        Ok(())
    }

    #[test]
    fn tells_bad_lines(rt: HostRuntime) -> Result<(), Fail> {
        assert!(rt; answers(rt, "", "bad line 1")?);
        assert!(rt; answers(rt, "const=01\nplace=N\n", "bad line 1")?);
        assert!(rt; answers(rt, "const=0\nplace=N,0\n", "bad line 2")?);
        assert!(rt; answers(rt, "const=0\nplace=N\nplace=Y\n", "bad line 3")?);
        assert!(rt; answers(rt, "const=0\nplace=G,+1\n", "bad line 2")?);
        assert!(rt; answers(rt, "const=0\nplace=G,0\n\n", "bad line 3")?);
        Ok(())
    }
}
