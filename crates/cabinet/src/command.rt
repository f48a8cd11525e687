// What the program is asked to do.
use std::str::FromStr;
use std::{env, io};

// The label kinds by name.
#[derive(Clone, Copy, Debug, PartialEq, Eq)]
pub enum KindName {
    Text,
    Setting,
}

#[derive(Clone, Copy, Debug, PartialEq, Eq)]
pub enum Command {
    // sort out a list of label texts
    Labels(KindName),
    // say whether an expression is admitted
    Expression,
}

// A word that names no label kind.
#[derive(Clone, Copy, Debug, PartialEq, Eq)]
pub struct NoKind;

impl FromStr for KindName {
    type Err = NoKind;

    fn from_str(word: &str) -> Result<KindName, NoKind> {
        match word {
            "text" => Ok(KindName::Text),
            "setting" => Ok(KindName::Setting),
            _ => Err(NoKind),
        }
    }
}

// The command that a verb and its kind ask for; a verb without a kind has the empty one.
// Kept as an empty word: a kind that is typed as one counts as none too.
fn asked(verb: &str, kind: &str) -> Option<Command> {
    match (verb, kind) {
        ("labels", kind) => kind.parse().ok().map(Command::Labels),
        ("expression", "") => Some(Command::Expression),
        _ => None,
    }
}

// The command of the program's arguments, or none where they are wrong.
pub fn from_arguments(rt: &HostRuntime) -> io::Result<Option<Command>> {
    let mut arguments = env::args(rt)?.skip(1);
    let verb = arguments.next();
    let kind = arguments.next();
    if arguments.next().is_some() {
        return Ok(None);
    }
    Ok(asked(
        verb.as_ref().map_or("", String::as_str),
        kind.as_ref().map_or("", String::as_str),
    ))
}
