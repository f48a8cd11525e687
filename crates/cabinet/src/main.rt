// The program of the cabinet editor.
#![tactic(auto)]

mod admission;
mod command;
mod labels;
mod written;

use command::{Command, KindName};
use kinds::setting::SettingLabel;
use kinds::text::TextLabel;
use labels::sort_out;
use std::process::ExitCode;

const USAGE: &str = "usage:
  cabinet labels text|setting
      sorts out the label texts on standard input, one to a line
  cabinet expression
      says whether the expression on standard input is admitted: a line const=N with the number of
      constants, then a line for each place, as place=E,v1,0";

fn carry_out(rt: &HostRuntime, command: Command) -> anyhow::Result<()> {
    match command {
        Command::Labels(KindName::Text) => sort_out::<TextLabel>(rt),
        Command::Labels(KindName::Setting) => sort_out::<SettingLabel>(rt),
        Command::Expression => admission::examine(rt),
    }
}

fn main(rt: HostRuntime) -> anyhow::Result<ExitCode> {
    match command::from_arguments(&rt)? {
        Some(command) => {
            carry_out(&rt, command)?;
            Ok(ExitCode::SUCCESS)
        }
        None => {
            eprintln!(rt; "{USAGE}")?;
            Ok(ExitCode::FAILURE)
        }
    }
}
