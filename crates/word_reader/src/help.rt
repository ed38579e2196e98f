//! The help text: `clap`'s, made of the table of commands and options.
use crate::table::{Choice, Command};
use clap::{Arg, ArgAction, Command as Builder};
use jam_base::{OutOfMemory, Text};
use std::alloc::{AllocError, Global};

/// A line for each command, and then for each command how it is called, its options and an example.
pub fn help_text(alloc: Global) -> Result<Text, OutOfMemory> {
    let mut out = String::new(alloc);
    push_commands(alloc, &mut out)?;
    for command in [Command::Audit, Command::Graph] {
        push_command(alloc, &mut out, command)?;
    }
    Ok(Text::from_string(out))
}

// The commands, each on a line.
fn push_commands(alloc: Global, out: &mut String) -> Result<(), AllocError> {
    let mut program = Builder::new(alloc, "jam")
        .about(
            "Tells which functions that advisories name an application can call. Run it in the application folder.",
        )
        .disable_help_flag(true)
        .disable_help_subcommand(true)
        .subcommand_required(true);
    for command in [Command::Audit, Command::Graph] {
        program = program.subcommand(Builder::new(alloc, command.word()).about(command.about()))?;
    }
    let text = program.render_help()?;
    out.push_str(text.as_str())
}

// A command, with its options.
fn push_command(alloc: Global, out: &mut String, command: Command) -> Result<(), AllocError> {
    let operand = Arg::new(alloc, command.operand())
        .help(command.about_operand())
        .required(true);
    let mut program = Builder::new(alloc, command.word())
        .bin_name(command.call())?
        .about(command.about())
        .after_help(command.example())
        .disable_help_flag(true)
        .arg(operand)?;
    for choice in [Choice::Entry, Choice::Format, Choice::SkipRefused] {
        if command.has(choice) {
            program = program.arg(option(alloc, choice))?;
        }
    }
    let text = program.render_help()?;
    out.push_str("\n")?;
    out.push_str(text.as_str())
}

// An option.
fn option(alloc: Global, choice: Choice) -> Arg<'static> {
    let arg = Arg::new(alloc, choice.name())
        .long(choice.name())
        .help(choice.about());
    match choice.value() {
        Some(value) => arg.action(ArgAction::Set).value_name(value),
        None => arg.action(ArgAction::SetTrue),
    }
}
