// What the command lines of both programs are built by.
//
// Arguments and subcommands are handed on in one list. Where a function holds each of them by a name, and adds each with a
// `?` of its own, each such exit drops those that are left, and the proof of that takes minutes.
ghost use Rattle.std.specs.Prelude.{◌≡◌, IfOk, false, map};
ghost use Rattle.clap.specs.Words.{AddsInTurn, app_of, rule_of, shape_of};
ghost use Rattle.clap.specs.declared.builder.command.Command.TheViews.{out-Command as fields_of};
ghost use Rattle.sd_arguments.specs.Lines.{command_shape};
ghost use Rattle.sd_arguments.specs.Building.{AddsMade, AreLocal, program_alone};

use clap::{Arg, Command};
use std::alloc::{AllocError, Global};

/// A subcommand with these arguments.
pub(crate) fn command_with<'a>(
    alloc: Global,
    name: &'a str,
    about: &'a str,
    arguments: Vec<Arg<'a>>,
) -> Result<Command<'a>, AllocError>
    requires { AreLocal arguments.items }
    ensures shape { IfOk result (λ c.
        shape_of c ≡ command_shape name.entry.now (map rule_of arguments.entry.items)) }
    ensures local { IfOk result (λ c. (fields_of c).has_globals ≡ false) }
{
    Command::new(alloc, name).about(about).args(arguments)
}

/// A program, before it has a version and subcommands.
pub(crate) fn program<'a>(alloc: Global, name: &'a str, about: &'a str) -> Command<'a>
    ensures { app_of result ≡ program_alone name.entry.now }
{
    Command::new(alloc, name)
        .about(about)
        .subcommand_required(true)
        .arg_required_else_help(true)
}

/// The program with these subcommands, if there was memory for each of them.
pub(crate) fn with_commands<'a>(
    program: Command<'a>,
    commands: Vec<Result<Command<'a>, AllocError>>,
) -> Result<Command<'a>, AllocError>
    ensures { IfOk result (AddsInTurn AddsMade program.entry commands.entry.items) }
{
    let mut program = program;
    for command in commands {
        program = program.subcommand(command?)?;
    }
    Ok(program)
}
