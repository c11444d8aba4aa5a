// The command line of the daemon.
ghost use Rattle.std.specs.Prelude.{◌≡◌, ◌≢◌, IfErr, IfOk, IsFalse, IsTrue, [], codes, false, map, string_bytes};
ghost use Rattle.clap.specs.Words.{app_of, found_of, rows_of, rule_of, shape_of};
ghost use Rattle.clap.specs.Values.{kind_of};
ghost use Rattle.clap.specs.declared.builder.command.Command.TheViews.{out-Command as fields_of};
ghost use Rattle.sd_arguments.specs.Lines.{IsGiven, command_shape, flag_rule, required_rule};
ghost use Rattle.sd_arguments.specs.Daemon.{AsksDaemon, FailsDaemon, IsServing, Misuses, daemon_line, misuse_kind, metrics_rule, serve_shape, talks_rule, until_rule, wait_rule};

use crate::adopting::{adopt_argument, adopt_damaged_argument, names_of};
use crate::arguments::{count_argument, file_argument, flag_argument, required};
use crate::building::{command_with, program, with_commands};
use crate::misuse::Misuse;
use crate::status::lacks_memory;
use clap::{Arg, ArgMatches, Command, Error};
use sd_base::VolName;
use std::alloc::{AllocError, Global};

/// What a command line of `sdd` asks for.
#[derive(Drop)]
pub enum DaemonTask<'a> {
    /// To check the configuration on standard input.
    Check,
    /// To serve clients.
    Serve(Serving<'a>),
    /// To print this: help or the version, or what is wrong with the command line.
    Print(Error),
    /// There was no memory to read the command line.
    NoMemory,
}

/// How clients are to be served.
#[derive(Drop)]
pub struct Serving<'a> {
    /// The path of the configuration.
    pub path: &'a str,
    /// After how many talks the daemon ends; 0 if it goes on.
    pub talks: u32,
    /// How many seconds a record and a close wait for a volume that their drive needs.
    pub wait: u32,
    /// The file that the daemon's figures are written to.
    pub metrics: Option<&'a str>,
    /// The file that ends the daemon once it is there.
    pub until: Option<&'a str>,
    /// Whether a log is written.
    pub log: bool,
    /// Whether the volumes of the drives' folders are adopted before clients are served.
    pub adopt: bool,
    /// The damaged volumes that are adopted too, and cut where they are damaged.
    pub adopt_damaged: Vec<VolName>,
}

/// What `words`, the program's name first, ask for.
pub fn daemon_task(alloc: Global, words: &[String]) -> DaemonTask<'_>
    ensures { AsksDaemon (map string_bytes words.entry.now) result }
{
    match parse(alloc, words) {
        Ok(task) => task,
        Err(fault) if lacks_memory(&fault) => DaemonTask::NoMemory,
        Err(fault) => DaemonTask::Print(fault),
    }
}

// What the words ask for, if that is anything.
fn parse(alloc: Global, words: &[String]) -> Result<DaemonTask<'_>, Error>
    ensures ok { IfOk result (AsksDaemon (map string_bytes words.entry.now)) }
    ensures err { IfErr result (FailsDaemon (map string_bytes words.entry.now)) }
{
    let matches = command(alloc)?.try_get_matches_from(words)?;
    let Some(given) = matches.subcommand_matches("serve") else {
        return Ok(DaemonTask::Check);
    };
    match asked_of(alloc, given) {
        Ok(asked) => Ok(DaemonTask::Serve(asked)),
        Err(misuse) => Err(misuse_error(alloc, misuse)?),
    }
}

// The error of a misuse, with the usage of the program.
fn misuse_error(alloc: Global, misuse: Misuse<'_>) -> Result<Error, AllocError>
    ensures { IfOk result (λ error. kind_of error ≡ misuse_kind misuse.entry) }
{
    let message = misuse.message(alloc)?;
    let mut command = command(alloc)?;
    command.error(misuse.kind(), message.as_str())
}

fn command<'a>(alloc: Global) -> Result<Command<'a>, AllocError>
    ensures { IfOk result (λ c. app_of c ≡ daemon_line) }
{
    let commands = vec![in alloc; Ok(check_command(alloc)), serve_command(alloc)]?;
    let program = program(alloc, "sdd", "The storage daemon").version("1.0.0");
    with_commands(program, commands)
}

fn check_command<'a>(alloc: Global) -> Command<'a>
    ensures shape { shape_of result ≡ command_shape (codes "check") [] }
    ensures local { (fields_of result).has_globals ≡ false }
{
    Command::new(alloc, "check").about(
        "Reads a configuration on standard input, and prints its values or what is wrong",
    )
}

fn serve_command<'a>(alloc: Global) -> Result<Command<'a>, AllocError>
    ensures shape { IfOk result (λ c. shape_of c ≡ serve_shape) }
    ensures local { IfOk result (λ c. (fields_of c).has_globals ≡ false) }
{
    let arguments = vec![in alloc;
        path_argument(alloc),
        talks_argument(alloc),
        wait_argument(alloc),
        metrics_argument(alloc),
        until_argument(alloc),
        log_argument(alloc),
        adopt_argument(alloc),
        adopt_damaged_argument(alloc),
    ]?;
    command_with(alloc, "serve", "Serves clients on 127.0.0.1", arguments)
}

fn path_argument<'a>(alloc: Global) -> Arg<'a>
    ensures rule { rule_of result ≡ required_rule (codes "CONF") }
    ensures local { result.global ≡ false }
{
    required(alloc, "CONF", "The file of the configuration")
}

fn talks_argument<'a>(alloc: Global) -> Arg<'a>
    ensures rule { rule_of result ≡ talks_rule }
    ensures local { result.global ≡ false }
{
    count_argument(
        alloc,
        "talks",
        "N",
        "Ends after so many talks; 0 for no end",
    )
}

fn wait_argument<'a>(alloc: Global) -> Arg<'a>
    ensures rule { rule_of result ≡ wait_rule }
    ensures local { result.global ≡ false }
{
    count_argument(
        alloc,
        "wait",
        "SECONDS",
        "Lets a job wait so long for a volume that its drive needs; 0 for not at all",
    )
}

fn metrics_argument<'a>(alloc: Global) -> Arg<'a>
    ensures rule { rule_of result ≡ metrics_rule }
    ensures local { result.global ≡ false }
{
    file_argument(
        alloc,
        "metrics",
        "FILE",
        "Writes figures to this file every ten seconds, in the text form of Prometheus",
    )
}

fn until_argument<'a>(alloc: Global) -> Arg<'a>
    ensures rule { rule_of result ≡ until_rule }
    ensures local { result.global ≡ false }
{
    file_argument(
        alloc,
        "until",
        "FILE",
        "Takes no client more once this file is there, and ends after those that it has",
    )
}

fn log_argument<'a>(alloc: Global) -> Arg<'a>
    ensures rule { rule_of result ≡ flag_rule (codes "log") }
    ensures local { result.global ≡ false }
{
    flag_argument(alloc, "log", "Writes a log to standard error")
}

// What is asked of the daemon. The other values are there too, since the words were read so.
fn asked_of<'a>(alloc: Global, given: &ArgMatches<'a>) -> Result<Serving<'a>, Misuse<'a>>
    requires { IsGiven (codes "CONF") (rows_of (found_of given.now)) }
    ensures ok { IfOk result (IsServing (rows_of (found_of given.now))) }
    ensures err { IfErr result (λ misuse. Misuses (rows_of (found_of given.now))
        (misuse_kind misuse)) }
{
    let adopt = given.get_flag("adopt");
    let adopt_damaged = names_of(alloc, given)?;
    if lacks_adopt(adopt, &adopt_damaged) {
        return Err(Misuse::WithoutAdopt);
    }
    Ok(Serving {
        path: given.get_str("CONF").unwrap(),
        talks: given.get_one("talks").unwrap_or(0),
        wait: given.get_one("wait").unwrap_or(0),
        metrics: given.get_str("metrics"),
        until: given.get_str("until"),
        log: given.get_flag("log"),
        adopt,
        adopt_damaged,
    })
}

// Whether damaged volumes are named, and no volume is to be adopted.
fn lacks_adopt(adopt: bool, names: &[VolName]) -> bool
    ensures lacks { IsTrue result → (adopt ≡ false) × (names.now ≢ []) }
    ensures complete { IsFalse result → adopt ≡ false → names.now ≡ [] }
{
    !adopt && !names.is_empty()
}
