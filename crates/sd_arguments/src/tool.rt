// The command line of the tool.
ghost use Rattle.std.specs.Prelude.{◌≡◌, IfErr, IfOk, Some, [], codes, false, map, option_map, string_bytes};
ghost use Rattle.clap.specs.Words.{HasKind, app_of, fault_of, first_of, found_of, one_of, rows_of, rule_of, shape_of};
ghost use Rattle.clap.specs.declared.builder.command.Command.TheViews.{out-Command as fields_of};
ghost use Rattle.sd_arguments.specs.Lines.{IsFlagOf, IsGiven, command_shape, flag_rule, texts_at};
ghost use Rattle.sd_arguments.specs.Tool.{AsksTool, HasItsWords, IsProgress, IsToolCommand, IsToolTask, list_shape};
ghost use Rattle.sd_arguments.specs.Tool.{read_shape, salvage_shape, scan_shape, session_rules, tool_line, verify_shape, volumes_rule};

use crate::arguments::{file_argument, flag_argument, required};
use crate::building::{command_with, program, with_commands};
use crate::status::lacks_memory;
use clap::{Arg, ArgAction, ArgMatches, Command, Error};
use std::alloc::{AllocError, Global};

/// What a command line of `sdtool` asks for.
#[derive(Drop)]
pub enum ToolTask<'a> {
    /// To run the script on standard input.
    Run,
    /// To list the volume in the file at this path.
    List {
        volume: &'a str,
        progress: bool,
    },
    /// To read the session back whose JobMedia text is in the file `spans`, from the volumes in `folder`.
    Read {
        spans: &'a str,
        folder: &'a str,
        progress: bool,
    },
    /// To salvage the session whose JobMedia text is in the file `spans`, from the volumes in `folder`, past damage.
    Salvage {
        spans: &'a str,
        folder: &'a str,
        progress: bool,
    },
    /// To find the sessions on the volumes of these names in `folder`; of all volumes there if none is named.
    Scan {
        folder: &'a str,
        volumes: Vec<&'a str>,
        /// The folder in which the JobMedia texts are to be written.
        texts: Option<&'a str>,
        progress: bool,
    },
    /// To look for damage on all volumes in `folder`.
    Verify {
        folder: &'a str,
        /// The file that names the volumes that are to be there.
        expected: Option<&'a str>,
        json: bool,
    },
    /// To print this: help or the version, or what is wrong with the command line.
    Print(Error),
    /// There was no memory to read the command line.
    NoMemory,
}

const VOLUME: &str = "VOLUME";

const SPANS: &str = "SPANS";

const FOLDER: &str = "FOLDER";

const VOLUMES: &str = "VOLUMES";

const PROGRESS: &str = "progress";

const WRITE: &str = "write";

const EXPECT: &str = "expect";

const JSON: &str = "json";

/// What `words`, the program's name first, ask for.
pub fn tool_task<'a>(alloc: Global, words: &'a [String]) -> ToolTask<'a>
    ensures { AsksTool (map string_bytes words.entry.now) result }
{
    match parse(alloc, words) {
        Ok(task) => task,
        Err(fault) if lacks_memory(&fault) => ToolTask::NoMemory,
        Err(fault) => ToolTask::Print(fault),
    }
}

fn parse<'a>(alloc: Global, words: &'a [String]) -> Result<ToolTask<'a>, Error>
    ensures ok { IfOk result (AsksTool (map string_bytes words.entry.now)) }
    ensures err { IfErr result (HasKind (fault_of tool_line (map string_bytes words.entry.now))) }
{
    let matches = command(alloc)?.try_get_matches_from(words)?;
    match matches.subcommand() {
        Some((name, given)) => Ok(task_of(alloc, name, given)?),
        None => Ok(ToolTask::Run),
    }
}

/// The task of the subcommand `name`, with what the words have for its arguments.
fn task_of<'a>(
    alloc: Global,
    name: &str,
    given: &ArgMatches<'a>,
) -> Result<ToolTask<'a>, AllocError>
    requires known { IsToolCommand name.now }
    requires words { HasItsWords name.now (rows_of (found_of given.now)) }
    ensures { IfOk result (IsToolTask name.now (rows_of (found_of given.now))) }
{
    match name {
        "ls" => Ok(ToolTask::List {
            volume: word(given, VOLUME),
            progress: progress_of(given),
        }),
        "read" => Ok(ToolTask::Read {
            spans: word(given, SPANS),
            folder: word(given, FOLDER),
            progress: progress_of(given),
        }),
        "salvage" => Ok(ToolTask::Salvage {
            spans: word(given, SPANS),
            folder: word(given, FOLDER),
            progress: progress_of(given),
        }),
        "scan" => Ok(ToolTask::Scan {
            folder: word(given, FOLDER),
            volumes: words_of(alloc, given, VOLUMES)?,
            texts: word_if_given(given, WRITE),
            progress: progress_of(given),
        }),
        "verify" => Ok(ToolTask::Verify {
            folder: word(given, FOLDER),
            expected: word_if_given(given, EXPECT),
            json: is_given(given, JSON),
        }),
        _ => Ok(ToolTask::Run),
    }
}

/// The word that was given for an argument.
fn word<'a>(given: &ArgMatches<'a>, argument: &str) -> &'a str
    requires { IsGiven argument.now (rows_of (found_of given.now)) }
    ensures { first_of argument.now (rows_of (found_of given.now)) ≡ Some result.now }
{
    given.get_str(argument).unwrap()
}

/// The words that were given for an argument, if there are any.
fn words_of<'a>(
    alloc: Global,
    given: &ArgMatches<'a>,
    argument: &str,
) -> Result<Vec<&'a str>, AllocError>
    ensures { IfOk result (λ v.
        map (λ w. w.now) v.items ≡ texts_at argument.now (rows_of (found_of given.now))) }
{
    match given.get_strs(argument) {
        Some(words) => Vec::from_slice(alloc, words),
        None => Ok(Vec::new(alloc)),
    }
}

/// The word that was given for an argument that may be left out.
fn word_if_given<'a>(given: &ArgMatches<'a>, argument: &str) -> Option<&'a str>
    ensures { option_map (λ w. w.now) result ≡ first_of argument.now (rows_of (found_of given.now)) }
{
    given.get_str(argument)
}

fn progress_of(given: &ArgMatches<'_>) -> bool
    ensures { IsProgress (rows_of (found_of given.now)) result }
{
    is_given(given, PROGRESS)
}

/// Whether a flag was given.
fn is_given(given: &ArgMatches<'_>, flag: &str) -> bool
    ensures { IsFlagOf (one_of flag.now (rows_of (found_of given.now))) result }
{
    given.get_flag(flag)
}

fn command<'a>(alloc: Global) -> Result<Command<'a>, AllocError>
    ensures { IfOk result (λ c. app_of c ≡ tool_line) }
{
    let commands = vec![in alloc;
        Ok(run_command(alloc)),
        list_command(alloc),
        read_command(alloc),
        salvage_command(alloc),
        scan_command(alloc),
        verify_command(alloc),
    ]?;
    let program = program(
        alloc,
        "sdtool",
        "Runs scripts over the core of the storage daemon, lists, scans and verifies volumes, reads sessions back and salvages them",
    )
    .version("1.0.0");
    with_commands(program, commands)
}

fn run_command<'a>(alloc: Global) -> Command<'a>
    ensures shape { shape_of result ≡ command_shape (codes "run") [] }
    ensures local { (fields_of result).has_globals ≡ false }
{
    Command::new(alloc, "run").about(
        "Runs the script on standard input, and prints what each line of it comes to",
    )
}

fn list_command<'a>(alloc: Global) -> Result<Command<'a>, AllocError>
    ensures shape { IfOk result (λ c. shape_of c ≡ list_shape) }
    ensures local { IfOk result (λ c. (fields_of c).has_globals ≡ false) }
{
    let arguments = vec![in alloc;
        required(alloc, VOLUME, "The file of the volume"),
        progress(alloc),
    ]?;
    command_with(
        alloc,
        "ls",
        "Lists a volume: its label, its blocks, and how many bytes stand behind them",
        arguments,
    )
}

fn read_command<'a>(alloc: Global) -> Result<Command<'a>, AllocError>
    ensures shape { IfOk result (λ c. shape_of c ≡ read_shape) }
    ensures local { IfOk result (λ c. (fields_of c).has_globals ≡ false) }
{
    session_command(
        alloc,
        "read",
        "Reads a session back from its volumes, and writes its records",
    )
}

fn salvage_command<'a>(alloc: Global) -> Result<Command<'a>, AllocError>
    ensures shape { IfOk result (λ c. shape_of c ≡ salvage_shape) }
    ensures local { IfOk result (λ c. (fields_of c).has_globals ≡ false) }
{
    session_command(
        alloc,
        "salvage",
        "Reads a session back past damage, and writes all its records that are whole",
    )
}

/// A subcommand that reads a session.
fn session_command<'a>(
    alloc: Global,
    name: &'a str,
    about: &'a str,
) -> Result<Command<'a>, AllocError>
    ensures shape { IfOk result (λ c. shape_of c ≡ command_shape name.entry.now session_rules) }
    ensures local { IfOk result (λ c. (fields_of c).has_globals ≡ false) }
{
    let arguments = vec![in alloc;
        required(alloc, SPANS, "The file of the session's JobMedia text"),
        required(alloc, FOLDER, "The folder of the volumes"),
        progress(alloc),
    ]?;
    command_with(alloc, name, about, arguments)
}

fn scan_command<'a>(alloc: Global) -> Result<Command<'a>, AllocError>
    ensures shape { IfOk result (λ c. shape_of c ≡ scan_shape) }
    ensures local { IfOk result (λ c. (fields_of c).has_globals ≡ false) }
{
    let arguments = vec![in alloc;
        required(alloc, FOLDER, "The folder of the volumes"),
        volumes(alloc),
        file_argument(
            alloc,
            WRITE,
            "TEXTS",
            "Makes a file in this folder for each session, with its JobMedia text",
        ),
        progress(alloc),
    ]?;
    command_with(
        alloc,
        "scan",
        "Finds the sessions on whole volumes, and writes the JobMedia texts that they are read by",
        arguments,
    )
}

fn verify_command<'a>(alloc: Global) -> Result<Command<'a>, AllocError>
    ensures shape { IfOk result (λ c. shape_of c ≡ verify_shape) }
    ensures local { IfOk result (λ c. (fields_of c).has_globals ≡ false) }
{
    let arguments = vec![in alloc;
        required(alloc, FOLDER, "The folder of the volumes"),
        file_argument(
            alloc,
            EXPECT,
            "FILE",
            "Names the volumes that are to be there, one a line",
        ),
        flag_argument(alloc, JSON, "Prints each line as a JSON object"),
    ]?;
    command_with(
        alloc,
        "verify",
        "Looks for damage on all volumes of a folder, and for sessions of which not all is there",
        arguments,
    )
}

fn volumes<'a>(alloc: Global) -> Arg<'a>
    ensures rule { rule_of result ≡ volumes_rule }
    ensures local { result.global ≡ false }
{
    Arg::new(alloc, VOLUMES)
        .value_name("VOLUME")
        .num_args(0..)
        .action(ArgAction::Append)
        .help("The volumes, in the order of their use; all of the folder where none is named")
}

fn progress<'a>(alloc: Global) -> Arg<'a>
    ensures rule { rule_of result ≡ flag_rule (codes "progress") }
    ensures local { result.global ≡ false }
{
    flag_argument(
        alloc,
        PROGRESS,
        "Writes a line to standard error every 256 MB that are read",
    )
}
