ghost use Rattle.clap.specs.Words.{app_of, fault_of, first_of, kind_of, new_app, rule_of, subcommand_of, subcommand_rows_of};
ghost use Rattle.clap.specs.Walk.{texts};
ghost use Rattle.clap.specs.declared.builder.command.Command.TheViews.{out-Command};
ghost use Rattle.command_line.specs.Command.{build_command, check_command, command, explain_command, file_rule, flowc_command, list_command, observer_rule, run_command, steps_rule, under_rule};
ghost use Rattle.command_line.specs.Matched.{Enters, HasBuildWords, HasListWords, HasRunWords, HasStepsInRange, HasTextsWords, IsGiven, rows_in};
ghost use Rattle.command_line.specs.Task.{AsksFor, IsTaskOf, IsWordOf, steps_in, steps_of};
ghost use Rattle.command_line.specs.Request.{GrantsPlainRequests, HasNoOption, IsSpelling};
ghost use Rattle.common.specs.Answers.{IfRefused};
ghost use Rattle.common.specs.declared.fault.OrNoMemory.TheVariants.{NoMemory};
ghost use Rattle.std.specs.String.{string_bytes};
ghost use Rattle.std.specs.Prelude.{◌≡◌, ◌≢◌, ◌≤◌, ◌∷◌, ℕ, IfErr, IfOk, List, [], codes, false, option_map};

use crate::request::{DEFAULT_STEPS, MAX_STEPS, Task, TaskFault, TaskRefusal};
use clap::error::ErrorKind;
use clap::{Arg, ArgAction, ArgMatches, Command, value_parser};
use common::{OrNoMemory, VERSION};
use std::alloc::{AllocError, Global};

/// The task that the words of a command line ask for. The first word is the program's name.
///
/// # Errors
///
/// The text of the parser of command lines where the words are wrong or ask for help, or out of
/// memory.
pub fn task<'a>(alloc: Global, words: &'a [&'a str]) -> Result<Task, TaskFault>
    ensures matched { IfOk result (IsTaskOf (subcommand_of flowc_command (texts words.now))) }
    ensures steps { IfOk result (λ task. steps_of task ≤ MAX_STEPS) }
    ensures accepted { IfOk result (λ _. fault_of flowc_command (texts words.now) ≡ []) }
    ensures complete { GrantsPlainRequests (texts words.now) result }
    ensures rejected { IfErr result (IfRefused (λ _.
        fault_of flowc_command (texts words.now) ≢ [])) }
    ensures spelled { HasNoOption (texts words.now) → IfOk result (IsSpelling (texts words.now)) }
{
    let command = make_command(alloc)?;
    match command.try_get_matches_from(words) {
        Ok(matches) => Ok(read_matches(alloc, &matches)?),
        Err(error) => Err(words_fault(alloc, &error)),
    }
}

// The task that the subcommand asks for, under which the parser left each word that it needs.
fn read_matches(alloc: Global, matches: &ArgMatches<'_>) -> Result<Task, AllocError>
    requires met { Enters (subcommand_rows_of matches.now) }
    ensures matched { IfOk result (IsTaskOf (subcommand_rows_of matches.now)) }
    ensures steps { IfOk result (λ task. steps_of task ≤ MAX_STEPS) }
{
    match matches.subcommand() {
        Some(("check", inner)) => read_check(alloc, inner),
        Some(("build", inner)) => read_build(alloc, inner),
        Some(("run", inner)) => read_run(alloc, inner),
        Some(("list", inner)) => read_list(alloc, inner),
        Some(("explain", inner)) => read_explain(alloc, inner),
        _ => unreachable!(),
    }
}

// What the program takes: each subcommand with its words.
fn make_command<'a>(alloc: Global) -> Result<Command<'a>, AllocError>
    ensures shape { IfOk result (λ command. app_of command ≡ flowc_command) }
{
    Command::new(alloc, "flowc")
        .about("Checks, compiles and runs programs with confidentiality labels")
        .version(VERSION)
        .subcommand_required(true)
        .subcommand(make_check(alloc)?)?
        .subcommand(make_build(alloc)?)?
        .subcommand(make_run(alloc)?)?
        .subcommand(make_list(alloc)?)?
        .subcommand(make_explain(alloc)?)
}

// A subcommand that takes no words as yet, and what its help says.
fn make_subcommand<'a>(
    alloc: Global,
    name: &'a str,
    about: &'a str,
    example: &'a str,
) -> Command<'a>
    ensures shape { app_of result ≡ new_app name.now }
    ensures local { (out-Command result).has_globals ≡ false }
{
    Command::new(alloc, name).about(about).after_help(example)
}

fn make_check<'a>(alloc: Global) -> Result<Command<'a>, AllocError>
    ensures shape { IfOk result (λ command. app_of command ≡ check_command) }
    ensures local { IfOk result (λ command. (out-Command command).has_globals ≡ false) }
{
    make_subcommand(
        alloc,
        "check",
        "Checks a source under a hierarchy, and prints ok",
        "Example: flowc check hierarchy.txt payroll.flow\nWhere a flow is refused (601), flowc explain says why.",
    )
    .arg(hierarchy(alloc))?
    .arg(source(alloc))
}

fn make_build<'a>(alloc: Global) -> Result<Command<'a>, AllocError>
    ensures shape { IfOk result (λ command. app_of command ≡ build_command) }
    ensures local { IfOk result (λ command. (out-Command command).has_globals ≡ false) }
{
    make_subcommand(
        alloc,
        "build",
        "Compiles a source under a hierarchy, and writes the module",
        "Example: flowc build hierarchy.txt payroll.flow payroll.flob",
    )
    .arg(hierarchy(alloc))?
    .arg(source(alloc))?
    .arg(file(alloc, "OUT", "the file that the module is written to"))
}

fn make_run<'a>(alloc: Global) -> Result<Command<'a>, AllocError>
    ensures shape { IfOk result (λ command. app_of command ≡ run_command) }
    ensures local { IfOk result (λ command. (out-Command command).has_globals ≡ false) }
{
    name_run(alloc)?
        .arg(under(alloc))?
        .arg(observer(alloc))?
        .arg(steps(alloc))
}

// The subcommand `run` with its files, and no options as yet.
fn name_run<'a>(alloc: Global) -> Result<Command<'a>, AllocError>
    ensures shape { IfOk result (λ app. app_of app ≡ command (codes "run")
        (file_rule (codes "MODULE") ∷ file_rule (codes "WORLD") ∷ [])) }
    ensures local { IfOk result (λ app. (out-Command app).has_globals ≡ false) }
{
    make_subcommand(
        alloc,
        "run",
        "Runs a module on a world, and prints what it sent",
        "Example: flowc run payroll.flob november.txt --observer Staff --steps 1000\n\
         Under a hierarchy that has grown: flowc run payroll.flob november.txt --under grown.txt --observer Dave",
    )
    .arg(module(alloc))?
    .arg(file(alloc, "WORLD", "the file with the numbers of each input"))
}

fn make_list<'a>(alloc: Global) -> Result<Command<'a>, AllocError>
    ensures shape { IfOk result (λ command. app_of command ≡ list_command) }
    ensures local { IfOk result (λ command. (out-Command command).has_globals ≡ false) }
{
    make_subcommand(
        alloc,
        "list",
        "Lists the channels of a module with their labels, and its code",
        "Example: flowc list payroll.flob",
    )
    .arg(module(alloc))
}

fn make_explain<'a>(alloc: Global) -> Result<Command<'a>, AllocError>
    ensures shape { IfOk result (λ command. app_of command ≡ explain_command) }
    ensures local { IfOk result (λ command. (out-Command command).has_globals ≡ false) }
{
    make_subcommand(
        alloc,
        "explain",
        "Explains the labels of locals, or why a flow is refused (601)",
        "Example: flowc explain hierarchy.txt payroll.flow",
    )
    .arg(hierarchy(alloc))?
    .arg(source(alloc))
}

fn hierarchy<'a>(alloc: Global) -> Arg<'a>
    ensures rule { rule_of result ≡ file_rule (codes "HIER") }
    ensures local { result.global ≡ false }
{
    file(alloc, "HIER", "the file of the hierarchy of principals")
}

fn source<'a>(alloc: Global) -> Arg<'a>
    ensures rule { rule_of result ≡ file_rule (codes "SRC") }
    ensures local { result.global ≡ false }
{
    file(alloc, "SRC", "the file of the source")
}

fn module<'a>(alloc: Global) -> Arg<'a>
    ensures rule { rule_of result ≡ file_rule (codes "MODULE") }
    ensures local { result.global ≡ false }
{
    file(alloc, "MODULE", "the file of the module")
}

fn file<'a>(alloc: Global, name: &'a str, help: &'a str) -> Arg<'a>
    ensures rule { rule_of result ≡ file_rule name.now }
    ensures local { result.global ≡ false }
{
    Arg::new(alloc, name)
        .required(true)
        .action(ArgAction::Set)
        .help(help)
}

fn under<'a>(alloc: Global) -> Arg<'a>
    ensures rule { rule_of result ≡ under_rule }
    ensures local { result.global ≡ false }
{
    Arg::new(alloc, "under")
        .long("under")
        .value_name("HIER")
        .action(ArgAction::Set)
        .help("the file of a hierarchy that contains the module's, whose principals observe")
}

fn observer<'a>(alloc: Global) -> Arg<'a>
    ensures rule { rule_of result ≡ observer_rule }
    ensures local { result.global ≡ false }
{
    Arg::new(alloc, "observer")
        .long("observer")
        .value_name("NAME")
        .action(ArgAction::Set)
        .help("print only what this principal may read, and not how the run ended")
}

fn steps<'a>(alloc: Global) -> Arg<'a>
    ensures rule { rule_of result ≡ steps_rule }
    ensures local { result.global ≡ false }
{
    Arg::new(alloc, "steps")
        .long("steps")
        .value_name("N")
        .action(ArgAction::Set)
        .value_parser(value_parser!(u64).range(0..=MAX_STEPS as i64))
        .help("at most so many steps, 1000000 if not given")
}

// The text of an error of the parser, which is that memory ran out where the parser had none.
fn words_fault(alloc: Global, error: &clap::Error) -> TaskFault
    ensures memory { kind_of error.now ≡ ErrorKind.OutOfMemory → result ≡ NoMemory }
{
    if error.kind() == ErrorKind::OutOfMemory {
        return OrNoMemory::NoMemory;
    }
    match format!(in alloc; "{error}") {
        Ok(text) => OrNoMemory::Refused(TaskRefusal { text }),
        Err(_) => OrNoMemory::NoMemory,
    }
}

fn read_check(alloc: Global, matches: &ArgMatches<'_>) -> Result<Task, AllocError>
    requires given { HasTextsWords (rows_in matches.now) }
    ensures matched { IfOk result (AsksFor (codes "check") (rows_in matches.now)) }
    ensures steps { IfOk result (λ task. steps_of task ≤ MAX_STEPS) }
{
    Ok(Task::Check {
        hier: read_word(alloc, matches, "HIER")?,
        src: read_word(alloc, matches, "SRC")?,
    })
}

fn read_build(alloc: Global, matches: &ArgMatches<'_>) -> Result<Task, AllocError>
    requires given { HasBuildWords (rows_in matches.now) }
    ensures matched { IfOk result (AsksFor (codes "build") (rows_in matches.now)) }
    ensures steps { IfOk result (λ task. steps_of task ≤ MAX_STEPS) }
{
    Ok(Task::Build {
        hier: read_word(alloc, matches, "HIER")?,
        src: read_word(alloc, matches, "SRC")?,
        out: read_word(alloc, matches, "OUT")?,
    })
}

fn read_run(alloc: Global, matches: &ArgMatches<'_>) -> Result<Task, AllocError>
    requires given { HasRunWords (rows_in matches.now) }
    ensures matched { IfOk result (AsksFor (codes "run") (rows_in matches.now)) }
    ensures steps { IfOk result (λ task. steps_of task ≤ MAX_STEPS) }
{
    Ok(Task::Run {
        file: read_word(alloc, matches, "MODULE")?,
        world: read_word(alloc, matches, "WORLD")?,
        under: read_option(alloc, matches, "under")?,
        observer: read_option(alloc, matches, "observer")?,
        steps: read_steps(matches),
    })
}

fn read_list(alloc: Global, matches: &ArgMatches<'_>) -> Result<Task, AllocError>
    requires given { HasListWords (rows_in matches.now) }
    ensures matched { IfOk result (AsksFor (codes "list") (rows_in matches.now)) }
    ensures steps { IfOk result (λ task. steps_of task ≤ MAX_STEPS) }
{
    Ok(Task::List {
        file: read_word(alloc, matches, "MODULE")?,
    })
}

fn read_explain(alloc: Global, matches: &ArgMatches<'_>) -> Result<Task, AllocError>
    requires given { HasTextsWords (rows_in matches.now) }
    ensures matched { IfOk result (AsksFor (codes "explain") (rows_in matches.now)) }
    ensures steps { IfOk result (λ task. steps_of task ≤ MAX_STEPS) }
{
    Ok(Task::Explain {
        hier: read_word(alloc, matches, "HIER")?,
        src: read_word(alloc, matches, "SRC")?,
    })
}

// The word that the parser matched for a required argument.
fn read_word(alloc: Global, matches: &ArgMatches<'_>, id: &str) -> Result<String, AllocError>
    requires given { IsGiven id.now (rows_in matches.now) }
    ensures { IfOk result (λ word. IsWordOf (rows_in matches.now) id.now (string_bytes word)) }
{
    String::from_str(alloc, matches.get_str(id).unwrap())
}

// The word of an option, where it was given.
fn read_option(
    alloc: Global,
    matches: &ArgMatches<'_>,
    id: &str,
) -> Result<Option<String>, AllocError>
    ensures { IfOk result (λ word. option_map string_bytes word
        ≡ first_of id.now (rows_in matches.now)) }
{
    match matches.get_str(id) {
        Some(word) => Ok(Some(String::from_str(alloc, word)?)),
        None => Ok(None),
    }
}

// The number of `--steps`, or the usual one where it was not given.
fn read_steps(matches: &ArgMatches<'_>) -> u64
    requires in_range { HasStepsInRange (rows_in matches.now) }
    ensures number { result ≡ steps_in (rows_in matches.now) }
    ensures most { result ≤ MAX_STEPS }
{
    matches.get_one::<u64>("steps").unwrap_or(DEFAULT_STEPS)
}
