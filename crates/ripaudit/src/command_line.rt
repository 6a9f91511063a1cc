//! The words of the command line, and what they ask for.

ghost use Rattle.std.specs.Prelude.{◌≢◌};
ghost use Rattle.rip_report.specs.declared.status.RunError.{RunError};

use crate::capture_files::log_files;
use crate::commands::{
    PlanCommand, ReadCommand, manner, plan_command, read_command, read_plan, run_anyway,
    run_on_log, run_on_plan, run_on_routes, watching,
};
use crate::words::{capture_word, first_bad_word};
use clap::error::ErrorKind;
use clap::{Arg, ArgAction, ArgMatches, Command, Error, value_parser};
use rip_log::{FromRead, IntoWrite};
use rip_report::{Manner, RunError, Status, exit_code, fault_line, run_decode, run_watch};
use rip_table::MOST_WINDOW;
use std::alloc::{AllocError, Global};
use std::collections::hash_map::RandomState;
use std::io::{IsTerminal, Read};
use std::random::RandomSource;
use std::rt::Files;
use std::{env, fs, io};

/// A positional argument.
fn word<'a>(alloc: Global, name: &'a str, help: &'a str, is_required: bool) -> Arg<'a> {
    Arg::new(alloc, name).help(help).required(is_required)
}

/// The word of a plan's file.
fn plan_word<'a>(alloc: Global) -> Arg<'a> {
    word(alloc, "PLAN", "The file of the plan, a TOML document", true)
}

/// The word of a log's file.
fn log_word<'a>(alloc: Global) -> Arg<'a> {
    word(
        alloc,
        "LOG",
        "The file of the log; standard input where it is left out",
        false,
    )
}

/// The word of a log's file, or where `--routes` is given of that of the routers' own tables.
fn log_or_routes_word<'a>(alloc: Global) -> Arg<'a> {
    word(
        alloc,
        "LOG",
        "The file of the log, or with --routes of the routes; standard input where it is left out",
        false,
    )
}

/// A flag: a word that begins with two hyphens and may be given.
fn flag<'a>(alloc: Global, name: &'a str, help: &'a str) -> Arg<'a> {
    Arg::new(alloc, name)
        .long(name)
        .action(ArgAction::SetTrue)
        .help(help)
}

/// A command that reads a plan.
fn on_plan<'a>(alloc: Global, name: &'a str, about: &'a str) -> Result<Command<'a>, AllocError> {
    Command::new(alloc, name).about(about).arg(plan_word(alloc))
}

/// A command that reads a plan, and tells of everything where `--all` is given.
fn on_plan_with_all<'a>(
    alloc: Global,
    name: &'a str,
    about: &'a str,
    all: &'a str,
) -> Result<Command<'a>, AllocError> {
    on_plan(alloc, name, about)?.arg(flag(alloc, "all", all))
}

/// A command that reads a plan and a log.
fn on_log<'a>(alloc: Global, name: &'a str, about: &'a str) -> Result<Command<'a>, AllocError> {
    on_plan(alloc, name, about)?.arg(log_word(alloc))
}

/// A command that reads a plan and a log, or the routers' own tables where `--routes` is given, and
/// tells of all places where `--all` is.
fn on_log_or_routes<'a>(
    alloc: Global,
    name: &'a str,
    about: &'a str,
    all: &'a str,
) -> Result<Command<'a>, AllocError> {
    let routes = "Judge the routes that routers have, as they tell them, not those of a log";
    on_plan(alloc, name, about)?
        .arg(log_or_routes_word(alloc))?
        .arg(flag(alloc, "routes", routes))?
        .arg(flag(alloc, "all", all))
}

/// A command that reads a plan and a log, and goes on where it is refused if `--anyway` is given.
fn on_log_with_anyway<'a>(
    alloc: Global,
    name: &'a str,
    about: &'a str,
) -> Result<Command<'a>, AllocError> {
    let anyway = "Leave out what is refused, a stranger's or bad, and go on";
    on_log(alloc, name, about)?.arg(flag(alloc, "anyway", anyway))
}

/// The command that reads captures.
fn log_command<'a>(alloc: Global) -> Result<Command<'a>, AllocError> {
    let files =
        "The capture files, each named after its link, or LINK=FILE, or LINK@WHICH=FILE, where \
        WHICH is an interface, VLANs (5.103), or both with @ between; - is standard input";
    let without =
        "Print datagrams as they would be without their authentication, where it fits them";
    let times = "Print the time of each packet in front of its line";
    Command::new(alloc, "log")
        .about("Makes a log of the RIP datagrams in capture files")
        .arg(
            word(alloc, "FILE", files, true)
                .value_name("[LINK[@WHICH]=]FILE")
                .num_args(1..),
        )?
        .arg(flag(alloc, "without-authentication", without))?
        .arg(flag(alloc, "times", times))
}

/// The command that reads a log with times.
fn watch_command<'a>(alloc: Global) -> Result<Command<'a>, AllocError> {
    let about = "Tells the verdict of audit in each second of a log with times in which it changed";
    let window = "For how many seconds what an interface says is shown, 1 to 86400, 90 if left out";
    let until = "End at the first settled second";
    on_log(alloc, "watch", about)?
        .arg(
            Arg::new(alloc, "window")
                .long("window")
                .value_name("SECONDS")
                .action(ArgAction::Set)
                .value_parser(value_parser!(u32).range(1..=i64::from(MOST_WINDOW)))
                .help(window),
        )?
        .arg(flag(alloc, "until-settled", until))
}

/// The command that reads a datagram.
fn decode_command<'a>(alloc: Global) -> Result<Command<'a>, AllocError> {
    let hex = "The datagram's bytes in hexadecimal digits of either case";
    Command::new(alloc, "decode")
        .about("Prints one datagram of RIP version 2")
        .arg(word(alloc, "HEX", hex, true))
}

/// Adds a command, if there was memory for all.
fn add<'a>(
    ripaudit: Result<Command<'a>, AllocError>,
    command: Result<Command<'a>, AllocError>,
) -> Result<Command<'a>, AllocError> {
    ripaudit?.subcommand(command?)
}

/// The commands, with their words and their help.
fn commands<'a>(alloc: Global) -> Result<Command<'a>, AllocError> {
    let ripaudit = Ok(
        Command::new(alloc, "ripaudit")
            .version("0.1.0")
            .about("Audits the routes of a RIP version 2 network")
            .subcommand_required(true),
    );
    let audit = "Tells whether routes are right, those that a log shows or those that routers have";
    let each = "Name each place that does not hold, not only the first";
    let ripaudit = add(ripaudit, on_log_or_routes(alloc, "audit", audit, each));
    let explain = "Tells the verdict of audit, and what it comes from";
    let of_each = "Tell of each place that does not hold or cannot be read, or of each interface \
        not heard or router without routes";
    let ripaudit = add(
        ripaudit,
        on_log_or_routes(alloc, "explain", explain, of_each),
    );
    let heard = "Tells who is in a log, and all that is refused, a stranger's or bad";
    let ripaudit = add(ripaudit, on_log(alloc, "heard", heard));
    let ripaudit = add(ripaudit, watch_command(alloc));
    let routes = "Prints the routes that a log shows";
    let ripaudit = add(ripaudit, on_log_with_anyway(alloc, "routes", routes));
    let table = "Prints what each interface of a plan shows in a log";
    let ripaudit = add(ripaudit, on_log_with_anyway(alloc, "table", table));
    let expect = "Prints the right routes of a plan";
    let ripaudit = add(ripaudit, on_plan(alloc, "expect", expect));
    let whatif = "Tells what the failure of each link and of each router would cost";
    let lost = "Name each router and prefix that is lost, and each prefix that is gone";
    let ripaudit = add(ripaudit, on_plan_with_all(alloc, "whatif", whatif, lost));
    let plan = "Prints the parts of a plan";
    let ripaudit = add(ripaudit, on_plan(alloc, "plan", plan));
    let ripaudit = add(ripaudit, log_command(alloc));
    add(ripaudit, decode_command(alloc))
}

/// The outcome of a run, as an exit status. A failure is told on standard error.
fn end_run(rt: &impl Eprint, outcome: Result<Status, RunError>) -> u8 {
    if let Err(error) = &outcome {
        // A failed write to standard error does not change the status.
        let _ = rt.eprintln(fault_line(error));
    }
    exit_code(&outcome)
}

/// The end of a run whose words were not taken: help or the version on standard output, else a
/// text on standard error.
fn end_words(rt: &(impl Print + Eprint), error: &Error) -> u8 {
    if error.kind() == ErrorKind::OutOfMemory {
        return end_run(rt, Err(RunError::Memory));
    }
    let printed = error.print(rt);
    if error.use_stderr() {
        return exit_code(&Ok(Status::Refused));
    }
    match printed {
        Ok(()) => exit_code(&Ok(Status::Done)),
        Err(_) => end_run(rt, Err(RunError::Write)),
    }
}

/// Memory was refused, or reading failed.
pub(crate) fn read_failure(error: &io::Error) -> RunError
    ensures { result ≢ RunError.Write }
{
    match error.kind() {
        io::ErrorKind::OutOfMemory => RunError::Memory,
        _ => RunError::Read,
    }
}

/// The bytes of a plan's file, or the first of them where there are too many.
fn read_plan_file<R: Files + AllocGlobal>(rt: &R, path: &str) -> Result<Vec<u8>, RunError> {
    match fs::open(rt, path) {
        Ok(file) => read_plan(rt.alloc(), &mut FromRead::new(file)),
        Err(error) => Err(read_failure(&error)),
    }
}

/// Runs a command on a file of a plan.
fn plan_file<R: Files + AllocGlobal + Print>(
    rt: &R,
    command: PlanCommand,
    path: &str,
) -> Result<Status, RunError> {
    let plan = read_plan_file(rt, path)?;
    let out = IntoWrite::new(io::writer(rt));
    run_on_plan(rt.alloc(), command, plan.as_slice(), out).1
}

/// Runs a command on a log, or on routes.
fn report_from<R: AllocGlobal + RandomSource + Print, L: Read + Drop>(
    rt: &R,
    command: ReadCommand,
    plan: &[u8],
    text: L,
) -> Result<Status, RunError> {
    let (Ok(prefixes), Ok(others)) = (RandomState::new(rt), RandomState::new(rt)) else {
        return Err(RunError::Read);
    };
    let out = IntoWrite::new(io::writer(rt));
    let text = FromRead::new(text);
    let (_, _, outcome) = match command {
        ReadCommand::Judged(command) => {
            run_on_log(rt.alloc(), command, plan, text, out, prefixes)
        }
        ReadCommand::Anyway(command) => {
            run_anyway(rt.alloc(), command, plan, text, out, prefixes, others)
        }
        ReadCommand::Watch(watching) => {
            run_watch(rt.alloc(), plan, text, out, watching, prefixes)
        }
        ReadCommand::Own(command) => {
            run_on_routes(rt.alloc(), command, plan, text, out, prefixes, others)
        }
    };
    outcome
}

/// What someone is told who sits at the standard input that a command reads.
fn waiting_text<'a>(command: &ReadCommand) -> &'a str {
    match command {
        ReadCommand::Own(_) => "reading the routes from standard input",
        _ => "reading the log from standard input",
    }
}

/// Standard input, of which the text tells someone who sits at it.
pub(crate) fn told_input<R: Input + Eprint>(rt: &R, text: &str) -> R::Reader
where
    R::Reader: IsTerminal,
{
    let input = rt.reader();
    if input.is_terminal() {
        // A failed write to standard error does not change the status.
        let _ = rt.eprintln(text);
    }
    input
}

/// Runs a command on a file of a plan and on a log or routes, which are standard input where no
/// file is named.
fn report_file<R: Files + AllocGlobal + RandomSource + Input + Print + Eprint>(
    rt: &R,
    command: ReadCommand,
    path: &str,
    text: Option<&str>,
) -> Result<Status, RunError>
where
    R::Reader: IsTerminal,
{
    let plan = read_plan_file(rt, path)?;
    match text {
        None => {
            let input = told_input(rt, waiting_text(&command));
            report_from(rt, command, plan.as_slice(), input)
        }
        Some(text) => match fs::open(rt, text) {
            Ok(file) => report_from(rt, command, plan.as_slice(), file),
            Err(error) => Err(read_failure(&error)),
        },
    }
}

/// Refuses a word of `log`, by its number: it names no file and link, or standard input a second
/// time. It is not told itself: a file's name could hold a line feed.
fn refuse_word(rt: &impl Eprint, word: &str, number: usize) -> Result<Status, RunError> {
    let fault = match capture_word(word) {
        None => "names no file and link",
        Some(_) => "is standard input a second time",
    };
    // A failed write to standard error does not change the status.
    let _ = eprintln!(rt; "error: word {number} of log {fault}");
    Ok(Status::Refused)
}

/// Makes a log of capture files, if all words name some.
fn run_log_command<R: Files + AllocGlobal + Input + Print + Eprint>(
    rt: &R,
    manner: Manner,
    words: &[&str],
) -> Result<Status, RunError>
where
    R::Reader: IsTerminal,
{
    match first_bad_word(words) {
        None => {
            let out = IntoWrite::new(io::writer(rt));
            let (_, _, outcome) = log_files(rt, manner, words, out);
            outcome
        }
        Some(at) => refuse_word(rt, words[at], at + 1),
    }
}

/// Runs the command that was found, if it has its words.
fn run_found<R: Files + AllocGlobal + RandomSource + Input + Print + Eprint>(
    rt: &R,
    word: &str,
    words: &ArgMatches<'_>,
) -> Option<Result<Status, RunError>>
where
    R::Reader: IsTerminal,
{
    if word == "decode" {
        let hex = words.get_str("HEX")?;
        return Some(run_decode(hex, IntoWrite::new(io::writer(rt))).1);
    }
    if word == "log" {
        let kept = manner(
            words.get_flag("without-authentication"),
            words.get_flag("times"),
        );
        return Some(run_log_command(rt, kept, words.get_strs("FILE")?));
    }
    let path = words.get_str("PLAN")?;
    if word == "watch" {
        let window = words.get_one::<u32>("window");
        let command = ReadCommand::Watch(watching(window, words.get_flag("until-settled"))?);
        return Some(report_file(rt, command, path, words.get_str("LOG")));
    }
    let all = words.get_flag("all");
    if let Some(command) = plan_command(word, all) {
        return Some(plan_file(rt, command, path));
    }
    let command = read_command(
        word,
        all,
        words.get_flag("anyway"),
        words.get_flag("routes"),
    )?;
    Some(report_file(rt, command, path, words.get_str("LOG")))
}

/// Runs the command that was found.
fn run_command<R: Files + AllocGlobal + RandomSource + Input + Print + Eprint>(
    rt: &R,
    matches: &ArgMatches<'_>,
) -> u8
where
    R::Reader: IsTerminal,
{
    let outcome = match matches.subcommand() {
        Some((word, words)) => run_found(rt, word, words),
        None => None,
    };
    end_run(rt, outcome.unwrap_or(Ok(Status::Refused)))
}

/// Runs the command that the words ask for, and answers the exit status.
pub(crate) fn run(rt: &HostRuntime) -> u8 {
    let alloc = rt.alloc();
    let words: Vec<String> = match env::args(rt).and_then(|words| words
        .collect(alloc)
        .map_err(io::Error::from))
    {
        Ok(words) => words,
        Err(error) => return end_arguments(rt, &error),
    };
    let command = match commands(alloc) {
        Ok(command) => command,
        Err(AllocError) => return end_run(rt, Err(RunError::Memory)),
    };
    match command.try_get_matches_from(words.as_slice()) {
        Ok(matches) => run_command(rt, &matches),
        Err(error) => end_words(rt, &error),
    }
}

/// The end of a run whose arguments could not be had.
fn end_arguments(rt: &impl Eprint, error: &io::Error) -> u8 {
    if error.kind() == io::ErrorKind::InvalidData {
        let _ = rt.eprintln("error: an argument is no text");
        return exit_code(&Ok(Status::Refused));
    }
    end_run(rt, Err(read_failure(error)))
}
