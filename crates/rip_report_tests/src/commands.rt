//! The commands that read a log or routes, each by its name, and a text of the triangle for each.

use rip_log::{FromRead, IntoWrite};
use rip_report::{
    RunError, Status, run_audit, run_audit_routes, run_explain, run_explain_routes, run_heard,
    run_routes, run_routes_anyway, run_table, run_table_anyway,
};
use rip_tests::examples::{BAD, PHANTOM, SETTLED, TRIANGLE};
use std::alloc::Global;
use std::hash::{BuildHasherDefault, FoldHasher};
use std::io::{Read, Write};

/// The commands that end at the first refused line of a log.
#[derive(Clone, Copy)]
pub(crate) enum LogCommand {
    Audit { all: bool },
    Explain { all: bool },
    Routes,
    Table,
}

/// The commands that read a log to its end.
#[derive(Clone, Copy)]
pub(crate) enum AnywayCommand {
    Heard,
    Routes,
    Table,
}

/// The commands that read the routers' own tables.
#[derive(Clone, Copy)]
pub(crate) enum OwnCommand {
    Audit { all: bool },
    Explain { all: bool },
}

#[derive(Clone, Copy)]
pub(crate) enum Command {
    Log(LogCommand),
    Anyway(AnywayCommand),
    Own(OwnCommand),
}

/// A command, a text of the triangle, and the status.
#[derive(Clone, Copy)]
pub(crate) struct Row {
    pub(crate) command: Command,
    pub(crate) input: &'static str,
    pub(crate) status: Status,
}

/// Routers that agree, but for r2, which has a dearer route to its own link.
const DEARER: &str = "r1 10.1.0.0/16 1 here
r1 10.2.0.0/16 2 over a
r1 10.3.0.0/16 1 here
r2 10.1.0.0/16 2 here
r2 10.2.0.0/16 1 here
r2 10.3.0.0/16 2 over a
r3 10.1.0.0/16 2 over b
r3 10.2.0.0/16 1 here
r3 10.3.0.0/16 1 here
";

/// A row for each command, one of each kind first.
pub(crate) const ROWS: [Row; 11] = [
    Row {
        command: Command::Log(LogCommand::Audit { all: false }),
        input: SETTLED,
        status: Status::Settled,
    },
    Row {
        command: Command::Anyway(AnywayCommand::Heard),
        input: BAD,
        status: Status::Unclear,
    },
    Row {
        command: Command::Own(OwnCommand::Audit { all: true }),
        input: DEARER,
        status: Status::Unsettled,
    },
    Row {
        command: Command::Log(LogCommand::Audit { all: true }),
        input: PHANTOM,
        status: Status::Unsettled,
    },
    Row {
        command: Command::Log(LogCommand::Explain { all: false }),
        input: PHANTOM,
        status: Status::Unsettled,
    },
    Row {
        command: Command::Log(LogCommand::Routes),
        input: SETTLED,
        status: Status::Done,
    },
    Row {
        command: Command::Log(LogCommand::Table),
        input: SETTLED,
        status: Status::Done,
    },
    Row {
        command: Command::Anyway(AnywayCommand::Routes),
        input: BAD,
        status: Status::Refused,
    },
    Row {
        command: Command::Anyway(AnywayCommand::Table),
        input: BAD,
        status: Status::Refused,
    },
    Row {
        command: Command::Own(OwnCommand::Explain { all: false }),
        input: DEARER,
        status: Status::Unsettled,
    },
    Row {
        command: Command::Own(OwnCommand::Explain { all: true }),
        input: "r2 10.1.0.0/16 7 over b\n",
        status: Status::Unclear,
    },
];

/// A hasher as each table takes one.
pub(crate) fn hasher() -> BuildHasherDefault<FoldHasher> {
    BuildHasherDefault::<FoldHasher>::new()
}

fn run_log<L: Read + Drop, W: Write>(
    alloc: Global,
    command: LogCommand,
    log: FromRead<L>,
    out: IntoWrite<W>,
) -> (FromRead<L>, IntoWrite<W>, Result<Status, RunError>) {
    let plan = TRIANGLE.as_bytes();
    match command {
        LogCommand::Audit { all } => run_audit(alloc, plan, log, out, all, hasher()),
        LogCommand::Explain { all } => run_explain(alloc, plan, log, out, all, hasher()),
        LogCommand::Routes => run_routes(alloc, plan, log, out, hasher()),
        LogCommand::Table => run_table(alloc, plan, log, out, hasher()),
    }
}

fn run_anyway<L: Read + Drop, W: Write>(
    alloc: Global,
    command: AnywayCommand,
    log: FromRead<L>,
    out: IntoWrite<W>,
) -> (FromRead<L>, IntoWrite<W>, Result<Status, RunError>) {
    let plan = TRIANGLE.as_bytes();
    match command {
        AnywayCommand::Heard => run_heard(alloc, plan, log, out, hasher(), hasher()),
        AnywayCommand::Routes => run_routes_anyway(alloc, plan, log, out, hasher()),
        AnywayCommand::Table => run_table_anyway(alloc, plan, log, out, hasher()),
    }
}

fn run_own<L: Read + Drop, W: Write>(
    alloc: Global,
    command: OwnCommand,
    routes: FromRead<L>,
    out: IntoWrite<W>,
) -> (FromRead<L>, IntoWrite<W>, Result<Status, RunError>) {
    let plan = TRIANGLE.as_bytes();
    match command {
        OwnCommand::Audit { all } => {
            run_audit_routes(alloc, plan, routes, out, all, hasher(), hasher())
        }
        OwnCommand::Explain { all } => {
            run_explain_routes(alloc, plan, routes, out, all, hasher(), hasher())
        }
    }
}

/// Runs a command on a text of the triangle.
pub(crate) fn run<L: Read + Drop, W: Write>(
    alloc: Global,
    command: Command,
    input: L,
    out: IntoWrite<W>,
) -> (FromRead<L>, IntoWrite<W>, Result<Status, RunError>) {
    let input = FromRead::new(input);
    match command {
        Command::Log(command) => run_log(alloc, command, input, out),
        Command::Anyway(command) => run_anyway(alloc, command, input, out),
        Command::Own(command) => run_own(alloc, command, input, out),
    }
}
