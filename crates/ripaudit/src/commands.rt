//! The commands that the words may ask for, and what each of them runs.

ghost use Rattle.std.specs.Prelude.{◌≡◌, ◌≢◌, ◌⊎◌, ◌+◌, ◌≤◌, ◌<◌, ◌↔◌, ◌++◌, ℕ, List, Bool, Option, Some, None, Ok, Err, false, true, codes, length, IfOk, IfSome, IsSomeAnd};
ghost use Rattle.rip_plan.specs.Network.{Network};
ghost use Rattle.rip_plan.specs.Relations.{IsPlain};
ghost use Rattle.rip_table.specs.State.{State};
ghost use Rattle.rip_table.specs.declared.limits.TheConstants.{MOST_WINDOW};
ghost use Rattle.rip_routes.specs.OwnTables.{OwnTables};
ghost use Rattle.rip_check.specs.Laws.{OneIsShown};
ghost use Rattle.rip_check.specs.Told.{told};
ghost use Rattle.rip_report.specs.AuditText.{AnswersRightly, IsJudged, ShowsPlainRightTables};
ghost use Rattle.rip_report.specs.Given.{IsGiven};
ghost use Rattle.rip_report.specs.OwnRuns.{RunsOnRoutes};
ghost use Rattle.rip_report.specs.OwnText.{AreTold, JudgesRightly};
ghost use Rattle.rip_report.specs.ReportText.{AreRead, IsAccepted};
ghost use Rattle.rip_report.specs.Runs.{RunsOnLog, RunsOnPlan, RunsToEnd};
ghost use Rattle.rip_report.specs.declared.captures.authentication.Authentication.{Authentication};
ghost use Rattle.ripaudit.specs.declared.commands.TheConstants.{PIECE_LEN};
ghost use Rattle.ripaudit.specs.CommandText.{AnywayCommandText, LogCommandText, OwnCommandText, PlanCommandText};

use rip_log::{Failed, Sink, Source};
use rip_plan::MOST_PLAN_BYTES;
use rip_report::laws::accepted_tables;
use rip_report::{
    Authentication, Manner, RunError, Status, Watching, run_audit, run_audit_routes, run_expect,
    run_explain, run_explain_routes, run_heard, run_plan, run_routes, run_routes_anyway, run_table,
    run_table_anyway, run_whatif,
};
use rip_table::WindowLength;
use std::alloc::Global;
use std::hash::BuildHasher;

/// The seconds of a window, if none are asked for.
const DEFAULT_WINDOW: u32 = 90;

/// The bytes that are pulled at once from the file of a plan.
const PIECE_LEN: usize = 4_096;

/// The commands that read a plan alone.
#[derive(Clone, Copy)]
pub(crate) enum PlanCommand {
    /// The parts of the plan.
    Plan,
    /// Its right routes.
    Expect,
    /// What each failure would cost, with a line for each pair that is lost and each prefix that is
    /// gone where all are asked for.
    WhatIf { all: bool },
}

/// The commands that read a log up to the first line that is refused.
#[derive(Clone, Copy)]
pub(crate) enum LogCommand {
    /// The verdict, with a line for each place that does not hold where all are asked for.
    Audit { all: bool },
    /// The verdict and what it comes from, for the first place that does not hold or for all.
    Explain { all: bool },
    /// The route that each router has, by what it shows.
    Routes,
    /// What each interface shows.
    Table,
}

/// The commands that read a log to its end, whatever its lines say.
#[derive(Clone, Copy)]
pub(crate) enum AnywayCommand {
    /// Who is in the log, and all that is refused.
    Heard,
    /// The routes of what is not refused.
    Routes,
    /// The table of what is not refused.
    Table,
}

/// The commands that read what routers tell of their own tables.
#[derive(Clone, Copy)]
pub(crate) enum OwnCommand {
    /// The verdict, with a line for each place that does not hold where all are asked for.
    Audit { all: bool },
    /// The verdict and what it comes from, for the first place that does not hold or for all.
    Explain { all: bool },
}

/// The commands that read a plan and a second text.
#[derive(Clone, Copy)]
pub(crate) enum ReadCommand {
    /// Those that read a log, and end at the first line that is refused.
    Judged(LogCommand),
    /// Those that read a log to its end, whatever its lines say.
    Anyway(AnywayCommand),
    /// The one that reads a log with times.
    Watch(Watching),
    /// Those that read what routers tell of their own tables.
    Own(OwnCommand),
}

/// The command of that name that reads a plan alone, with all that is lost where it is asked for.
pub(crate) fn plan_command(word: &str, all: bool) -> Option<PlanCommand>
    ensures plan { (result ≡ Some PlanCommand.Plan) ↔ (word.now ≡ codes "plan") }
    ensures expect { (result ≡ Some PlanCommand.Expect) ↔ (word.now ≡ codes "expect") }
    ensures whatif { (result ≡ Some (PlanCommand.WhatIf all)) ↔ (word.now ≡ codes "whatif") }
    ensures no_other { word.now ≢ codes "plan" → word.now ≢ codes "expect" →
        word.now ≢ codes "whatif" → result ≡ None }
{
    match word {
        "plan" => Some(PlanCommand::Plan),
        "expect" => Some(PlanCommand::Expect),
        "whatif" => Some(PlanCommand::WhatIf { all }),
        _ => None,
    }
}

/// The command of that name that reads a log or routes, by its flags: `all` for all places,
/// `anyway` for what is not refused, `routes` for the routers' own tables in the place of a log.
pub(crate) fn read_command(word: &str, all: bool, anyway: bool, routes: bool) -> Option<ReadCommand>
    ensures audit { (result ≡ Some (ReadCommand.Judged (LogCommand.Audit all)))
        ↔ ((word.now ≡ codes "audit") × (routes ≡ false)) }
    ensures explain { (result ≡ Some (ReadCommand.Judged (LogCommand.Explain all)))
        ↔ ((word.now ≡ codes "explain") × (routes ≡ false)) }
    ensures audit_routes { (result ≡ Some (ReadCommand.Own (OwnCommand.Audit all)))
        ↔ ((word.now ≡ codes "audit") × (routes ≡ true)) }
    ensures explain_routes { (result ≡ Some (ReadCommand.Own (OwnCommand.Explain all)))
        ↔ ((word.now ≡ codes "explain") × (routes ≡ true)) }
    ensures routes { (result ≡ Some (ReadCommand.Judged LogCommand.Routes))
        ↔ ((word.now ≡ codes "routes") × (anyway ≡ false)) }
    ensures table { (result ≡ Some (ReadCommand.Judged LogCommand.Table))
        ↔ ((word.now ≡ codes "table") × (anyway ≡ false)) }
    ensures heard { (result ≡ Some (ReadCommand.Anyway AnywayCommand.Heard))
        ↔ (word.now ≡ codes "heard") }
    ensures routes_anyway { (result ≡ Some (ReadCommand.Anyway AnywayCommand.Routes))
        ↔ ((word.now ≡ codes "routes") × (anyway ≡ true)) }
    ensures table_anyway { (result ≡ Some (ReadCommand.Anyway AnywayCommand.Table))
        ↔ ((word.now ≡ codes "table") × (anyway ≡ true)) }
    ensures no_other { word.now ≢ codes "audit" → word.now ≢ codes "explain" →
        word.now ≢ codes "routes" → word.now ≢ codes "table" → word.now ≢ codes "heard" →
        result ≡ None }
{
    Some(match word {
        "audit" if routes => ReadCommand::Own(OwnCommand::Audit { all }),
        "audit" => ReadCommand::Judged(LogCommand::Audit { all }),
        "explain" if routes => ReadCommand::Own(OwnCommand::Explain { all }),
        "explain" => ReadCommand::Judged(LogCommand::Explain { all }),
        "routes" if anyway => ReadCommand::Anyway(AnywayCommand::Routes),
        "routes" => ReadCommand::Judged(LogCommand::Routes),
        "table" if anyway => ReadCommand::Anyway(AnywayCommand::Table),
        "table" => ReadCommand::Judged(LogCommand::Table),
        "heard" => ReadCommand::Anyway(AnywayCommand::Heard),
        _ => return None,
    })
}

/// How a log is written, by its flags: without authentication where that fits, and with times.
pub(crate) fn manner(without_authentication: bool, times: bool) -> Manner
    ensures removed { without_authentication ≡ true →
        result.authentication ≡ Authentication.Removed }
    ensures as_sent { without_authentication ≡ false →
        result.authentication ≡ Authentication.AsSent }
    ensures times { result.times ≡ times }
{
    let authentication = if without_authentication {
        Authentication::Removed
    } else {
        Authentication::AsSent
    };
    Manner {
        authentication,
        times,
    }
}

/// How to watch, by the seconds of the window, 90 if left out, and by its flag.
pub(crate) fn watching(window: Option<u32>, until_settled: bool) -> Option<Watching>
    ensures default { window ≡ None → IsSomeAnd result (λ w. w.length ≡ 90) }
    ensures given { (seconds : ℕ) → window ≡ Some seconds → 1 ≤ seconds → seconds ≤ MOST_WINDOW →
        IsSomeAnd result (λ w. w.length ≡ seconds) }
    ensures until { IfSome result (λ w. w.until_settled ≡ until_settled) }
{
    let length = WindowLength::new(window.unwrap_or(DEFAULT_WINDOW))?;
    Some(Watching {
        length,
        until_settled,
    })
}

/// All bytes of a plan's file, or the first of them where there are more than a plan may have.
pub(crate) fn read_plan<R: Source>(alloc: Global, file: &mut R) -> Result<Vec<u8>, RunError>
    ensures given { IfOk result (λ bytes. R.given file.new ≡ R.given file.old ++ bytes.items) }
    ensures whole { IfOk result (λ bytes.
        (R.at_end file.new ≡ true) ⊎ (MOST_PLAN_BYTES < length bytes.items)) }
    ensures few { IfOk result (λ bytes. length bytes.items ≤ MOST_PLAN_BYTES + PIECE_LEN) }
    ensures read { result ≡ Err RunError.Read → R.broken file.new ≡ true }
    ensures mark { result ≢ Err RunError.Read → R.broken file.new ≡ R.broken file.old }
    ensures write { result ≢ Err RunError.Write }
    // Memory comes only while the file has given no more than a plan may have.
    ensures memory { result ≡ Err RunError.Memory → (bytes : List ℕ)
        × (R.given file.new ≡ R.given file.old ++ bytes) × (length bytes ≤ MOST_PLAN_BYTES) }
{
    let mut bytes = Vec::new(alloc);
    'pieces: while bytes.len() <= MOST_PLAN_BYTES {
        let len = bytes.len();
        let Ok(()) = bytes.resize(len + PIECE_LEN, 0u8) else {
            return Err(RunError::Memory);
        };
        let Ok(count) = file.pull(&mut bytes.as_mut_slice()[len..]) else {
            return Err(RunError::Read);
        };
        bytes.truncate(len + count);
        if count == 0 {
            return Ok(bytes);
        }
    }
    Ok(bytes)
}

/// Runs a command on the bytes of a plan. The sink comes back.
pub(crate) fn run_on_plan<K: Sink>(
    alloc: Global,
    command: PlanCommand,
    plan: &[u8],
    out: K,
) -> (K, Result<Status, RunError>)
    ensures runs { RunsOnPlan K.Sink (PlanCommandText command) plan.now out result }
{
    match command {
        PlanCommand::Plan => run_plan(alloc, plan, out),
        PlanCommand::Expect => run_expect(alloc, plan, out),
        PlanCommand::WhatIf { all } => run_whatif(alloc, plan, out, all),
    }
}

/// Runs a command on the bytes of a plan and on a log. The source and the sink come
/// back.
pub(crate) fn run_on_log<R: Source, K: Sink, S: BuildHasher + Drop>(
    alloc: Global,
    command: LogCommand,
    plan: &[u8],
    log: R,
    out: K,
    hasher: S,
) -> (R, K, Result<Status, RunError>)
    // What it prints and leaves, by the text of the command.
    ensures runs { RunsOnLog R.Source K.Sink (LogCommandText command) plan.now log out result }
    // `audit` answers Settled exactly where the log shows right tables, and then packets arrive.
    ensures headline { (all : Bool) → command ≡ LogCommand.Audit all →
        (text : List ℕ) → IsGiven R.given R.at_end log result.0 text →
        (n : Network) (s : State) → AreRead plan.now text n s →
        IfOk result.2 (AnswersRightly n s) }
    // The same of all the text that was to come, where its bytes are modelled.
    ensures known { (all : Bool) → command ≡ LogCommand.Audit all →
        (text : List ℕ) → R.coming log ≡ Some text →
        (n : Network) (s : State) → AreRead plan.now text n s →
        IfOk result.2 (AnswersRightly n s) }
    // Of a plan that says nothing beside RFC 2453 the paths of `audit` go over any neighbours.
    ensures plain { (all : Bool) → command ≡ LogCommand.Audit all →
        (text : List ℕ) → IsGiven R.given R.at_end log result.0 text →
        (n : Network) (s : State) → IsAccepted plan.now text n s → IsPlain n →
        IfOk result.2 (λ status. (status ≡ Status.Settled) ↔ ShowsPlainRightTables n s) }
    // No two sets of tables are shown.
    ensures one_set { (text : List ℕ) → IsGiven R.given R.at_end log result.0 text →
        (n : Network) (s : State) → IsAccepted plan.now text n s →
        OneIsShown n (told n s) }
    // What each verdict of `audit` is answered for.
    ensures judged { (all : Bool) → command ≡ LogCommand.Audit all →
        (text : List ℕ) → IsGiven R.given R.at_end log result.0 text →
        (n : Network) (s : State) → IsAccepted plan.now text n s →
        IfOk result.2 (IsJudged n s) }
{
    accepted_tables();
    match command {
        LogCommand::Audit { all } => run_audit(alloc, plan, log, out, all, hasher),
        LogCommand::Explain { all } => run_explain(alloc, plan, log, out, all, hasher),
        LogCommand::Routes => run_routes(alloc, plan, log, out, hasher),
        LogCommand::Table => run_table(alloc, plan, log, out, hasher),
    }
}

/// Runs a command on the bytes of a plan and on a log, which is read to its end. The source and
/// the sink come back. (Why so many arguments: DECISIONS.md.)
pub(crate) fn run_anyway<R: Source, K: Sink, S: BuildHasher + Drop>(
    alloc: Global,
    command: AnywayCommand,
    plan: &[u8],
    log: R,
    out: K,
    prefixes: S,
    strangers: S,
) -> (R, K, Result<Status, RunError>)
    ensures runs { RunsToEnd R.Source K.Sink (AnywayCommandText command) plan.now log out result }
{
    match command {
        AnywayCommand::Heard => run_heard(alloc, plan, log, out, prefixes, strangers),
        AnywayCommand::Routes => run_routes_anyway(alloc, plan, log, out, prefixes),
        AnywayCommand::Table => run_table_anyway(alloc, plan, log, out, prefixes),
    }
}

/// Runs a command on the bytes of a plan and on what routers tell of their own tables. The source
/// and the sink come back. (Why so many arguments: DECISIONS.md.)
pub(crate) fn run_on_routes<R: Source, K: Sink, S: BuildHasher + Drop>(
    alloc: Global,
    command: OwnCommand,
    plan: &[u8],
    routes: R,
    out: K,
    prefixes: S,
    ways: S,
) -> (R, K, Result<Status, RunError>)
    // What it prints and leaves, by the text of the command.
    ensures runs { RunsOnRoutes R.Source K.Sink (OwnCommandText command) plan.now routes out
        result }
    // Settled is answered exactly where the routers' own tables are right, and then packets arrive.
    ensures headline { (text : List ℕ) → IsGiven R.given R.at_end routes result.0 text →
        (n : Network) (t : OwnTables) → AreTold plan.now text n t →
        IfOk result.2 (JudgesRightly n t) }
{
    match command {
        OwnCommand::Audit { all } => {
            run_audit_routes(alloc, plan, routes, out, all, prefixes, ways)
        }
        OwnCommand::Explain { all } => {
            run_explain_routes(alloc, plan, routes, out, all, prefixes, ways)
        }
    }
}
