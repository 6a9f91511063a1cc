//! Reading the text of a plan.

ghost use Rattle.std.specs.Prelude.{◌≡◌, ◌<◌, ◌≤◌, IfErr, IfOk, IsErrOf, None, Ok, false, length, option_map};
ghost use Rattle.std.specs.Str.{is_utf8};
ghost use Rattle.toml.specs.View.{table_view};
ghost use Rattle.rip_plan.specs.Draft.{sketch};
ghost use Rattle.rip_plan.specs.Fault.{Gives};
ghost use Rattle.rip_plan.specs.PlanText.{document_of, sketch_of, sketch_of_document};

use crate::draft::{Draft, add_links, add_routers};
use crate::error::{At, PlanCode, ReadError, fault};
use crate::fields;
use crate::limits::{MOST_LINKS, MOST_PLAN_BYTES, MOST_ROUTERS};
use crate::passes::check_passes;
use std::alloc::Global;
use std::collections::HashMap;
use toml::Table;

/// What a document says of a plan, or its first fault.
#[tactic(auto, unfolding(crate::specs::PlanText::sketch_of_document))]
fn draft_of(alloc: Global, table: &Table) -> Result<Draft, ReadError>
    ensures { Gives sketch result (sketch_of_document (table_view table.now)) }
{
    if !fields::is_version_one(table) {
        return Err(fault(PlanCode::Version, At::Version));
    }
    let Some((links, routers, poison)) = fields::fields_of_root(table) else {
        return Err(fault(PlanCode::Key, At::Text));
    };
    if MOST_LINKS < links.len() || MOST_ROUTERS < routers.len() {
        return Err(fault(PlanCode::Limit, At::Text));
    }
    let mut draft = Draft {
        links: Vec::new(alloc),
        lists: Vec::new(alloc),
        listed: Vec::new(alloc),
        routers: Vec::new(alloc),
        poison,
        interfaces: Vec::new(alloc),
        also: Vec::new(alloc),
        also_count: 0,
        places: Vec::new(alloc),
        numbers: HashMap::new(alloc),
        blocks: HashMap::new(alloc),
    };
    add_links(&mut draft, alloc, links)?;
    add_routers(&mut draft, alloc, routers)?;
    check_passes(alloc, &draft)?;
    Ok(draft)
}

/// The table that the bytes are, where they are a TOML document in UTF-8.
fn table_of(alloc: Global, bytes: &[u8]) -> Result<Option<Table>, ReadError>
    ensures ok { IfOk result (λ t. option_map table_view t ≡ document_of bytes.now) }
    ensures not_utf8 { is_utf8 bytes.now ≡ false → result ≡ Ok None }
    ensures err { IfErr result (λ e. e ≡ ReadError.OutOfMemory) }
{
    match std::str::from_utf8(bytes) {
        Ok(text) => match toml::table_from_str(alloc, text) {
            Ok(table) => Ok(Some(table)),
            Err(error) => {
                if error.is_memory() {
                    Err(ReadError::OutOfMemory)
                } else {
                    Ok(None)
                }
            }
        },
        Err(_) => Ok(None),
    }
}

/// What the bytes of a plan say, or their first fault.
#[tactic(auto, unfolding(crate::specs::PlanText::sketch_of))]
pub(crate) fn read_draft(alloc: Global, bytes: &[u8]) -> Result<Draft, ReadError>
    ensures gives { Gives sketch result (sketch_of bytes.now) }
    ensures long { MOST_PLAN_BYTES < length bytes.now
        → IsErrOf result (ReadError.Fault (record { code = PlanCode.Limit; place = At.Text })) }
    ensures not_utf8 { length bytes.now ≤ MOST_PLAN_BYTES → is_utf8 bytes.now ≡ false
        → IsErrOf result (ReadError.Fault (record { code = PlanCode.Syntax; place = At.Text })) }
{
    if MOST_PLAN_BYTES < bytes.len() {
        return Err(fault(PlanCode::Limit, At::Text));
    }
    let table = table_of(alloc, bytes)?;
    let Some(table) = table else {
        return Err(fault(PlanCode::Syntax, At::Text));
    };
    draft_of(alloc, &table)
}
