//! Rows of cells, one for each prefix, in a hashed map that keeps their order.

ghost use Rattle.std.specs.Prelude.{◌≡◌, ◌<◌, ◌≤◌, ℕ, Bool, List, [], length, true, false, Some, IfOk, OnOk, OnErr, take};
ghost use Rattle.indexmap.specs.IndexMap.{index_map_len};
ghost use Rattle.rip_plan.specs.Network.{number_of_prefix};
ghost use Rattle.rip_wire.specs.Message.{response};
ghost use Rattle.rip_table.specs.Joined.{brings_pair};
ghost use Rattle.rip_table.specs.State.{is_among};
ghost use Rattle.rip_table.specs.Numbers.{AreNumbers};
ghost use Rattle.rip_table.specs.Rows.{AreRowNumbers, BringsRow, CanWrite, IsGrid, IsMade, IsWritten, cell, grid_state, heads, planned_rows, rows_of, shown_after, with_cell, with_row, with_rows};

use super::cell::{Cell, GridCell};
use crate::judging::Numbers;
use indexmap::IndexMap;
use rip_plan::Plan;
use rip_wire::{Entry, MOST_ENTRIES, Prefix};
use std::alloc::{AllocError, Global};
use std::hash::BuildHasher;

/// A row for each prefix, with a cell for each interface.
pub(crate) type Rows<C, S> = IndexMap<Prefix, Vec<C>, S>;

/// The numbers of the rows of a response's entries.
type RowNumbers = [usize; MOST_ENTRIES];

/// The number of a prefix's row, which is added at the end where there is none. The number is asked
/// for where it is not known.
fn row_at<C: GridCell, S: BuildHasher>(
    alloc: Global,
    rows: &mut Rows<C, S>,
    width: usize,
    number: Option<usize>,
    prefix: Prefix,
) -> Result<usize, AllocError>
    requires { (k : ℕ) → number ≡ Some k →
        number_of_prefix prefix (heads (rows_of rows.old.entries)) ≡ Some k }
    ensures ok { OnOk result (rows_of rows.new.entries
        ≡ with_row C.blank_cell width (rows_of rows.old.entries) prefix) }
    ensures number { IfOk result (λ k.
        number_of_prefix prefix (heads (rows_of rows.new.entries)) ≡ Some k) }
    ensures err { OnErr result (rows.new.entries ≡ rows.old.entries) }
    ensures allocates { OnErr result
        (is_among prefix (heads (rows_of rows.old.entries)) ≡ false) }
{
    if let Some(k) = number {
        return Ok(k);
    }
    if let Some(k) = rows.get_index_of(&prefix) {
        return Ok(k);
    }
    let k = rows.len();
    let row = C::blank_row(alloc, width)?;
    rows.insert(prefix, row)?;
    Ok(k)
}

/// Adds rows for the prefixes that are new, and writes the numbers of all. Where memory fails, some
/// are added.
fn grow<C: GridCell, S: BuildHasher>(
    alloc: Global,
    rows: &mut Rows<C, S>,
    width: usize,
    numbers: &Numbers,
    entries: &[Entry],
    row_numbers: &mut RowNumbers,
) -> Result<(), AllocError>
    requires few { length entries.now ≤ MOST_ENTRIES }
    requires numbers { AreNumbers (heads (rows_of rows.old.entries)) entries.now numbers.now }
    ensures ok { OnOk result (rows_of rows.new.entries
        ≡ with_rows C.blank_cell width (rows_of rows.old.entries) entries.now) }
    ensures row_numbers { OnOk result
        (AreRowNumbers (rows_of rows.new.entries) entries.now row_numbers.new) }
    ensures front { take (index_map_len rows.old) (rows_of rows.new.entries)
        ≡ rows_of rows.old.entries }
    ensures allocates { OnErr result (BringsRow (rows_of rows.old.entries) entries.now) }
{
    for j in 0..entries.len() {
        let entry = entries[j];
        row_numbers[j] = row_at(alloc, rows, width, numbers[j], entry.prefix)?;
    }
    Ok(())
}

/// Adds rows for the prefixes that are new, and writes the numbers of all, or leaves the rows as
/// they were.
fn grow_or_keep<C: GridCell, S: BuildHasher>(
    alloc: Global,
    rows: &mut Rows<C, S>,
    width: usize,
    numbers: &Numbers,
    entries: &[Entry],
    row_numbers: &mut RowNumbers,
) -> Result<(), AllocError>
    requires few { length entries.now ≤ MOST_ENTRIES }
    requires numbers { AreNumbers (heads (rows_of rows.old.entries)) entries.now numbers.now }
    ensures ok { OnOk result (rows_of rows.new.entries
        ≡ with_rows C.blank_cell width (rows_of rows.old.entries) entries.now) }
    ensures row_numbers { OnOk result
        (AreRowNumbers (rows_of rows.new.entries) entries.now row_numbers.new) }
    ensures err { OnErr result (rows_of rows.new.entries ≡ rows_of rows.old.entries) }
    ensures allocates { OnErr result (BringsRow (rows_of rows.old.entries) entries.now) }
{
    let was = rows.len();
    match grow(alloc, rows, width, numbers, entries, row_numbers) {
        Ok(()) => Ok(()),
        Err(refused) => {
            rows.truncate(was);
            Err(refused)
        }
    }
}

/// Writes to a cell.
fn set_cell<C: GridCell, S: BuildHasher>(
    rows: &mut Rows<C, S>,
    k: usize,
    width: usize,
    interface: usize,
    cell: C,
)
    requires grid { IsGrid width (rows_of rows.old.entries) }
    requires row { k < index_map_len rows.old }
    requires cell { interface < width }
    ensures { rows_of rows.new.entries ≡ with_cell (rows_of rows.old.entries) k interface cell }
{
    let row = &mut rows[k];
    row[interface] = cell;
}

/// Makes the cells of a response's entries.
fn write<C: GridCell, S: BuildHasher>(
    rows: &mut Rows<C, S>,
    width: usize,
    interface: usize,
    term: C::Term,
    row_numbers: &RowNumbers,
    entries: &[Entry],
)
    requires few { length entries.now ≤ MOST_ENTRIES }
    requires grid { IsGrid width (rows_of rows.old.entries) }
    requires cell { interface < width }
    requires row_numbers { AreRowNumbers (rows_of rows.old.entries) entries.now row_numbers.now }
    ensures heads { heads (rows_of rows.new.entries) ≡ heads (rows_of rows.old.entries) }
    ensures grid { IsGrid width (rows_of rows.new.entries) }
    ensures cells { cell C.blank_cell (rows_of rows.new.entries) ≡ shown_after (C.cell_of term)
        (cell C.blank_cell (rows_of rows.old.entries)) interface entries.now }
{
    for j in 0..entries.len() {
        let entry = entries[j];
        set_cell(
            rows,
            row_numbers[j],
            width,
            interface,
            C::of(term, entry.metric),
        );
    }
}

/// Makes the cells of a response's entries, or leaves the rows as they were. (Why so many
/// arguments: DECISIONS.md.)
#[inline(never)]
pub(crate) fn add<C: GridCell, S: BuildHasher>(
    alloc: Global,
    rows: &mut Rows<C, S>,
    width: usize,
    interface: usize,
    term: C::Term,
    numbers: &Numbers,
    entries: &[Entry],
) -> Result<(), AllocError>
    requires { CanWrite width interface (rows_of rows.old.entries) numbers.now
        entries.now }
    ensures made { IsMade C.blank_cell (C.cell_of term) width interface entries.now
        (rows_of rows.old.entries) (rows_of rows.new.entries) result }
    ensures grid { IsGrid width (rows_of rows.new.entries) }
    ensures allocates { OnErr result (BringsRow (rows_of rows.old.entries) entries.now) }
{
    let mut row_numbers = [0; MOST_ENTRIES];
    grow_or_keep(alloc, rows, width, numbers, entries, &mut row_numbers)?;
    write(rows, width, interface, term, &row_numbers, entries);
    Ok(())
}

/// Writes what the entries of a response show, where they bring any pair, or leaves the rows as
/// they were. (Why so many arguments: DECISIONS.md.)
pub(crate) fn add_new<S: BuildHasher>(
    alloc: Global,
    rows: &mut Rows<Cell, S>,
    width: usize,
    interface: usize,
    numbers: &Numbers,
    entries: &[Entry],
    brings: bool,
) -> Result<(), AllocError>
    requires can { CanWrite width interface (rows_of rows.old.entries) numbers.now
        entries.now }
    requires brings { (heard : List Bool) →
        brings ≡ brings_pair interface (grid_state heard (rows_of rows.old.entries))
        (response entries.now) }
    ensures written { IsWritten interface entries.now (rows_of rows.old.entries)
        (rows_of rows.new.entries) result }
    ensures grid { IsGrid width (rows_of rows.new.entries) }
    ensures allocates { OnErr result (brings ≡ true) }
{
    if brings {
        add(alloc, rows, width, interface, (), numbers, entries)
    } else {
        Ok(())
    }
}

/// Adds a row for each prefix of a plan.
pub(crate) fn add_planned<C: GridCell, S: BuildHasher>(
    alloc: Global,
    rows: &mut Rows<C, S>,
    plan: &Plan,
) -> Result<(), AllocError>
    requires { rows.old.entries ≡ [] }
    ensures ok { OnOk result (rows_of rows.new.entries
        ≡ planned_rows C.blank_cell (length plan.now.interfaces) plan.now.prefixes) }
{
    plan.lawful();
    for k in 0..plan.prefixes() {
        row_at(alloc, rows, plan.interfaces(), None, plan.prefix(k))?;
    }
    Ok(())
}
