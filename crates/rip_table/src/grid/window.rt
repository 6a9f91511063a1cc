//! The table that forgets: what each interface showed last, for so many seconds.

ghost use Rattle.std.specs.Prelude.{◌≡◌, ◌-◌, ◌≤◌, IfErr, IfOk, length, map, vec_len};
ghost use Rattle.indexmap.specs.IndexMap.{index_map_len};
ghost use Rattle.std.specs.List.{remove};
ghost use Rattle.rip_table.specs.State.{Fits, IsState};
ghost use Rattle.rip_table.specs.Rows.{IsGrid, rows_of};
ghost use Rattle.rip_table.specs.Window.{new_window, passed_word, shown};
ghost use Rattle.rip_table.specs.WindowRows.{is_shown_in, kept_rows, passed_rows, window_of};
ghost use Rattle.rip_table.specs.declared.guesses.TheConstants.{SLOTS};

use super::numbers::find_numbers;
use super::rows::{Rows, add, add_planned};
use super::word::WordCell;
use crate::error::TableError;
use crate::guesses::SLOTS;
use crate::judging::{Numbers, check};
use crate::table::Table;
use crate::window_length::WindowLength;
use crate::window_table::WindowTable;
use indexmap::IndexMap;
use rip_plan::Plan;
use rip_wire::{Datagram, Entry, Kind, MOST_ENTRIES, Metric, Prefix};
use std::alloc::Global;
use std::hash::BuildHasher;

/// A table as if one of its interfaces had shown nothing.
#[derive(Drop)]
struct Unshown<'a, T: Table> {
    table: &'a T,
    interface: usize,
}

impl<T: Table> Table for Unshown<'_, T> {
    ghost use Rattle.rip_table.specs.Window.{without_shown};
    ghost use Rattle.rip_table.specs.WindowFacts.{IsState-without_shown};

    ghost state = { λ t. without_shown t.interface (T.state t.table.now) };

    ghost is_state = { λ t. IsState-without_shown t.interface (T.state t.table.now) (T.is_state t.table.now) };

    fn interface_count(&self) -> usize {
        self.table.interface_count()
    }

    fn prefix_count(&self) -> usize {
        self.table.prefix_count()
    }

    fn prefix(&self, k: usize) -> Prefix {
        self.table.prefix(k)
    }

    fn metric(&self, interface: usize, k: usize) -> Option<Metric> {
        if interface == self.interface {
            None
        } else {
            self.table.metric(interface, k)
        }
    }

    fn heard(&self, interface: usize) -> bool {
        self.table.heard(interface)
    }
}

/// A table that forgets, in a hashed map: four bytes for each prefix and interface.
#[derive(Drop)]
pub struct GridWindow<S: BuildHasher> {
    alloc: Global,
    rows: Rows<WordCell, S>,
    heard: Vec<u32>,
    guesses: Vec<u16>,
    entry_room: [Entry; MOST_ENTRIES],
    number_room: Numbers,
    ghost valid: { IsState (shown (window_of heard.items (rows_of rows.entries))) },
    ghost grid: { IsGrid (length heard.items) (rows_of rows.entries) },
    ghost slots: { vec_len guesses ≡ SLOTS },
}

impl<S: BuildHasher> Table for GridWindow<S> {
    ghost state = { λ t. shown (window_of t.heard.items (rows_of t.rows.entries)) };

    ghost is_state = { λ t. t.valid };

    fn interface_count(&self) -> usize {
        self.heard.len()
    }

    fn prefix_count(&self) -> usize {
        self.rows.len()
    }

    fn prefix(&self, k: usize) -> Prefix {
        *self.rows.get_index(k).unwrap().0
    }

    fn metric(&self, interface: usize, k: usize) -> Option<Metric> {
        self.rows[k][interface].metric()
    }

    fn heard(&self, interface: usize) -> bool {
        self.heard[interface] > 0
    }
}

/// A second passes for the cells of a row.
fn pass_row(row: &mut Vec<WordCell>)
    ensures { row.new.items ≡ map passed_word row.old.items }
{
    for i in 0..row.len() {
        row[i] = row[i].passed();
    }
}

/// A second passes for all rows.
fn pass_rows<S: BuildHasher>(rows: &mut Rows<WordCell, S>)
    ensures { rows_of rows.new.entries ≡ passed_rows (rows_of rows.old.entries) }
{
    for k in 0..rows.len() {
        pass_row(&mut rows[k]);
    }
}

/// A second passes for the marks of interfaces that are heard.
fn pass_marks(heard: &mut Vec<u32>)
    ensures { heard.new.items ≡ map (λ left. left - 1) heard.old.items }
{
    for i in 0..heard.len() {
        heard[i] = heard[i].saturating_sub(1);
    }
}

/// Whether an interface shows the prefix of a row.
fn is_shown(row: &Vec<WordCell>) -> bool
    ensures { result ≡ is_shown_in row.now.items }
{
    for i in 0..row.len() {
        if !row[i].is_blank() {
            return true;
        }
    }
    false
}

/// Takes out a row.
fn drop_row<S: BuildHasher>(rows: &mut Rows<WordCell, S>, k: usize)
    ensures { rows_of rows.new.entries ≡ remove (rows_of rows.old.entries) k }
{
    rows.shift_remove_index(k);
}

/// Takes out the rows in which nothing is shown, from the one of this number on.
fn drop_rows<S: BuildHasher>(rows: &mut Rows<WordCell, S>, first: usize)
    requires { first ≤ index_map_len rows.old }
    ensures { rows_of rows.new.entries ≡ kept_rows first (rows_of rows.old.entries) }
{
    for k in (first..rows.len()).rev() {
        if !is_shown(&rows[k]) {
            drop_row(rows, k);
        }
    }
}

impl<S: BuildHasher> WindowTable for GridWindow<S> {
    ghost use Rattle.std.proofs.Common.{refl};

    ghost window = { λ t. window_of t.heard.items (rows_of t.rows.entries) };

    ghost shows = { λ t. refl };

    fn tell(
        &mut self,
        plan: &Plan,
        term: WindowLength,
        interface: usize,
        datagram: &Datagram<'_>,
    ) -> Result<(), TableError> {
        if datagram.kind() == Kind::Request {
            return Ok(());
        }
        let count = datagram.read_entries(&mut self.entry_room);
        find_numbers(
            &self.rows,
            self.guesses.as_mut_slice(),
            &self.entry_room[..count],
            &mut self.number_room,
        );
        let unshown = Unshown {
            table: self,
            interface,
        };
        check(
            plan,
            &unshown,
            &self.number_room,
            interface,
            &self.entry_room[..count],
        )?;
        let width = self.heard.len();
        add(
            self.alloc,
            &mut self.rows,
            width,
            interface,
            term,
            &self.number_room,
            &self.entry_room[..count],
        )?;
        self.heard[interface] = term.get();
        Ok(())
    }

    fn pass(&mut self) {
        pass_rows(&mut self.rows);
        pass_marks(&mut self.heard);
    }

    fn forget(&mut self, plan: &Plan) {
        drop_rows(&mut self.rows, plan.prefixes());
    }
}

impl<S: BuildHasher + Drop> GridWindow<S> {
    ghost use Rattle.rip_table.specs.declared.error.TableError.TheVariants.{Memory};

    /// The table of a plan in which nothing was heard. It finds prefixes by hashing with `hasher`;
    /// the log chooses them, so a program hands in one that is seeded at random.
    pub fn with_hasher(alloc: Global, plan: &Plan, hasher: S) -> Result<GridWindow<S>, TableError>
        ensures window { IfOk result (λ table.
            ⟦<GridWindow<S> as WindowTable>⟧.window table ≡ new_window plan.now) }
        ensures fits { IfOk result (λ table.
            Fits plan.now (⟦<GridWindow<S> as Table>⟧.state table)) }
        ensures memory { IfErr result (λ error. error ≡ Memory) }
    {
        let heard = vec![in alloc; 0u32; plan.interfaces()]?;
        let mut rows = IndexMap::with_hasher(alloc, hasher);
        add_planned(alloc, &mut rows, plan)?;
        let guesses = vec![in alloc; 0u16; SLOTS]?;
        plan.lawful();
        Ok(GridWindow {
            alloc,
            rows,
            heard,
            guesses,
            entry_room: [Entry::FILLER; MOST_ENTRIES],
            number_room: [None; MOST_ENTRIES],
        })
    }
}
