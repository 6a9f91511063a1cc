//! The table that the program uses: a grid of cells, by prefix and interface.

ghost use Rattle.std.specs.Prelude.{◌≡◌, ◌<◌, IfOk, IfErr, length, vec_len};
ghost use Rattle.indexmap.specs.IndexMap.{index_map_len};
ghost use Rattle.rip_wire.specs.Prefix.{Block};
ghost use Rattle.rip_table.specs.State.{Fits, IsState, new_state};
ghost use Rattle.rip_table.specs.Rows.{IsGrid, grid_state, planned_rows, rows_of};
ghost use Rattle.rip_table.specs.declared.guesses.TheConstants.{SLOTS};

mod cell;
mod numbers;
mod rows;
pub(crate) mod window;
mod word;

use self::cell::Cell;
use self::numbers::find_numbers;
use self::rows::{Rows, add_new, add_planned};
use crate::error::TableError;
use crate::guesses::SLOTS;
use crate::judging::{Numbers, check};
use crate::table::{MetricTable, Table, none_heard};
use indexmap::IndexMap;
use rip_plan::Plan;
use rip_wire::{Datagram, Entry, Kind, MOST_ENTRIES, Metric, Prefix};
use std::alloc::Global;
use std::hash::BuildHasher;

/// A table in a hashed map, from each prefix to a row with a byte for each interface. The rooms are
/// for the entries of one response, and are kept: to clear them for each would cost more than an
/// entry does.
#[derive(Drop)]
pub struct GridTable<S: BuildHasher> {
    alloc: Global,
    rows: Rows<Cell, S>,
    heard: Vec<bool>,
    guesses: Vec<u16>,
    entry_room: [Entry; MOST_ENTRIES],
    number_room: Numbers,
    ghost valid: { IsState (grid_state heard.items (rows_of rows.entries)) },
    ghost grid: { IsGrid (length heard.items) (rows_of rows.entries) },
    ghost slots: { vec_len guesses ≡ SLOTS },
}

impl<S: BuildHasher> Table for GridTable<S> {
    ghost state = { λ t. grid_state t.heard.items (rows_of t.rows.entries) };

    ghost is_state = { λ t. t.valid };

    fn interface_count(&self) -> usize {
        self.heard.len()
    }

    fn prefix_count(&self) -> usize {
        self.rows.len()
    }

    fn prefix(&self, k: usize) -> Prefix {
        *self.rows.get_index(k).unwrap().0
    }

    fn metric(&self, interface: usize, k: usize) -> Option<Metric> {
        self.rows[k][interface].metric()
    }

    fn heard(&self, interface: usize) -> bool {
        self.heard[interface]
    }
}

impl<S: BuildHasher> MetricTable for GridTable<S> {
    fn take(
        &mut self,
        plan: &Plan,
        interface: usize,
        datagram: &Datagram<'_>,
    ) -> Result<(), TableError> {
        if datagram.kind() == Kind::Request {
            return Ok(());
        }
        let count = datagram.read_entries(&mut self.entry_room);
        find_numbers(
            &self.rows,
            self.guesses.as_mut_slice(),
            &self.entry_room[..count],
            &mut self.number_room,
        );
        let brings = check(
            plan,
            self,
            &self.number_room,
            interface,
            &self.entry_room[..count],
        )?;
        let width = self.heard.len();
        add_new(
            self.alloc,
            &mut self.rows,
            width,
            interface,
            &self.number_room,
            &self.entry_room[..count],
            brings,
        )?;
        self.heard[interface] = true;
        Ok(())
    }
}

impl<S: BuildHasher + Drop> GridTable<S> {
    ghost use Rattle.rip_table.specs.declared.error.TableError.TheVariants.{Memory};

    /// The table of a plan in which nothing was heard. It finds prefixes by hashing with `hasher`;
    /// the log chooses them, so a program hands in one that is seeded at random.
    pub fn with_hasher(alloc: Global, plan: &Plan, hasher: S) -> Result<GridTable<S>, TableError>
        ensures state { IfOk result (λ table.
            ⟦<GridTable<S> as Table>⟧.state table ≡ new_state plan.now) }
        ensures fits { IfOk result (λ table.
            Fits plan.now (⟦<GridTable<S> as Table>⟧.state table)) }
        ensures memory { IfErr result (λ error. error ≡ Memory) }
    {
        let heard = none_heard(alloc, plan.interfaces())?;
        let mut rows = IndexMap::with_hasher(alloc, hasher);
        add_planned(alloc, &mut rows, plan)?;
        let guesses = vec![in alloc; 0u16; SLOTS]?;
        plan.lawful();
        Ok(GridTable {
            alloc,
            rows,
            heard,
            guesses,
            entry_room: [Entry::FILLER; MOST_ENTRIES],
            number_room: [None; MOST_ENTRIES],
        })
    }
}
