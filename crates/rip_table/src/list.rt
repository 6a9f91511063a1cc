//! The plain table: a list of what the interfaces showed.

ghost use Rattle.std.specs.Prelude.{◌≡◌, ◌+◌, ◌≤◌, ◌<◌, List, Bool, true, IfOk, IfErr, OnOk, OnErr, length, vec_len, vec_capacity};
ghost use Rattle.rip_wire.specs.Message.{response};
ghost use Rattle.rip_plan.specs.Network.{number_of_prefix};
ghost use Rattle.rip_table.specs.State.{Fits, IsState, new_state, with_prefix};
ghost use Rattle.rip_table.specs.Joined.{brings_pair};
ghost use Rattle.rip_table.specs.ListState.{AreAdded, IsAdded, list_state, metric_in};
ghost use Rattle.rip_table.specs.Numbers.{AreNumbers};

mod shown;

use self::shown::Shown;
use crate::error::TableError;
use crate::judging::{Numbers, check};
use crate::table::{MetricTable, Table, none_heard};
use rip_plan::Plan;
use rip_wire::{Datagram, Entry, Kind, MOST_ENTRIES, Metric, Prefix};
use std::alloc::{AllocError, Global};

/// The plain table: a list of what the interfaces showed, in the order in which it came.
#[derive(Drop)]
pub struct ListTable {
    prefixes: Vec<Prefix>,
    shown: Vec<Shown>,
    heard: Vec<bool>,
    ghost valid: { IsState (list_state heard.items prefixes.items shown.items) },
}

/// The prefixes of a plan.
fn planned(alloc: Global, plan: &Plan) -> Result<Vec<Prefix>, AllocError>
    ensures { IfOk result (λ prefixes. prefixes.items ≡ plan.now.prefixes) }
{
    let mut prefixes = Vec::with_capacity(alloc, plan.prefixes())?;
    for k in 0..plan.prefixes() {
        prefixes.push_reserved(plan.prefix(k));
    }
    Ok(prefixes)
}

/// The number of a prefix in a list, if it is there.
fn number_in(prefixes: &[Prefix], prefix: Prefix) -> Option<usize>
    ensures { result ≡ number_of_prefix prefix prefixes.now }
{
    prefixes.iter().position(|listed| prefix == *listed)
}

/// The numbers of the prefixes of a response's entries.
fn numbers_of(prefixes: &[Prefix], entries: &[Entry]) -> Numbers
    requires { length entries.now ≤ MOST_ENTRIES }
    ensures { AreNumbers prefixes.now entries.now result }
{
    let mut numbers = [None; MOST_ENTRIES];
    for j in 0..entries.len() {
        let entry = entries[j];
        numbers[j] = number_in(prefixes, entry.prefix);
    }
    numbers
}

/// The first metric of an interface and a prefix.
fn metric_of(shown: &[Shown], interface: usize, prefix: Prefix) -> Option<Metric>
    ensures { result ≡ metric_in interface prefix shown.now }
{
    shown
        .iter()
        .find(|item| interface == item.interface && prefix == item.prefix)
        .map(|item| item.metric)
}

/// Makes room for what a response can bring.
fn make_room(prefixes: &mut Vec<Prefix>, shown: &mut Vec<Shown>) -> Result<(), AllocError>
    ensures prefixes { prefixes.new.items ≡ prefixes.old.items }
    ensures shown { shown.new.items ≡ shown.old.items }
    ensures more_prefixes { OnOk result
        (vec_len prefixes.new + MOST_ENTRIES ≤ vec_capacity prefixes.new) }
    ensures more_shown { OnOk result (vec_len shown.new + MOST_ENTRIES ≤ vec_capacity shown.new) }
{
    prefixes.reserve(MOST_ENTRIES)?;
    shown.reserve(MOST_ENTRIES)
}

/// Adds a prefix, where it is new. There is room for it.
fn add_prefix(prefixes: &mut Vec<Prefix>, prefix: Prefix)
    requires { vec_len prefixes.old < vec_capacity prefixes.old }
    ensures items { prefixes.new.items ≡ with_prefix prefix prefixes.old.items }
    ensures room { vec_capacity prefixes.new ≡ vec_capacity prefixes.old }
    ensures len { vec_len prefixes.new ≤ vec_len prefixes.old + 1 }
{
    if number_in(prefixes.as_slice(), prefix).is_none() {
        prefixes.push_reserved(prefix);
    }
}

/// Adds what an interface shows, where it is new. There is room for it.
fn add(prefixes: &mut Vec<Prefix>, shown: &mut Vec<Shown>, item: Shown)
    requires prefixes { vec_len prefixes.old < vec_capacity prefixes.old }
    requires shown { vec_len shown.old < vec_capacity shown.old }
    ensures items { IsAdded item prefixes.old.items shown.old.items prefixes.new.items
        shown.new.items }
    ensures prefix_room { vec_capacity prefixes.new ≡ vec_capacity prefixes.old }
    ensures prefix_len { vec_len prefixes.new ≤ vec_len prefixes.old + 1 }
    ensures shown_room { vec_capacity shown.new ≡ vec_capacity shown.old }
    ensures shown_len { vec_len shown.new ≤ vec_len shown.old + 1 }
{
    if metric_of(shown.as_slice(), item.interface, item.prefix).is_some() {
        return;
    }
    add_prefix(prefixes, item.prefix);
    shown.push_reserved(item);
}

/// Adds what the entries of a response show. There is room for them.
fn add_all(prefixes: &mut Vec<Prefix>, shown: &mut Vec<Shown>, interface: usize, entries: &[Entry])
    requires few { length entries.now ≤ MOST_ENTRIES }
    requires prefixes { vec_len prefixes.old + MOST_ENTRIES ≤ vec_capacity prefixes.old }
    requires shown { vec_len shown.old + MOST_ENTRIES ≤ vec_capacity shown.old }
    ensures { AreAdded interface entries.now prefixes.old.items shown.old.items prefixes.new.items
        shown.new.items }
{
    for j in 0..entries.len() {
        let entry = entries[j];
        let item = Shown {
            interface,
            prefix: entry.prefix,
            metric: entry.metric,
        };
        add(prefixes, shown, item);
    }
}

/// Adds what the entries of a response show, where they bring anything, or leaves what was there.
fn add_new(
    prefixes: &mut Vec<Prefix>,
    shown: &mut Vec<Shown>,
    interface: usize,
    entries: &[Entry],
    brings: bool,
) -> Result<(), AllocError>
    requires few { length entries.now ≤ MOST_ENTRIES }
    requires brings { (heard : List Bool) →
        brings ≡ brings_pair interface (list_state heard prefixes.old.items shown.old.items)
        (response entries.now) }
    ensures ok { OnOk result (AreAdded interface entries.now prefixes.old.items shown.old.items
        prefixes.new.items shown.new.items) }
    ensures prefixes { OnErr result (prefixes.new.items ≡ prefixes.old.items) }
    ensures shown { OnErr result (shown.new.items ≡ shown.old.items) }
    ensures allocates { OnErr result (brings ≡ true) }
{
    if !brings {
        return Ok(());
    }
    make_room(prefixes, shown)?;
    add_all(prefixes, shown, interface, entries);
    Ok(())
}

impl Table for ListTable {
    ghost state = { λ t. list_state t.heard.items t.prefixes.items t.shown.items };

    ghost is_state = { λ t. t.valid };

    fn interface_count(&self) -> usize {
        self.heard.len()
    }

    fn prefix_count(&self) -> usize {
        self.prefixes.len()
    }

    fn prefix(&self, k: usize) -> Prefix {
        self.prefixes[k]
    }

    fn metric(&self, interface: usize, k: usize) -> Option<Metric> {
        metric_of(self.shown.as_slice(), interface, self.prefixes[k])
    }

    fn heard(&self, interface: usize) -> bool {
        self.heard[interface]
    }
}

impl MetricTable for ListTable {
    fn take(
        &mut self,
        plan: &Plan,
        interface: usize,
        datagram: &Datagram<'_>,
    ) -> Result<(), TableError> {
        if datagram.kind() == Kind::Request {
            return Ok(());
        }
        let mut room = [Entry::FILLER; MOST_ENTRIES];
        let entries = datagram.entries(&mut room);
        let numbers = numbers_of(self.prefixes.as_slice(), entries);
        let brings = check(plan, self, &numbers, interface, entries)?;
        add_new(
            &mut self.prefixes,
            &mut self.shown,
            interface,
            entries,
            brings,
        )?;
        self.heard[interface] = true;
        Ok(())
    }
}

impl ListTable {
    ghost use Rattle.rip_table.specs.declared.error.TableError.TheVariants.{Memory};

    /// The table of a plan in which nothing was heard.
    pub fn new(alloc: Global, plan: &Plan) -> Result<ListTable, TableError>
        ensures state { IfOk result (λ table.
            ⟦<ListTable as Table>⟧.state table ≡ new_state plan.now) }
        ensures fits { IfOk result (λ table.
            Fits plan.now (⟦<ListTable as Table>⟧.state table)) }
        ensures memory { IfErr result (λ error. error ≡ Memory) }
    {
        let prefixes = planned(alloc, plan)?;
        let heard = none_heard(alloc, plan.interfaces())?;
        plan.lawful();
        Ok(ListTable {
            prefixes,
            shown: Vec::new(alloc),
            heard,
        })
    }
}
