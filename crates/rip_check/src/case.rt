//! A prefix of a table, by the plan.

ghost use Rattle.std.specs.Prelude.{◌≡◌, ◌↔◌, ◌<◌, ℕ, Decides, IfSome, Some, false, is_some, length, true};
ghost use Rattle.rip_plan.specs.PrefixNetworks.{IsNetwork};
ghost use Rattle.rip_plan.specs.Relations.{Exchanges, HasList, IsAttached, IsKept, IsLawful};
ghost use Rattle.rip_table.specs.State.{Fits};
ghost use Rattle.rip_check.specs.Fitting.{Fits-prop};
ghost use Rattle.rip_check.specs.Told.{told};
ghost use Rattle.rip_check.specs.TwoLeasts.{AreLeastShown};

use crate::links::TwoLeast;
use rip_plan::Plan;
use rip_table::Table;

/// A prefix of a table, by the plan that the table fits: what the places of the prefix are asked of.
/// They are asked by the network of the prefix, which is without the links that do not exchange it.
#[derive(Drop)]
pub struct Case<'a, T: Table> {
    pub plan: &'a Plan,
    pub table: &'a T,
    /// The number of the prefix in the table.
    pub prefix: usize,
    // The two least metrics that are told on each link, and which links do not exchange the prefix,
    // where this is known.
    pub(crate) links: Option<&'a [TwoLeast]>,
    pub ghost fits: { Fits plan.now (T.state table.now) } by { Fits-prop },
    pub ghost within: { prefix < length (T.state table.now).prefixes },
    pub ghost least: { ∥ IfSome links (λ l.
        AreLeastShown plan.now (told plan.now (T.state table.now)) prefix l.now) ∥₁ },
}

impl<'a, T: Table> Case<'a, T> {
    ghost use Rattle.rip_check.specs.Cases.{block_of, network_of, plan_of, told_in};

    /// The case of a prefix, by its number.
    pub fn new(plan: &'a Plan, table: &'a T, prefix: usize) -> Case<'a, T>
        requires fits { Fits plan.now (T.state table.now) }
        requires prefix { prefix < length (T.state table.now).prefixes }
        ensures plan { result.plan.now ≡ plan.now }
        ensures table { result.table.now ≡ table.now }
        ensures prefix { result.prefix ≡ prefix }
    {
        Case {
            plan,
            table,
            prefix,
            links: None,
        }
    }

    /// The same case, with the two least metrics that are told of the prefix on each link.
    pub(crate) fn with_links(&self, links: &'a [TwoLeast]) -> Case<'a, T>
        requires { AreLeastShown (plan_of self.now) (told_in self.now) self.now.prefix links.now }
        ensures plan { result.plan.now ≡ self.now.plan.now }
        ensures table { result.table.now ≡ self.now.table.now }
        ensures prefix { result.prefix ≡ self.now.prefix }
        ensures links { IfSome result.links (λ l. l.now ≡ links.now) }
        ensures known { is_some result.links ≡ true }
    {
        Case {
            plan: self.plan,
            table: self.table,
            prefix: self.prefix,
            links: Some(links),
        }
    }

    /// The plan keeps its laws, and the network of the prefix those of a network. This does nothing
    /// when it runs.
    pub(crate) fn lawful(&self)
        ensures plan { IsLawful (plan_of self.now) }
        ensures network { IsNetwork (network_of self.now) }
    {
        self.plan.lawful();
    }

    /// Whether routers exchange the prefix over a link, where some link has a list.
    fn exchanges_by_list(&self, link: usize) -> bool
        requires { link < length (plan_of self.now).links }
        ensures { Decides result (Exchanges (plan_of self.now) link (block_of self.now)) }
    {
        self.plan.lawful();
        match self.links {
            Some(links) => {
                let two = links[link];
                !two.is_closed()
            }
            None => self.plan.exchanges(link, self.table.prefix(self.prefix)),
        }
    }

    /// Whether routers exchange the prefix over a link.
    #[inline(always)]
    pub fn exchanges(&self, link: usize) -> bool
        requires { link < length (plan_of self.now).links }
        ensures { Decides result (Exchanges (plan_of self.now) link (block_of self.now)) }
    {
        !self.plan.has_lists() || self.exchanges_by_list(link)
    }

    /// The same, in a plan in which no link has a list, or in one in which some link may have one: a
    /// loop over interfaces asks so.
    #[inline(always)]
    pub(crate) fn exchanges_where<const LISTS: bool>(&self, link: usize) -> bool
        requires link { link < length (plan_of self.now).links }
        requires free { LISTS ≡ false → (l : ℕ) → HasList (plan_of self.now) l → ⊥ }
        ensures { Decides result (Exchanges (plan_of self.now) link (block_of self.now)) }
    {
        !LISTS || self.exchanges_by_list(link)
    }

    /// The link to which a router has the prefix attached, if it exchanges the prefix.
    pub(crate) fn attached_link(&self, router: usize) -> Option<usize>
        ensures { (l : ℕ) → (result ≡ Some l)
            ↔ IsAttached (network_of self.now) router self.now.prefix l }
    {
        self.lawful();
        match self.plan.attached_link(router, self.prefix) {
            Some(link) if self.exchanges(link) => Some(link),
            _ => None,
        }
    }

    /// Whether a router keeps the prefix.
    pub(crate) fn keeps(&self, router: usize) -> bool
        ensures { Decides result (IsKept (network_of self.now) router self.now.prefix) }
    {
        self.plan.keeps(router, self.prefix)
    }
}
