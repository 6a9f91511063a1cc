//! Laws of the definitions alone: functions that do nothing, whose contracts hold of all bytes and
//! every document.

ghost use Rattle.std.specs.Prelude.{◌≡◌, ◌≢◌, ◌↔◌, ℕ, ◌<◌, List, None, Some, length, true, false};
ghost use Rattle.toml.specs.Data.{Members};
ghost use Rattle.rip_wire.specs.Prefix.{Block};
ghost use Rattle.rip_plan.specs.Network.{Network, found_at};
ghost use Rattle.rip_plan.specs.Answers.{first_fault};
ghost use Rattle.rip_plan.specs.PlanFaults.{IsFault, PlanFault};
ghost use Rattle.rip_plan.specs.PlanOf.{IsPlanOfText, PlanOf};
ghost use Rattle.rip_plan.specs.PrefixNetworks.{IsNetwork, network_for};
ghost use Rattle.rip_plan.specs.Relations.{Exchanges, HasList, IsAt, IsAttached, IsDirect, IsInterface, IsKept, IsLawful, IsPrefix};
ghost use Rattle.rip_plan.specs.WellFormed.{IsWellFormed};
ghost use Rattle.rip_plan.specs.declared.error.PlanCode.TheVariants.{Memory};
ghost use Rattle.rip_plan.specs.declared.error.PlanError.{PlanError};

use crate::limits::{
    DEFAULT_COST, DEFAULT_KEPT, DEFAULT_POISON, MOST_ALSO, MOST_COST, MOST_INTERFACES, MOST_LINKS,
    MOST_LISTED, MOST_PLACES, MOST_PLAN_BYTES, MOST_ROUTERS,
};

/// The limits of a plan, and its defaults.
pub fn limits()
    ensures bytes { MOST_PLAN_BYTES ≡ 1048576 }
    ensures links { MOST_LINKS ≡ 512 }
    ensures routers { MOST_ROUTERS ≡ 128 }
    ensures interfaces { MOST_INTERFACES ≡ 1024 }
    ensures also { MOST_ALSO ≡ 1024 }
    ensures listed { MOST_LISTED ≡ 1024 }
    ensures places { MOST_PLACES ≡ 1024 }
    ensures cost { MOST_COST ≡ 15 }
    ensures default_cost { DEFAULT_COST ≡ 1 }
    ensures default_kept { DEFAULT_KEPT ≡ false }
    ensures default_poison { DEFAULT_POISON ≡ true }
{}

/// The interface that is found for a link and a sender is the one that has the address there, its
/// own or a further one.
pub fn senders()
    ensures gives { (n : Network) (name : List ℕ) (a i : ℕ) →
        found_at n name a ≡ Some i → IsAt n name a i }
    ensures finds { (n : Network) (name : List ℕ) (a i : ℕ) →
        IsLawful n → IsAt n name a i → found_at n name a ≡ Some i }
{}

/// The network of a prefix is the plan's without the links that do not exchange the prefix: a
/// router of the plan is on those that do, and has, keeps and has attached what it did. It keeps the
/// laws of a network. A plan in which no link has a list is the network of each prefix.
pub fn prefix_networks()
    ensures interfaces { (n : Network) (b : Block) (i r l c : ℕ) → IsLawful n →
        r < length n.routers → IsInterface (network_for n b) i r l c
        ↔ (IsInterface n i r l c × Exchanges n l b) }
    ensures direct { (n : Network) (b : Block) (r p c : ℕ) → IsLawful n → IsPrefix n p b →
        r < length n.routers → IsDirect (network_for n b) r p c ↔ IsDirect n r p c }
    ensures kept { (n : Network) (b : Block) (r p : ℕ) →
        IsKept (network_for n b) r p ↔ IsKept n r p }
    ensures attached { (n : Network) (b : Block) (r p l : ℕ) → IsLawful n →
        IsAttached (network_for n b) r p l ↔ (IsAttached n r p l × Exchanges n l b) }
    ensures laws { (n : Network) (b : Block) → IsLawful n → IsNetwork (network_for n b) }
    ensures same { (n : Network) (b : Block) → ((l : ℕ) → HasList n l → ⊥) →
        network_for n b ≡ n }
{}

/// A document has one plan: two networks that are the plan of one document are equal.
pub fn one_plan()
    ensures { (document : Members) (n m : Network) → PlanOf document n → PlanOf document m → n ≡ m }
{
    rip_wire::laws::names();
    rip_wire::laws::address_texts();
    rip_wire::laws::prefix_texts();
}

/// Bytes are refused exactly by the first of their faults, which is never Memory; and where they
/// have none, they have a plan, which is lawful.
pub fn first_faults()
    ensures told { (bytes : List ℕ) (e : PlanError) →
        (first_fault bytes ≡ Some e) ↔ PlanFault bytes e }
    ensures none { (bytes : List ℕ) →
        (first_fault bytes ≡ None) ↔ ((e : PlanError) → IsFault bytes e → ⊥) }
    ensures plan { (bytes : List ℕ) → ((e : PlanError) → IsFault bytes e → ⊥) →
        (n : Network) × IsPlanOfText bytes n × IsLawful n }
    ensures memory { (bytes : List ℕ) (e : PlanError) → PlanFault bytes e → e.code ≢ Memory }
{
    rip_wire::laws::names();
    rip_wire::laws::address_texts();
    rip_wire::laws::prefix_texts();
}

/// Bytes have no fault exactly where they are well formed: a document of version 1 with the known
/// keys, not too long, whose plan keeps the laws.
pub fn well_formed_texts()
    ensures { (bytes : List ℕ) →
        ((e : PlanError) → IsFault bytes e → ⊥) ↔ IsWellFormed bytes }
{
    first_faults();
    rip_wire::laws::names();
    rip_wire::laws::address_texts();
    rip_wire::laws::prefix_texts();
}
