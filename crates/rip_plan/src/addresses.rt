//! The addresses of interfaces, in one list.

ghost use Rattle.std.specs.Prelude.{◌≡◌, ◌++◌, IfOk, length, map};
ghost use Rattle.rip_plan.specs.Addresses.{held_by, held_from};

use crate::parts::Interface;
use rip_wire::Address;
use std::alloc::{AllocError, Global};

/// An address that an interface has on its link.
#[derive(Clone, Copy, Debug)]
pub(crate) struct Held {
    /// The number of the interface.
    pub interface: usize,
    pub link: usize,
    pub address: Address,
}

/// Adds the addresses of the interface of this number: its own, and its further ones.
fn add_addresses(
    held: &mut Vec<Held>,
    number: usize,
    interface: Interface,
    also: &[Address],
) -> Result<(), AllocError>
    ensures { IfOk result (λ done.
        held.new.items ≡ held.old.items ++ held_by number interface also.now) }
{
    let link = interface.link;
    held.push(Held {
        interface: number,
        link,
        address: interface.address,
    })?;
    for k in 0..also.len() {
        held.push(Held {
            interface: number,
            link,
            address: also[k],
        })?;
    }
    Ok(())
}

/// The addresses of all interfaces, with the further ones of each.
pub(crate) fn all_addresses(
    alloc: Global,
    interfaces: &[Interface],
    also: &[Vec<Address>],
) -> Result<Vec<Held>, AllocError>
    requires { length also.now ≡ length interfaces.now }
    ensures { IfOk result (λ v.
        v.items ≡ held_from 0 interfaces.now (map (λ w. w.items) also.now)) }
{
    let mut held = Vec::new(alloc);
    for i in 0..interfaces.len() {
        add_addresses(&mut held, i, interfaces[i], also[i].as_slice())?;
    }
    Ok(held)
}
