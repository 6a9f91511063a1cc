//! The options of an interface (draft-ietf-opsawg-pcapng, sections 3.5 and 4.2).

ghost use Rattle.std.specs.Prelude.{◌≡◌, ◌<◌, IfOk, IfErr, length, true};
ghost use Rattle.rip_capture.specs.Options.{Describes, HasBadOption, fits_option, option_size, with_option};
ghost use Rattle.rip_capture.specs.declared.error.CaptureCode.TheVariants.{Length};

use crate::error::CaptureCode;
use crate::interface::{Interface, InterfaceName};
use crate::numbers::{Order, long_in, short_in};

/// The bytes of an option in front of its value: its number and its length.
const OPTION_FRONT: usize = 4;

/// Whether an option of a number may have so many bytes.
fn fits_option(number: u16, len: usize) -> bool
    ensures { result ≡ fits_option number len }
{
    match number {
        9 => len == 1,
        14 => len == 8,
        _ => true,
    }
}

/// How many bytes an option has whose value has so many, with what fills it up to a multiple of 4.
fn option_size(len: usize) -> usize
    requires { len < 65_536 }
    ensures { result ≡ option_size len }
{
    OPTION_FRONT + (len + 3) / 4 * 4
}

/// What an interface is by one option more.
fn with_option(order: Order, interface: Interface, number: u16, value: &[u8]) -> Interface
    requires { fits_option number (length value.now) ≡ true }
    ensures { result ≡ with_option order interface number value.now }
{
    match number {
        2 => Interface {
            name: InterfaceName::of(value),
            ..interface
        },
        9 => Interface {
            resolution: value[0],
            ..interface
        },
        14 => Interface {
            offset: long_in(order, value, 0),
            ..interface
        },
        _ => interface,
    }
}

/// What an interface is by these options: each that is read counts in place of one before it. They
/// end at the option 0, or at their last byte. Length where one goes on behind that, or has a
/// length that it cannot have.
pub(crate) fn read_options(
    order: Order,
    interface: Interface,
    options: &[u8],
) -> Result<Interface, CaptureCode>
    ensures ok { IfOk result (Describes order options.now interface) }
    ensures err { IfErr result (λ code. (code ≡ Length)
        × HasBadOption order options.now) }
{
    let mut described = interface;
    let mut at = 0;
    'options: while at + OPTION_FRONT <= options.len() {
        let number = short_in(order, options, at);
        if number == 0 {
            return Ok(described);
        }
        let len = short_in(order, options, at + 2) as usize;
        let from = at + OPTION_FRONT;
        if from + len > options.len() || !fits_option(number, len) {
            return Err(CaptureCode::Length);
        }
        described = with_option(order, described, number, &options[from..from + len]);
        at = (at + option_size(len)).min(options.len());
    }
    Ok(described)
}
