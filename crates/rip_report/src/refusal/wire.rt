//! What is printed of a fault of a datagram.

ghost use Rattle.std.specs.Prelude.{◌≡◌};
ghost use Rattle.rip_report.specs.DecodeText.{wire_code_text, wire_fault_text};
ghost use Rattle.rip_report.specs.Outs.{Adds};

use crate::output::Out;
use rip_log::Sink;
use rip_wire::{WireCode, WireError};

/// The number and the word of a code.
fn code_text(code: WireCode) -> &'static str
    ensures { result.now ≡ wire_code_text code }
{
    match code {
        WireCode::Short => "1 Short",
        WireCode::Command => "2 Command",
        WireCode::Version => "3 Version",
        WireCode::Zero => "4 Zero",
        WireCode::Ragged => "5 Ragged",
        WireCode::Empty => "6 Empty",
        WireCode::TooMany => "7 TooMany",
        WireCode::Authentication => "8 Authentication",
        WireCode::Family => "9 Family",
        WireCode::Mask => "10 Mask",
        WireCode::NoMask => "11 NoMask",
        WireCode::HostBits => "12 HostBits",
        WireCode::Metric => "13 Metric",
    }
}

/// Adds a fault of a datagram.
pub(crate) fn push_wire_fault<K: Sink>(out: &mut Out<K>, error: WireError)
    ensures { Adds out.old out.new (wire_fault_text error.code error.at) }
{
    out.push(code_text(error.code));
    out.push(" at ");
    out.push_number(error.at as u64);
}
