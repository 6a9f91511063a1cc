//! Names of links and routers.

ghost use Rattle.std.specs.Prelude.{◌≡◌, ◌↔◌, IsTrue, IsAscii};
ghost use Rattle.rip_wire.specs.Name.{IsName, is_name_byte};
ghost use Rattle.rip_wire.specs.Name as name;

/// Whether each byte may stand in a name. Each line of a log has a name, and to look a byte up
/// takes half the instructions of comparing it.
#[rattlefmt::skip]
const NAME_BYTES: [bool; 256] = [
    false, false, false, false, false, false, false, false, false, false, false, false, false, false, false, false,
    false, false, false, false, false, false, false, false, false, false, false, false, false, false, false, false,
    false, false, false, false, false, false, false, false, false, false, false, false, false, true, true, false,
    true, true, true, true, true, true, true, true, true, true, false, false, false, false, false, false,
    false, true, true, true, true, true, true, true, true, true, true, true, true, true, true, true,
    true, true, true, true, true, true, true, true, true, true, true, false, false, false, false, true,
    false, true, true, true, true, true, true, true, true, true, true, true, true, true, true, true,
    true, true, true, true, true, true, true, true, true, true, true, false, false, false, false, false,
    false, false, false, false, false, false, false, false, false, false, false, false, false, false, false, false,
    false, false, false, false, false, false, false, false, false, false, false, false, false, false, false, false,
    false, false, false, false, false, false, false, false, false, false, false, false, false, false, false, false,
    false, false, false, false, false, false, false, false, false, false, false, false, false, false, false, false,
    false, false, false, false, false, false, false, false, false, false, false, false, false, false, false, false,
    false, false, false, false, false, false, false, false, false, false, false, false, false, false, false, false,
    false, false, false, false, false, false, false, false, false, false, false, false, false, false, false, false,
    false, false, false, false, false, false, false, false, false, false, false, false, false, false, false, false,
];

/// Whether a byte may stand in a name: an ASCII letter, a digit, `-`, `_` or `.`.
fn may_stand(byte: u8) -> bool
    ensures { result ≡ is_name_byte byte }
{
    NAME_BYTES[usize::from(byte)]
}

/// Whether the text is a name of a link or of a router: 1 to 32 ASCII letters, digits, `-`, `_` and
/// `.`.
pub fn is_name(text: &[u8]) -> bool
    ensures value { result ≡ name.is_name text.now }
    ensures exact { IsTrue result ↔ IsName text.now }
    ensures ascii { IsTrue result → IsAscii text.now }
{
    1 <= text.len() && text.len() <= 32 && text.iter().all(|byte| may_stand(*byte))
}
