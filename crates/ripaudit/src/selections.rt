//! Which packets of a capture file a word of `log` names, behind its link: `eth2`, `103`, `5.103`,
//! `eth2@103`.

ghost use Rattle.std.specs.Prelude.{◌≡◌, ◌↔◌, List, ℕ, Decides, IfSome, IsSomeAnd, Some};
ghost use Rattle.rip_report.specs.Selections.{Selection};
ghost use Rattle.ripaudit.specs.Texts.{Lacks};
ghost use Rattle.ripaudit.specs.SelectionTexts.{AreVlans, IsInterfaceName, IsSelectionText, IsVlanText, is_digit_or_dot, is_digits_and_dots, selection_in};

use arrayvec::ArrayVec;
use itoa::Buffer;
use rip_capture::MOST_NAME;

/// The greatest number of a VLAN (IEEE 802.1Q).
const MOST_VLAN: u16 = 4_094;

/// The most VLANs of a word.
const MOST_NAMED_VLANS: usize = 4;

/// What a word names: an interface, where there is a name, and VLANs, where there are any; or
/// nothing.
#[derive(Drop)]
pub(crate) struct NamedSelection<'a> {
    pub(crate) interface: &'a str,
    pub(crate) vlans: ArrayVec<u16, MOST_NAMED_VLANS>,
}

impl<'a> NamedSelection<'a> {
    ghost use Rattle.rip_report.specs.Selections.{nothing_named};
    ghost use Rattle.ripaudit.specs.SelectionTexts.{selection_in};

    /// Nothing is named.
    pub(crate) fn nothing() -> NamedSelection<'a>
        ensures { selection_in result ≡ nothing_named }
    {
        NamedSelection {
            interface: "",
            vlans: ArrayVec::new(),
        }
    }
}

/// The number of a VLAN, 1 to 4094, in decimal digits without a leading zero.
fn vlan_of(text: &str) -> Option<u16>
    ensures { (vlan : ℕ) → (result ≡ Some vlan) ↔ IsVlanText text.now vlan }
{
    let vlan: u16 = text.parse().ok()?;
    if vlan == 0 || vlan > MOST_VLAN || Buffer::new().format(vlan) != text {
        return None;
    }
    Some(vlan)
}

/// At most four VLANs, outermost first, with dots between them.
fn vlans_of(text: &str) -> Option<ArrayVec<u16, MOST_NAMED_VLANS>>
    ensures named { IfSome result (λ vlans. AreVlans text.now vlans.items) }
    ensures found { (vlans : List ℕ) → AreVlans text.now vlans →
        IsSomeAnd result (λ v. v.items ≡ vlans) }
{
    let mut vlans = ArrayVec::new();
    let mut rest = text;
    'numbers: while vlans.len() < MOST_NAMED_VLANS {
        let Some((number, more)) = rest.split_once('.') else {
            vlans.push(vlan_of(rest)?);
            return Some(vlans);
        };
        vlans.push(vlan_of(number)?);
        rest = more;
    }
    None
}

/// Whether it is a digit, or a dot.
fn is_digit_or_dot(byte: u8) -> bool
    ensures { result ≡ is_digit_or_dot byte }
{
    (b'0' <= byte && byte <= b'9') || byte == b'.'
}

/// Whether there are digits and dots alone.
fn is_digits_and_dots(text: &str) -> bool
    ensures { result ≡ is_digits_and_dots text.now }
{
    text.as_bytes().iter().all(|byte| is_digit_or_dot(*byte))
}

/// Whether a text without `@` is the name of an interface that a word may name: 1 to 64 bytes, and
/// not digits and dots alone, which are VLANs.
fn is_interface_name(text: &str) -> bool
    ensures { Lacks 64 text.now → Decides result (IsInterfaceName text.now) }
{
    !text.is_empty() && text.len() <= MOST_NAME && !is_digits_and_dots(text)
}

/// An interface and VLANs with `@` between them, or one of them alone.
pub(crate) fn named_selection(text: &str) -> Option<NamedSelection<'_>>
    ensures named { IfSome result (λ named. IsSelectionText text.now (selection_in named)) }
    ensures found { (selection : Selection) → IsSelectionText text.now selection →
        IsSomeAnd result (λ named. selection_in named ≡ selection) }
{
    if let Some((interface, numbers)) = text.split_once('@') {
        if !is_interface_name(interface) {
            return None;
        }
        let vlans = vlans_of(numbers)?;
        return Some(NamedSelection { interface, vlans });
    }
    if is_interface_name(text) {
        let vlans = ArrayVec::new();
        return Some(NamedSelection {
            interface: text,
            vlans,
        });
    }
    let vlans = vlans_of(text)?;
    Some(NamedSelection {
        interface: "",
        vlans,
    })
}
