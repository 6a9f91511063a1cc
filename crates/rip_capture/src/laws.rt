//! Laws of the definitions alone: functions that do nothing, whose contracts hold of all frames and
//! all files.

ghost use Rattle.std.specs.Prelude.{◌≡◌, ◌≢◌, ◌⊎◌, ◌↔◌, ◌*◌, ◌<◌, ◌≤◌, ◌++◌, ℕ, true, List, Option, length, take};
ghost use Rattle.std.specs.List.{AllByRecursion};
ghost use Rattle.rip_capture.specs.Authentication.{AreEntries, IsAuthenticated, has_authentication, without_authentication};
ghost use Rattle.rip_capture.specs.Captures.{CaptureFault, IsCapture, IsRead};
ghost use Rattle.rip_capture.specs.Carries.{Carries};
ghost use Rattle.rip_capture.specs.NextCall.{HasRead};
ghost use Rattle.rip_capture.specs.Origins.{IsOrigin, Origin};
ghost use Rattle.rip_capture.specs.Pcap.{Frame};
ghost use Rattle.rip_capture.specs.Pcapng.{Section};
ghost use Rattle.rip_log.specs.Spans.{slice_of};
ghost use Rattle.rip_capture.specs.declared.error.CaptureCode.{CaptureCode};
ghost use Rattle.rip_capture.specs.declared.link.LinkType.{LinkType};
ghost use Rattle.rip_capture.specs.declared.packet.Carried.{Carried};
ghost use Rattle.rip_capture.specs.declared.reader.Format.{Format};
ghost use Rattle.rip_log.specs.declared.span.Span.{Span};
ghost use Rattle.rip_wire.specs.declared.limits.TheConstants.{HEADER_LEN};

use crate::authentication::{DATA_LEN_AT, DIGEST, ENTRIES_FROM, TRAILER, TRAILER_HEADER};
use crate::frame::{IPV4, LOOP_HEADER, LOOP_IPV4, TAG};
use crate::limits::{
    BILLIONTHS, BLOCK_FRONT, FILE_HEADER, GROUP, IP_HEADER, MAGIC_LEN, MILLIONTHS, MOST_BLOCK,
    MOST_CAPTURED, MOST_INTERFACES, MOST_NAME, MOST_PAYLOAD, MOST_VLANS, PORT, RECORD_HEADER,
    SECTION, SECTION_FRONT, UDP, UDP_HEADER,
};
use crate::password::{AUTHENTICATION, PASSWORD, PASSWORD_FROM, PASSWORD_TO};

/// The numbers of RIP over IPv4, and the most bytes of a datagram.
pub fn datagram_limits()
    ensures group { GROUP ≡ 0xE0000009 }
    ensures port { PORT ≡ 520 }
    ensures udp { UDP ≡ 17 }
    ensures ip_header { IP_HEADER ≡ 20 }
    ensures udp_header { UDP_HEADER ≡ 8 }
    ensures payload { MOST_PAYLOAD ≡ 999 }
{}

/// The numbers of IPv4 in frames, and the bytes of a loopback's header, and of a tag with the type
/// behind it (IEEE 802.3 and 802.1Q; tcpdump.org/linktypes.html).
pub fn frame_numbers()
    ensures ipv4 { IPV4 ≡ 0x0800 }
    ensures tag { TAG ≡ 4 }
    ensures loop_header { LOOP_HEADER ≡ 4 }
    ensures loop_ipv4 { LOOP_IPV4 ≡ 2 }
{}

/// The sizes of a file's parts, the most bytes of a packet, and the units of times.
pub fn file_limits()
    ensures magic { MAGIC_LEN ≡ 4 }
    ensures file_header { FILE_HEADER ≡ 24 }
    ensures record_header { RECORD_HEADER ≡ 16 }
    ensures captured { MOST_CAPTURED ≡ 262144 }
    ensures vlans { MOST_VLANS ≡ 65536 }
    ensures millionths { MILLIONTHS ≡ 6 }
    ensures billionths { BILLIONTHS ≡ 9 }
{}

/// The numbers and the sizes of the blocks of a pcapng file, the most interfaces of a section, and
/// the most bytes of an interface's name.
pub fn block_limits()
    ensures section { SECTION ≡ 0x0A0D0D0A }
    ensures front { BLOCK_FRONT ≡ 8 }
    ensures section_front { SECTION_FRONT ≡ 12 }
    ensures most { MOST_BLOCK ≡ 524288 }
    ensures interfaces { MOST_INTERFACES ≡ 256 }
    ensures name { MOST_NAME ≡ 64 }
{}

/// The numbers of an authentication, and the sizes of what has it.
pub fn authentication_numbers()
    ensures family { AUTHENTICATION ≡ 0xFFFF }
    ensures password { PASSWORD ≡ 2 }
    ensures digest { DIGEST ≡ 3 }
    ensures trailer { TRAILER ≡ 1 }
    ensures data_len { DATA_LEN_AT ≡ 11 }
    ensures entries { ENTRIES_FROM ≡ 24 }
    ensures trailer_header { TRAILER_HEADER ≡ 4 }
{}

/// Where a password stands: the sixteen bytes behind the family and the type of the first entry
/// (RFC 2453, section 4.1).
pub fn password_place()
    ensures from { PASSWORD_FROM ≡ 8 }
    ensures to { PASSWORD_TO ≡ 24 }
{}

/// The test of an authentication is true of just the datagrams that have one in the words of the
/// standard, and what is left of such a datagram is its header and its other entries.
pub fn authentications()
    ensures tested { (d : List ℕ) → (has_authentication d ≡ true) ↔ IsAuthenticated d }
    ensures left { (d : List ℕ) (span : Span) → AreEntries d span →
        without_authentication d ≡ take HEADER_LEN d ++ slice_of d span }
{}

/// A frame of a link type carries one thing alone.
pub fn one_carried()
    ensures { (t : LinkType) (frame : List ℕ) (carried other : Carried) →
        Carries t frame carried → Carries t frame other → carried ≡ other }
{}

/// A file is a capture of one list of frames, or has one fault, and not both.
pub fn one_reading()
    ensures frames { (file : List ℕ) (frames others : List Frame) →
        IsCapture file frames → IsCapture file others → frames ≡ others }
    ensures right { (file : List ℕ) (frames others : List Frame) (code : CaptureCode) (at : ℕ) →
        IsCapture file frames → CaptureFault file others code at → ⊥ }
    ensures fault { (file : List ℕ) (frames others : List Frame) (code other : CaptureCode)
        (at there : ℕ) → CaptureFault file frames code at → CaptureFault file others other there →
        (frames ≡ others) × (code ≡ other) × (at ≡ there) }
{}

/// What a reader has read of a file is a capture of the packets that it answered, or nothing yet.
pub fn read_captures()
    ensures { (format : Option Format) (now : Section) (taken : List ℕ) (frames : List Frame) →
        HasRead format now taken frames → IsRead taken frames }
{}

/// No packet has more bytes than a file may have of one.
pub fn short_packets()
    ensures { (file : List ℕ) (frames : List Frame) → IsCapture file frames →
        AllByRecursion (λ frame. length frame.bytes ≤ MOST_CAPTURED) frames }
{}

/// Each packet comes from one place.
pub fn one_origin()
    ensures some { (p : Frame) → (o : Origin) × IsOrigin p o }
    ensures one { (p : Frame) (o other : Origin) → IsOrigin p o → IsOrigin p other → o ≡ other }
{}

/// A capture has at least sixteen bytes for each packet.
pub fn long_captures()
    ensures { (file : List ℕ) (frames : List Frame) → IsCapture file frames →
        RECORD_HEADER * length frames ≤ length file }
{}

/// The bytes of packets are bytes where those of the file are, of a capture and of a file with a
/// fault.
pub fn packet_bytes()
    ensures right { (file : List ℕ) (frames : List Frame) → IsCapture file frames →
        AllByRecursion (λ b. b < 256) file →
        AllByRecursion (λ frame. AllByRecursion (λ b. b < 256) frame.bytes) frames }
    ensures fault { (file : List ℕ) (frames : List Frame) (code : CaptureCode) (at : ℕ) →
        CaptureFault file frames code at → AllByRecursion (λ b. b < 256) file →
        AllByRecursion (λ frame. AllByRecursion (λ b. b < 256) frame.bytes) frames }
{}

/// A fault is one whatever bytes follow, but for a cut.
pub fn early_faults()
    ensures { (file more : List ℕ) (frames : List Frame) (code : CaptureCode) (at : ℕ) →
        code ≢ CaptureCode.Cut → CaptureFault file frames code at →
        CaptureFault (file ++ more) frames code at }
{}

/// Each file is a capture or has a fault.
pub fn each_file()
    ensures { (file : List ℕ) → ((frames : List Frame) × IsCapture file frames)
        ⊎ ((frames : List Frame) × (code : CaptureCode) × (at : ℕ)
        × CaptureFault file frames code at) }
{}
