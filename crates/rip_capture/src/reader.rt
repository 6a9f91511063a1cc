//! The packets of a capture file, one after the other.

ghost use Rattle.std.specs.Prelude.{◌≡◌, ◌≢◌, ◌<◌, ◌≤◌, ◌^◌, [], ℕ, Decides, List, Ok, Option, None, Some, true, length, IfErr, IfOk, IfSome};
ghost use Rattle.std.specs.Borrow.{sem};
ghost use Rattle.std.specs.Io.BufRead.{Rests};

use crate::blocks::{Block, BlockKind, PacketForm, first_block, holds_packet, next_block};
use crate::bodies::{Body, OpenSection, read_body};
use crate::error::{CaptureCode, CaptureError};
use crate::interface::FileInterface;
use crate::limits::{FILE_HEADER, MAGIC_LEN, RECORD_HEADER};
use crate::link::LinkType;
use crate::magic::{Magic, next_magic};
use crate::numbers::Order;
use crate::parts::Parts;
use crate::pcap::{PcapHeader, holds_record, next_header, next_record, record_time};
use crate::time::Time;
use rip_log::{Source, Span};
use std::alloc::{AllocError, Global};

/// A captured packet.
#[derive(Debug, Drop)]
pub struct Packet<'a> {
    /// How it is framed.
    pub link_type: LinkType,
    /// The bytes that were captured.
    pub bytes: &'a [u8],
    /// The interface that it came by.
    pub interface: FileInterface<'a>,
    /// When it was captured, where its file says so.
    pub time: Option<Time>,
    /// The offset of its record, or its block, in the file.
    pub at: u64,
}

/// Where a packet lies in the buffer.
#[derive(Clone, Copy)]
struct Found {
    link_type: LinkType,
    bytes: Span,
    /// The number of its interface, in a pcapng file.
    interface: Option<usize>,
    time: Option<Time>,
    at: u64,
}

/// What kind of file it is.
#[derive(Clone, Copy)]
enum Format {
    Pcap(PcapHeader),
    Pcapng,
}

/// What a block of a pcapng file brings.
#[derive(Clone, Copy)]
enum Step {
    Packet(Found),
    /// No packet.
    Passed,
}

/// A reader of a capture file's packets, of at most 262,144 bytes each. It reads pcap and pcapng
/// files of either byte order (draft-ietf-opsawg-pcap, draft-ietf-opsawg-pcapng). After an error
/// there are no more packets.
#[derive(Drop)]
pub struct CaptureReader<R> {
    parts: Parts<R>,
    /// None where the front of the file was not read yet.
    format: Option<Format>,
    /// Where the next block of a pcapng file stands.
    section: OpenSection,
    position: u64,
    refusal: Option<CaptureError>,
}

impl<R: Source> CaptureReader<R> {
    ghost use Rattle.rip_capture.specs.contracts.reader.CaptureReader.{the_row};
    ghost use Rattle.rip_capture.specs.NextCall.{IsFar, IsReady, NextCall, Runs, Stands, is_unreadable, frame_of, held_by, place_of, position_of, refusal_of, source_of};
    ghost use Rattle.rip_capture.specs.Pcap.{Frame, IsMagic};
    ghost use Rattle.rip_capture.specs.Pcapng.{Section, begins_section, is_read_whole, least_len};
    ghost use Rattle.rip_capture.specs.Steps.{Begins, GoesOn, IsGood, IsGoodStep, StandsAt, Steps, TakesSo, frame_at, place_at};

    /// A reader at the front of a file: of what the source gives from here on. It allocates its
    /// buffer, and pulls nothing yet. Where memory is refused, the source comes back.
    pub fn new(alloc: Global, source: R) -> Result<CaptureReader<R>, (AllocError, R)>
        ensures source { IfOk result (λ r. source_of r ≡ source) }
        ensures front { IfOk result (λ r. Stands R.given (R.given source) r [] []) }
        ensures running { IfOk result (λ r. refusal_of r ≡ None) }
        ensures refused { IfErr result (λ e. e.1 ≡ source) }
    {
        match Parts::new(alloc, source) {
            Ok(parts) => Ok(CaptureReader {
                parts,
                format: None,
                section: OpenSection::new(),
                position: 0,
                refusal: None,
            }),
            Err((error, source)) => Err((error, source)),
        }
    }

    /// The header of a pcap file, of which the first four bytes are held.
    fn read_header(&mut self, order: Order) -> Result<Format, CaptureError>
        requires format { self.old.format ≡ None }
        requires begun { MAGIC_LEN ≤ length (held_by self.old) }
        requires magic { IsMagic order (held_by self.old) }
        ensures { Begins R.given R.coming R.broken R.at_end self.old self.new result }
    {
        match next_header(&mut self.parts, order) {
            Err(code) => Err(CaptureError { code, at: 0 }),
            Ok(header) => {
                self.parts.take(FILE_HEADER);
                self.position = FILE_HEADER as u64;
                let format = Format::Pcap(header);
                self.format = Some(format);
                Ok(format)
            }
        }
    }

    /// Takes a block that was found, and says what it brings.
    fn take_block(&mut self, block: Block) -> Result<Step, CaptureError>
        requires held { block.held ≤ length (held_by self.old) }
        requires read { is_read_whole block.kind ≡ true → least_len block.kind ≤ block.held }
        requires some { 0 < block.len }
        requires short { block.len < 2 ^ 32 }
        ensures took { (before taken passed : List ℕ) (frames : List Frame) (s : Option Section) →
            StandsAt R.given before self.old taken passed frames s block →
            TakesSo R.given before taken passed frames s self.new result }
        ensures packet { (form : PacketForm) → block.kind ≡ BlockKind.Packet form →
            result ≢ Ok Step.Passed }
        ensures section { block.kind ≡ BlockKind.Section →
            IfOk result (λ step. step ≡ Step.Passed) }
        ensures on { IfOk result (λ step. GoesOn self.old self.new) }
        ensures far { is_unreadable result ≡ true → IsFar self.new }
        ensures source { source_of self.new ≡ source_of self.old }
        ensures format { self.new.format ≡ self.old.format }
        ensures refusal { refusal_of self.new ≡ refusal_of self.old }
        ensures good { IfOk result (IsGoodStep self.new) }
    {
        let begin = self.position;
        let Some(position) = begin.checked_add(block.len as u64) else {
            let code = CaptureCode::Read;
            return Err(CaptureError { code, at: begin });
        };
        let interfaces = self.section.interfaces.as_slice();
        let body = match read_body(block, interfaces, &self.parts.feed.held()[..block.held]) {
            Err(code) => return Err(CaptureError { code, at: begin }),
            Ok(body) => body,
        };
        let taken = self.parts.take(block.held);
        self.position = position;
        self.section.enter(block.order, body);
        match body {
            Body::Packet(packet) => {
                let bytes = Span {
                    from: taken.from + packet.bytes.from,
                    to: taken.from + packet.bytes.to,
                };
                Ok(Step::Packet(Found {
                    link_type: packet.link_type,
                    bytes,
                    interface: Some(packet.interface),
                    time: packet.time,
                    at: begin,
                }))
            }
            Body::Section | Body::Interface(_) | Body::Other => Ok(Step::Passed),
        }
    }

    /// The section at the front of a pcapng file, of which the first four bytes are held.
    fn read_section(&mut self) -> Result<Format, CaptureError>
        requires format { self.old.format ≡ None }
        requires begun { MAGIC_LEN ≤ length (held_by self.old) }
        requires section { begins_section (held_by self.old) ≡ true }
        ensures { Begins R.given R.coming R.broken R.at_end self.old self.new result }
    {
        let block = match first_block(&mut self.parts) {
            Err(code) => return Err(CaptureError { code, at: 0 }),
            Ok(block) => block,
        };
        match self.take_block(block) {
            Err(error) => Err(error),
            Ok(_) => {
                self.format = Some(Format::Pcapng);
                Ok(Format::Pcapng)
            }
        }
    }

    /// The front of a file, where it was not read yet.
    fn read_front(&mut self) -> Result<Format, CaptureError>
        requires { self.old.format ≡ None }
        ensures { Begins R.given R.coming R.broken R.at_end self.old self.new result }
    {
        match next_magic(&mut self.parts) {
            Err(code) => Err(CaptureError { code, at: 0 }),
            Ok(Magic::Pcap(order)) => self.read_header(order),
            Ok(Magic::Pcapng) => self.read_section(),
        }
    }

    /// The kind of the file, of which the front is then read.
    fn begin(&mut self) -> Result<Format, CaptureError>
        ensures { Begins R.given R.coming R.broken R.at_end self.old self.new result }
    {
        match self.format {
            None => self.read_front(),
            Some(format) => Ok(format),
        }
    }

    /// The next record of a pcap file, and where its packet lies.
    fn read_record(&mut self, header: PcapHeader) -> Result<Option<Found>, CaptureError>
        requires { self.old.format ≡ Some (Format.Pcap header) }
        ensures runs { Runs R.given R.coming R.broken R.at_end (frame_at self.new) place_at
            self.old self.new result }
        ensures refusal { refusal_of self.new ≡ refusal_of self.old }
        ensures good { IfOk result (λ found. IfSome found (IsGood self.new)) }
    {
        let at = self.position;
        let captured = match next_record(&mut self.parts, header.order) {
            Err(code) => return Err(CaptureError { code, at }),
            Ok(None) => return Ok(None),
            Ok(Some(captured)) => captured,
        };
        let time = record_time(
            header.order,
            header.framing.resolution,
            self.parts.feed.held(),
        );
        let len = RECORD_HEADER + captured;
        let Some(position) = at.checked_add(len as u64) else {
            let code = CaptureCode::Read;
            return Err(CaptureError { code, at });
        };
        let taken = self.parts.take(len);
        self.position = position;
        Ok(Some(Found {
            link_type: header.framing.link_type,
            bytes: Span {
                from: taken.from + RECORD_HEADER,
                to: taken.to,
            },
            interface: None,
            time: Some(time),
            at,
        }))
    }

    /// The next block of a pcapng file, or None at the end.
    fn read_block(&mut self) -> Result<Option<Step>, CaptureError>
        requires { self.old.format ≡ Some Format.Pcapng }
        ensures steps { Steps R.given R.coming R.broken R.at_end self.old self.new result }
        ensures good { IfOk result (λ step. IfSome step (IsGoodStep self.new)) }
    {
        let at = self.position;
        match next_block(&mut self.parts, self.section.order) {
            Err(code) => Err(CaptureError { code, at }),
            Ok(None) => Ok(None),
            Ok(Some(block)) => match self.take_block(block) {
                Err(error) => Err(error),
                Ok(step) => Ok(Some(step)),
            },
        }
    }

    /// The next packet of a pcapng file, and where it lies.
    fn read_blocks(&mut self) -> Result<Option<Found>, CaptureError>
        requires { self.old.format ≡ Some Format.Pcapng }
        ensures runs { Runs R.given R.coming R.broken R.at_end (frame_at self.new) place_at
            self.old self.new result }
        ensures refusal { refusal_of self.new ≡ refusal_of self.old }
        ensures good { IfOk result (λ found. IfSome found (IsGood self.new)) }
    {
        'next_blocks: loop {
            match self.read_block() {
                Err(error) => return Err(error),
                Ok(None) => return Ok(None),
                Ok(Some(Step::Packet(found))) => return Ok(Some(found)),
                Ok(Some(Step::Passed)) => {}
            }
        }
    }

    /// Reads up to the next packet, and says where it lies.
    fn find_packet(&mut self) -> Result<Option<Found>, CaptureError>
        ensures runs { Runs R.given R.coming R.broken R.at_end (frame_at self.new) place_at
            self.old self.new result }
        ensures refusal { refusal_of self.new ≡ refusal_of self.old }
        ensures good { IfOk result (λ found. IfSome found (IsGood self.new)) }
    {
        match self.begin() {
            Err(error) => Err(error),
            Ok(Format::Pcap(header)) => self.read_record(header),
            Ok(Format::Pcapng) => self.read_blocks(),
        }
    }

    /// Reads up to the next packet, where no error was answered, and says where it lies.
    fn advance(&mut self) -> Result<Option<Found>, CaptureError>
        ensures leaves { NextCall R.given R.coming R.broken R.at_end (frame_at self.new) place_at
            self.old self.new result }
        ensures good { IfOk result (λ found. IfSome found (IsGood self.new)) }
    {
        if let Some(error) = self.refusal {
            return Err(error);
        }
        match self.find_packet() {
            Err(error) => {
                self.refusal = Some(error);
                Err(error)
            }
            Ok(found) => Ok(found),
        }
    }

    /// A packet that was found, borrowed.
    fn packet(&self, found: Found) -> Packet<'_>
        requires { IsGood self.now found }
        ensures frame { frame_of result ≡ frame_at self.now found }
        ensures place { place_of result ≡ place_at found }
    {
        let interface = match found.interface {
            None => FileInterface::Only,
            Some(number) => self.section.interface(number),
        };
        Packet {
            link_type: found.link_type,
            bytes: self.parts.feed.range(found.bytes),
            interface,
            time: found.time,
            at: found.at,
        }
    }

    /// The next packet, which borrows the reader's buffer, or None at the end of the file. It
    /// allocates nothing, and pulls nothing where it holds the next record, or block of a packet.
    /// An error is the first fault of the file, or Read where the source failed (or a part of the
    /// file may end past the offset 2 ^ 64 - 1). After an error each call answers the same error,
    /// and pulls nothing; after the end each call answers None.
    pub fn next(&mut self) -> Result<Option<Packet<'_>>, CaptureError>
        // Once the packet that it lends is let go, the reader is as `NextCall` says.
        ensures* leaves { sem 𝓛 (Rests (the_row R.row) self.entry (λ new.
            NextCall R.given R.coming R.broken R.at_end frame_of place_of self.old new result)) }
    {
        match self.advance() {
            Err(error) => Err(error),
            Ok(None) => Ok(None),
            Ok(Some(found)) => Ok(Some(self.packet(found))),
        }
    }

    /// Whether the next record, or block of a packet, is held, so that `next` pulls nothing.
    pub fn is_ready(&self) -> bool
        ensures { Decides result (IsReady self.now) }
    {
        match self.format {
            None => false,
            Some(Format::Pcap(header)) => holds_record(header.order, self.parts.feed.held()),
            Some(Format::Pcapng) => holds_packet(self.section.order, self.parts.feed.held()),
        }
    }

    /// How many bytes of the file are behind the reader.
    pub fn position(&self) -> u64
        ensures { result ≡ position_of self.now }
    {
        self.position
    }

    /// The source, as it stands.
    pub fn into_source(self) -> R
        ensures { result ≡ source_of self }
    {
        self.parts.feed.into_source()
    }
}
