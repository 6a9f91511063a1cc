//! What of a capture file is a link's.

/// Which packets of a capture file are its link's: those of an interface, of VLANs, or of both (and
/// one that is cut before its sender, which may be of any). All others are passed over. Where nothing
/// is named, they are all, and those whose sender is known have to come from one place: by one
/// interface, in the same VLANs.
#[derive(Clone, Copy, Debug)]
pub struct Selection<'a> {
    /// The name of the interface that they came by, or no bytes: then by any.
    pub interface: &'a [u8],
    /// Their VLANs, just these, outermost first, or none: then in any.
    pub vlans: &'a [u16],
}

/// A link, and which packets of a capture file are its own.
#[derive(Clone, Copy, Debug)]
pub struct FilePart<'a> {
    /// The name of the link.
    pub link: &'a str,
    /// Which packets are its own.
    pub selection: Selection<'a>,
}
