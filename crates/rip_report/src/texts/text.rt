//! A short text.

ghost use Rattle.std.specs.Prelude.{◌≡◌, ◌+◌, ◌≤◌, ◌++◌, [], length};

/// A text of at most `N` bytes.
#[derive(Clone, Copy)]
pub(crate) struct Text<const N: usize> {
    bytes: [u8; N],
    used: usize,
    ghost short: { used ≤ N },
}

impl<const N: usize> Text<N> {
    ghost use Rattle.rip_report.specs.Texts.{text_of};

    /// No text.
    pub(crate) fn new() -> Text<N>
        ensures { text_of result ≡ [] }
    {
        Text {
            bytes: [0; N],
            used: 0,
        }
    }

    /// Adds text that there is room for.
    pub(crate) fn push(&mut self, text: &str)
        requires { length (text_of self.old) + length text.now ≤ N }
        ensures text { text_of self.new ≡ text_of self.old ++ text.now }
        ensures size { length (text_of self.new) ≡ length (text_of self.old) + length text.now }
    {
        let end = self.used + text.len();
        let bytes = &mut self.bytes[..];
        bytes[self.used..end].copy_from_slice(text.as_bytes());
        self.used = end;
    }

    /// The bytes of the text.
    pub(crate) fn as_bytes(&self) -> &[u8]
        ensures { result.now ≡ text_of self.now }
    {
        let bytes = &self.bytes[..];
        &bytes[..self.used]
    }
}
