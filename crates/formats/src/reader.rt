//! Input that is read from front to back.
ghost use Rattle.std.specs.Prelude.{◌≡◌, ◌+◌, ◌<◌, ◌≤◌, length, take, drop, MatchResult, OnOk};
ghost use Rattle.edits.specs.declared.fault.Fault.TheVariants.{Extent};
ghost use Rattle.formats.specs.Fields.{byte_at, two_at};

use edits::Fault;

/// Input that is read from front to back; what comes next stands at the offset `at`. Each method reads one thing and
/// moves on behind it. After a refusal the reader is given up.
#[derive(Drop)]
pub(crate) struct Reader<'a> {
    pub(crate) input: &'a [u8],
    pub(crate) at: usize,
    ghost within: { at ≤ length input.now },
}

impl<'a> Reader<'a> {
    ghost use Rattle.formats.specs.Readers.{MovesTo};

    /// Begins at the offset, which may lie anywhere: one behind the input's end is refused as a field that is cut off.
    pub(crate) fn new(input: &'a [u8], at: usize) -> Result<Reader<'a>, Fault>
        ensures { MatchResult result (λ x. (x.input ≡ input.entry) × (x.at ≡ at)) (λ e. (e ≡ Extent (length input.now)) × (length input.now < at)) }
    {
        if at > input.len() {
            return Err(Fault::Extent(input.len()));
        }
        Ok(Reader { input, at })
    }

    /// The next `n` bytes.
    pub(crate) fn bytes(&mut self, n: usize) -> Result<&'a [u8], Fault>
        ensures { MatchResult result (λ b. (b.now ≡ take n (drop self.old.at self.old.input.now)) × (length b.now ≡ n) × MovesTo self.old self.new (self.old.at + n)) (λ e. (e ≡ Extent (length self.old.input.now)) × (length self.old.input.now < self.old.at + n)) }
    {
        let rest = &self.input[self.at..];
        let bytes = rest.get(..n).ok_or(Fault::Extent(self.input.len()))?;
        self.at += n;
        Ok(bytes)
    }

    /// The next byte.
    // Not by `bytes(1)`, which makes a slice and cuts it for one byte.
    pub(crate) fn byte(&mut self) -> Result<u8, Fault>
        ensures value { result ≡ byte_at self.old.input.now self.old.at }
        ensures moved { OnOk result (MovesTo self.old self.new (self.old.at + 1)) }
    {
        let byte = *self
            .input
            .get(self.at)
            .ok_or(Fault::Extent(self.input.len()))?;
        self.at += 1;
        Ok(byte)
    }

    /// A number of two bytes, the higher first.
    pub(crate) fn two(&mut self) -> Result<u16, Fault>
        ensures value { result ≡ two_at self.old.input.now self.old.at }
        ensures moved { OnOk result (MovesTo self.old self.new (self.old.at + 2)) }
    {
        Ok(u16::from_be_bytes([self.byte()?, self.byte()?]))
    }
}
