//! Elements, tested one after the other; what is kept of them is their bytes.
ghost use Rattle.std.specs.Prelude.{◌≡◌, ◌+◌, ◌*◌, length, take, drop, Ok, Err, MatchResult};
ghost use Rattle.formats.specs.Records.{element_at, all_at};
ghost use Rattle.formats.specs.Readers.{MovesTo};

use crate::reader::Reader;
use edits::Fault;
use elements::Kind;

impl<'a> Reader<'a> {
    /// The bytes of an element, themselves.
    pub(crate) fn element<K: Kind>(&mut self) -> Result<&'a [u8], Fault>
        ensures { MatchResult result (λ b. (element_at K.Kind.WIDTH K.Kind.unpacked self.old.input.now self.old.at ≡ Ok b.now) × (length b.now ≡ K.Kind.WIDTH) × MovesTo self.old self.new (self.old.at + K.Kind.WIDTH)) (λ e. element_at K.Kind.WIDTH K.Kind.unpacked self.old.input.now self.old.at ≡ Err e) }
    {
        let place = self.at;
        let bytes = self.bytes(K::WIDTH)?;
        match K::read(bytes) {
            Some(_) => Ok(bytes),
            None => Err(Fault::Element(place)),
        }
    }

    /// The bytes of `len` elements, each tested before the next is read.
    #[tactic(auto, using(crate::proofs::Elements::all_step))]
    pub(crate) fn elements<K: Kind>(&mut self, len: u8) -> Result<&'a [u8], Fault>
        ensures { MatchResult result (λ b. (all_at K.Kind.WIDTH K.Kind.unpacked len self.old.input.now self.old.at ≡ Ok tt) × (b.now ≡ take (len * K.Kind.WIDTH) (drop self.old.at self.old.input.now)) × (length b.now ≡ len * K.Kind.WIDTH) × MovesTo self.old self.new (self.old.at + len * K.Kind.WIDTH)) (λ e. all_at K.Kind.WIDTH K.Kind.unpacked len self.old.input.now self.old.at ≡ Err e) }
    {
        let start = self.at;
        // Not over the bytes cut up beforehand: a refused element comes before one that is cut off.
        for _ in 0..len {
            self.element::<K>()?;
        }
        Ok(&self.input[start..self.at])
    }
}
