//! The kinds of element.
ghost use Rattle.std.specs.Prelude.{◌≡◌, ℕ, ◌≤◌, Bool, true, List, length, Some, Option};
ghost use Rattle.elements.specs.Bytes.{Bytes};

/// A kind of element: how many bytes an element has, which, and what bytes stand for one. The bytes of a packed element
/// are read as it, and all others are refused.
pub trait Kind: Copy {
    /// How many bytes an element has.
    const WIDTH: usize;

    /// The kind's byte in the head of a log.
    const CODE: u8;

    /// `WIDTH`, in clauses.
    ghost WIDTH: { ℕ };

    /// `CODE`, in clauses.
    ghost CODE: { ℕ };

    /// The bytes of an element.
    ghost packed: { Self → List ℕ };

    /// The element that bytes stand for, if any.
    ghost unpacked: { List ℕ → Option Self };

    /// What holds of every element in memory.
    ghost proper: { Self → Bool };

    /// `WIDTH`, as a call.
    final fn bytes() -> usize
        ensures { result ≡ WIDTH }
    {
        Self::WIDTH
    }

    /// `CODE`, as a call.
    final fn kind_byte() -> u8
        ensures { result ≡ CODE }
    {
        Self::CODE
    }

    /// Writes the element's bytes.
    fn pack(&self, out: &mut [u8])
        requires { length out.old ≡ WIDTH }
        ensures after { out.new ≡ packed self.now }
        ensures proper { proper self.now ≡ true };

    /// The element that the bytes stand for, or none.
    fn read(bytes: &[u8]) -> Option<Self>
        ensures { result ≡ unpacked bytes.now };

    ghost least: { 1 ≤ WIDTH };

    ghost most: { WIDTH ≤ 15 };

    ghost sized: { (x : Self) → length (packed x) ≡ WIDTH };

    ghost back: { (x : Self) → proper x ≡ true → unpacked (packed x) ≡ Some x };

    ghost exact: { (b : List ℕ) (x : Self) → Bytes b → unpacked b ≡ Some x → (proper x ≡ true) × (packed x ≡ b) };
}
