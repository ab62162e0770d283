//! Characters: Unicode scalar values, in four bytes, the highest first.
ghost use Rattle.std.proofs.Math.Utf8.{scalar};
ghost use Rattle.elements.specs.Fours.{four, character_of};
ghost use Rattle.elements.specs.Numbers.{character_exact};
ghost use Rattle.std.proofs.Common.{rules};

use crate::kind::Kind;

impl Kind for char {
    const WIDTH: usize = 4;

    const CODE: u8 = 1;

    ghost WIDTH = { 4 };

    ghost CODE = { 1 };

    ghost packed = { four };

    ghost unpacked = { character_of };

    ghost proper = { scalar };

    ghost least = { Prim.search rules };

    ghost most = { Prim.search rules };

    ghost sized = { Prim.search rules };

    ghost back = { Prim.search rules };

    ghost exact = { λ b x h e. character_exact b x h e };

    fn pack(&self, out: &mut [u8]) {
        let bytes = u32::from(*self).to_be_bytes();
        out.copy_from_slice(&bytes);
    }

    fn read(bytes: &[u8]) -> Option<char> {
        match bytes {
            [a, b, c, d] => char::from_u32(u32::from_be_bytes([*a, *b, *c, *d])),
            _ => None,
        }
    }
}
