//! Cells in thirteen bytes: the character, the style, and the bits of the two floats, the highest byte first.
ghost use Rattle.elements.specs.Cells.{cell_bytes, cell_of, cell_proper};
ghost use Rattle.elements.specs.CellBytes.{cell_back, cell_exact};
ghost use Rattle.std.proofs.Common.{rules};

use crate::cell::Cell;
use crate::floats::{bits, finite_float, number};
use crate::kind::Kind;

impl Kind for Cell {
    const WIDTH: usize = 13;

    const CODE: u8 = 2;

    ghost WIDTH = { 13 };

    ghost CODE = { 2 };

    ghost packed = { cell_bytes };

    ghost unpacked = { cell_of };

    ghost proper = { cell_proper };

    ghost least = { Prim.search rules };

    ghost most = { Prim.search rules };

    ghost sized = { Prim.search rules };

    ghost back = { λ x h. cell_back x h };

    ghost exact = { λ b x h e. cell_exact b x h e };

    fn pack(&self, out: &mut [u8]) {
        let [a, b, c, d] = number(self.character).to_be_bytes();
        let [e, f, g, h] = bits(self.chainage).to_be_bytes();
        let [i, j, k, l] = bits(self.tolerance).to_be_bytes();
        out.copy_from_slice(&[a, b, c, d, self.style, e, f, g, h, i, j, k, l]);
    }

    fn read(bytes: &[u8]) -> Option<Cell> {
        match bytes {
            [a, b, c, d, style, e, f, g, h, i, j, k, l] => {
                let character = char::from_u32(u32::from_be_bytes([*a, *b, *c, *d]))?;
                let chainage = finite_float(u32::from_be_bytes([*e, *f, *g, *h]))?;
                let tolerance = finite_float(u32::from_be_bytes([*i, *j, *k, *l]))?;
                Some(Cell {
                    character,
                    style: *style,
                    chainage,
                    tolerance,
                })
            }
            _ => None,
        }
    }
}
