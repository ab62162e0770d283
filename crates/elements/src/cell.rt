//! Cells.
ghost use Rattle.std.specs.Prelude.{◌≡◌, true, false, ◌&&◌, MatchResult};
ghost use Rattle.std.specs.Float.{float_is_finite};
ghost use Rattle.edits.specs.declared.fault.Fault.TheVariants.{OutsideLimits};

use edits::Fault;

/// A cell of a control table: a character, its style, and a chainage and a tolerance in metres, which are finite.
/// Negative zero is kept.
#[derive(Clone, Copy)]
pub struct Cell {
    pub character: char,
    pub style: u8,
    pub chainage: f32,
    pub tolerance: f32,
    ghost placed: { float_is_finite chainage ≡ true },
    ghost bounded: { float_is_finite tolerance ≡ true },
}

impl Cell {
    /// The cell of these parts; a float that is infinite or no number is the caller's fault.
    pub fn new(character: char, style: u8, chainage: f32, tolerance: f32) -> Result<Cell, Fault>
        ensures { MatchResult result (λ x. (x.character ≡ character) × (x.style ≡ style) × (x.chainage ≡ chainage) × (x.tolerance ≡ tolerance)) (λ f. (f ≡ OutsideLimits) × ((float_is_finite chainage && float_is_finite tolerance) ≡ false)) }
    {
        if chainage.is_finite() && tolerance.is_finite() {
            Ok(Cell {
                character,
                style,
                chainage,
                tolerance,
            })
        } else {
            Err(Fault::OutsideLimits)
        }
    }
}
