//! Editors looked for among pairs that ascend.
ghost use Rattle.std.specs.Prelude.{◌≡◌, ◌≤◌, length};
ghost use Rattle.edits.specs.Pairs.{count_of, place_of};

use crate::clock::Pair;

// No binary search: there are 16 pairs at most, and the answer is exact for pairs in any order.

/// The count of the editor, 0 where it is not listed.
pub fn count_among(pairs: &[Pair], editor: u8) -> u16
    ensures { result ≡ count_of pairs.now editor }
{
    pairs
        .iter()
        .find(|p| p.editor == editor)
        .map_or(0, |p| p.count)
}

/// How many pairs come before the editor.
pub fn place_among(pairs: &[Pair], editor: u8) -> usize
    ensures value { result ≡ place_of editor pairs.now }
    ensures within { result ≤ length pairs.now }
{
    pairs.iter().take_while(|p| p.editor < editor).count()
}
