//! From an input to the table that is printed of it.
ghost use Rattle.std.specs.Prelude.{◌≡◌, ◌≤◌, true, false, length, IfOk, None};
ghost use Rattle.replica.specs.Shelves.{lowest_from};
ghost use Rattle.replica.specs.Taking.{shelf_of};
ghost use Rattle.elements.specs.Cells.{cell_bytes};
ghost use Rattle.elements.specs.Fours.{four};
ghost use Rattle.merger.specs.Tables.{Ends, holds_cells};

use crate::gathering::LONGEST_INPUT;
use crate::merge::{Gathering, Merge, Settled};
use edits::Fault;
use elements::{Cell, Kind};
use formats::head_at;
use std::alloc::Global;

/// How many entries the table of an input can have, tombstones counted.
const SLOTS: usize = 1_024;

/// How many edits can wait at a time.
const ROOM: usize = 64;

/// The table of an input, as text. The first log says of which kind the elements are.
pub fn merged(heap: Global, input: &[u8]) -> Result<String, Fault>
    ensures cells { holds_cells input.now ≡ true → Ends cell_bytes input.now result }
    ensures characters { holds_cells input.now ≡ false → Ends four input.now result }
{
    // Tested here too, before any memory is asked for.
    if input.len() > LONGEST_INPUT {
        return Err(Fault::WrongSize);
    }
    if holds_cells(input) {
        table_of::<Cell>(heap, input)
    } else {
        table_of::<char>(heap, input)
    }
}

/// Whether the input begins with a log of cells.
fn holds_cells(input: &[u8]) -> bool
    ensures { result ≡ holds_cells input.now }
{
    // Kinds are types; a byte that is none of theirs is refused where the head is read.
    head_at(input, 0).is_some() && input.get(2) == Some(&Cell::CODE)
}

/// The table of an input with elements of the kind.
fn table_of<K: Kind>(heap: Global, input: &[u8]) -> Result<String, Fault>
    requires { length input.now ≤ 65536 }
    ensures { Ends K.Kind.packed input.now result }
{
    let settled = settled_of::<K>(heap, input)?;
    settled.show(heap)
}

/// The settled merge of an input with elements of the kind.
fn settled_of<K: Kind>(heap: Global, input: &[u8]) -> Result<Merge<K, Settled>, Fault>
    ensures { IfOk result (λ x. (x.replica.tree.slots ≡ 1024) × (lowest_from None (shelf_of x.replica) ≡ None)) }
{
    let mut merge = Merge::<K, Gathering>::new(heap, SLOTS, ROOM)?;
    merge.gather(input)?;
    let settled = merge.settle()?;
    Ok(settled)
}
