//! The theory of the shared document. Each function here states one theorem by its contract; the words of the theorems
//! are defined in specs/. `before` is any order of siblings, `T` any type of elements.
#![tactic(auto)]

ghost use Rattle.std.specs.Prelude.{◌≡◌, ℕ, ◌<◌, ◌≤◌, Bool, ◌↔◌, List, [], ◌∷◌, ◌++◌, length};
ghost use Rattle.edits.specs.declared.id.Id.{Id};
ghost use Rattle.edits.specs.Ids.{precedes};
ghost use Rattle.order.specs.Lists.{◌∈◌, ◌⊆◌};
ghost use Rattle.order.specs.Edits.{Order, Edit, Lawful};
ghost use Rattle.order.specs.Forests.{read, visible, ids, tree};
ghost use Rattle.order.specs.Histories.{Next, History, SameEdits, SameCounts, standing};
ghost use Rattle.order.specs.Systems.{Making, edits_of, insertion_made, deletion_made, Reached};
ghost use Rattle.order.specs.Theorems.{PutAt, HiddenAt, TypedRun, Unbroken, BecomesEntry};

/// Identifiers by editor, then by number, stand in a strict total order: the order of siblings that the program uses.
pub fn identifiers_are_ordered()
    ensures { Order precedes }
{}

/// For any edits that keep the rules, honest or not: the tree of a set of edits does not depend on the order in which
/// they were applied, each after all that its clock covers. (In a history no identifier stands for two edits.)
pub fn any_order_gives_one_tree<T: Drop>()
    ensures { (before : Id → Id → Bool) → Order before → (h k : List (Edit T)) → History h → History k
        → SameEdits h k → tree before h ≡ tree before k }
{}

/// For any edits that keep the rules, honest or not: who has applied a part of them shows, in the reading order of the
/// tree of all, exactly the entries of which that part has the insertion and no deletion.
pub fn a_part_is_shown_in_order<T: Drop>()
    ensures { (before : Id → Id → Bool) → Order before → (h all : List (Edit T)) → History h → History all → h ⊆ all
        → visible (tree before h) ≡ standing h (read (tree before all)) }
{}

/// An insertion keeps the rules and can be applied next; its entry stands at its index, and the others stay as they are.
pub fn insertions_stand_at_their_index<T: Drop>()
    ensures { ((before : Id → Id → Bool) (h : List (Edit T)) → History h → (i k : ℕ) (x : T) → k ≤ length (visible (tree before h))
        → let e : Edit T = (insertion_made before i h k x).edit in
        Lawful e × Next h e × PutAt k e.id x (tree before h) (tree before (h ++ (e ∷ [])))) }
{}

/// A deletion keeps the rules and can be applied next; it hides the entry at its index, and the others stay as they are.
pub fn deletions_hide_at_their_index<T: Drop>()
    ensures { ((before : Id → Id → Bool) (h : List (Edit T)) → History h → (i k : ℕ) → k < length (visible (tree before h))
        → let e : Edit T = (deletion_made before i h k).edit in
        Lawful e × Next h e × HiddenAt k (tree before h) (tree before (h ++ (e ∷ [])))) }
{}

/// Two replicas count the same exactly when they have applied the same edits, and then they show the same.
pub fn replicas_agree<T: Drop>()
    ensures { (before : Id → Id → Bool) → Order before → (ms : List (Making T)) (hs : ℕ → List (Edit T)) → Reached before ms hs → (i j : ℕ)
        → (SameCounts (hs i) (hs j) ↔ SameEdits (hs i) (hs j))
        × (SameEdits (hs i) (hs j) → visible (tree before (hs i)) ≡ visible (tree before (hs j))) }
{}

/// One order of entries, identifier and element, serves every replica, now and whatever is made later.
pub fn one_order_serves_all<T: Drop>()
    ensures { (before : Id → Id → Bool) → Order before → (ms more : List (Making T)) (hs later : ℕ → List (Edit T))
        → Reached before ms hs → Reached before (ms ++ more) later → (i : ℕ)
        → visible (tree before (hs i)) ≡ standing (hs i) (read (tree before (edits_of (ms ++ more)))) }
{}

/// Between two entries of a forward or backward run, in the one order of all entries, tombstones counted, stand only
/// entries whose makers had applied the run's first edit.
pub fn runs_are_not_interleaved<T: Drop>()
    ensures { (before : Id → Id → Bool) → Order before → (ms : List (Making T)) (hs : ℕ → List (Edit T)) → Reached before ms hs
        → (m n : Making T) (rest : List (Making T)) → TypedRun ms m n rest
        → Unbroken ms (ids (tree before (edits_of ms))) (m ∷ (n ∷ rest)) m.edit.id }
{}

/// Every insertion that was made is an entry of the tree of all that was made, with its element: none is without effect.
pub fn insertions_become_entries<T: Drop>()
    ensures { (before : Id → Id → Bool) → Order before → (ms : List (Making T)) (hs : ℕ → List (Edit T)) → Reached before ms hs
        → (m : Making T) → m ∈ ms → BecomesEntry m (read (tree before (edits_of ms))) }
{}
