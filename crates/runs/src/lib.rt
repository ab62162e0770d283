//! The theory of whole runs. Each function here states one theorem by its contract; the words of the theorems are defined
//! in specs/. `before` is any order of siblings, `T` any type of elements, `X` any type of edits that channels carry, and
//! `meaning` says which edit a carried one is.
#![tactic(auto)]

ghost use Rattle.std.specs.Prelude.{◌≡◌, ℕ, Bool, List};
ghost use Rattle.edits.specs.declared.id.Id.{Id};
ghost use Rattle.edits.specs.declared.edit.Edit.{Edit as Carried};
ghost use Rattle.edits.specs.Ids.{precedes};
ghost use Rattle.order.specs.Edits.{Order, Edit, Lawful};
ghost use Rattle.runs.specs.Replicas.{Replica, insert, delete, Intake};
ghost use Rattle.runs.specs.Channels.{Bytes, Channel, Format, KeepsLaw, Sent};
ghost use Rattle.runs.specs.Worlds.{World, Run};
ghost use Rattle.runs.specs.Promises.{SoundEdit, Fed, KeptAlone, Kept};
ghost use Rattle.runs.specs.Clauses.{EditsOn, SendsOn, Fetched, FetchesOn};
ghost use Rattle.runs.specs.Carried.{edit_of, ByteWide};
ghost use Rattle.runs.specs.Numbers.{numbers};
ghost use Rattle.runs.specs.Stations.{Stations};
ghost use Rattle.runs.specs.Worked.{Worked};

/// One replica, given any edits that keep the rules, honest or not: its document is the tree of exactly the applied
/// edits, its clock counts them, and the others wait.
pub fn a_replica_holds_what_is_applied<T: Drop>()
    ensures { (before : Id → Id → Bool) (r : Replica T) (accepted : List (Edit T)) → Fed before r accepted → KeptAlone before r accepted }
{}

/// Whatever calls are made on new replicas and new channels: after every one of them all promises hold.
pub fn every_run_keeps_the_promises<T: Drop, X: Drop>()
    ensures { (before : Id → Id → Bool) → Order before → (meaning : X → Edit T) (w : World T X) → Run before meaning w → Kept before meaning w }
{}

/// What the contract of insert carries.
pub fn runs_go_on_through_insert<T: Drop, X: Drop>()
    ensures { (before : Id → Id → Bool) → Order before → (meaning : X → Edit T) (k : ℕ) (x : T) (r : Replica T)
        → EditsOn before meaning r (insert before k x r) }
{}

/// What the contract of delete carries.
pub fn runs_go_on_through_delete<T: Drop, X: Drop>()
    ensures { (before : Id → Id → Bool) → Order before → (meaning : X → Edit T) (k : ℕ) (r : Replica T)
        → EditsOn before meaning r (delete before k r) }
{}

/// What the contract of send carries.
pub fn runs_go_on_through_send<T: Drop, X: Drop>()
    ensures { (before : Id → Id → Bool) → Order before → (meaning : X → Edit T) (format : Format X) (h : Channel) (xs : List X) (k : Channel)
        (rs : List Bytes) (rest : List X) → Sent format h xs k rs rest → SendsOn before meaning format h xs k }
{}

/// What the contract of fetch carries.
pub fn runs_go_on_through_fetch<T: Drop, X: Drop>()
    ensures { (before : Id → Id → Bool) → Order before → (meaning : X → Edit T) (format : Format X) (h : Channel) (r : Replica T) (k : Channel)
        (intake : Intake T) → Fetched before meaning format h r k intake → FetchesOn before meaning format h r k intake }
{}

/// Every edit of the program's own type keeps the rules, and where its editors are bytes any replica may be given it.
pub fn carried_edits_keep_the_rules<T: Drop>()
    ensures lawful { (x : Carried T) → Lawful (edit_of x) }
    ensures sound { (x : Carried T) → ByteWide x → SoundEdit (edit_of x) }
{}

/// Formats that keep their law exist: here is one, over edits of the program's own type.
pub fn a_lawful_format_exists()
    ensures { KeepsLaw numbers }
{}

/// Runs happen: in one, edits come in the wrong order and one twice, one waits, one is deleted, and both replicas show
/// the same in the end.
pub fn a_run_is_worked_out()
    ensures { Worked "B" }
{}

/// The known stations: small courses of editing have the outcome that can be told beforehand.
pub fn known_stations_hold()
    ensures { Stations precedes }
{}
