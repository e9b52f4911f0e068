//! The laws of look-ups: what their definitions imply, for every list of bytes.
//!
//! Each function is a law. It does nothing, and its contract states what holds.

// The tactic at a function names the lemmas that are the law.

ghost use Rattle.std.specs.Prelude.{◌↔◌, ℕ, List, Option, Result, true, false, length, slice_get};
ghost use Rattle.amqp_in_place.specs.Searches.{HasPair};
ghost use Rattle.amqp_c.specs.declared.cursor.Cursor.{Cursor};
ghost use Rattle.amqp_c.specs.declared.entry.Entry.{Entry};
ghost use Rattle.amqp_c.specs.declared.fault.Fault.{Fault};
ghost use Rattle.amqp_c.specs.Entries.{array_tag, table_tag, part};
ghost use Rattle.amqp_c.specs.LookUps.{IsOf, GivesBytes, LooksUp, LooksUpNth, ArePairEncodings, last_of_pairs, first_of_pairs, HasLast, HasFirst, AreEncodings};

/// What is meant by the last of equal keys: all of the bytes are pairs, by their lengths and type tags, and no pair
/// after the one that is found has the key. So a look-up finds the last pair with it.
#[tactic(auto, using(crate::proofs::PairLists::last_pair, crate::proofs::PairLists::last_found))]
pub fn last_of_equal_keys()
    ensures meant { (key s : List ℕ) (w : Option (List ℕ)) → HasPair false key s w ↔ HasLast key s w }
    ensures found { (s : List ℕ) (c : Cursor) (done : Result (Option Entry) Fault)
        (key : List ℕ) (ps : List (List ℕ × List ℕ)) → LooksUp false s c key done → IsOf table_tag (length s) c
        → ArePairEncodings (part s c.left) ps → GivesBytes s (last_of_pairs key ps) done }
{}

/// What is meant by the first: no pair before the one that is found has the key, and whatever follows it doesn't
/// matter. So a look-up finds the first pair with it.
#[tactic(auto, using(crate::proofs::PairLists::first_pair, crate::proofs::PairLists::first_found))]
pub fn first_of_equal_keys()
    ensures meant { (key s : List ℕ) (w : Option (List ℕ)) → HasPair true key s w ↔ HasFirst key s w }
    ensures found { (s : List ℕ) (c : Cursor) (done : Result (Option Entry) Fault)
        (key : List ℕ) (ps : List (List ℕ × List ℕ)) → LooksUp true s c key done → IsOf table_tag (length s) c
        → ArePairEncodings (part s c.left) ps → GivesBytes s (first_of_pairs key ps) done }
{}

/// A look-up by an index finds the member of the list of encodings that as many others are before, or nothing if there
/// are no more than these.
#[tactic(auto, using(crate::proofs::PairLists::nth_found))]
pub fn value_at_index()
    ensures { (s : List ℕ) (c : Cursor) (done : Result (Option Entry) Fault) (index : ℕ)
        (ws : List (List ℕ)) → LooksUpNth s c index done → IsOf array_tag (length s) c
        → AreEncodings (part s c.left) ws → GivesBytes s (slice_get ws index) done }
{}
