//! The laws of the grammar: what its definitions imply, for every list of bytes and every value.
//!
//! Each function is a law. It does nothing, and its contract states what holds.

// Tactics at functions: each names the lemmas that are its law.

ghost use Rattle.std.specs.Prelude.{◌≡◌, ◌↔◌, ◌+◌, ℕ, List, ◌∷◌, ◌++◌, length, IsTrue, Some, ◌≢◌, ◌≤◌, ◌*◌, is_some, ◌-◌, ◌<◌, ◌^◌, max};
ghost use Rattle.amqp_value_core.specs.declared.types.amqp_type.AMQPType.{AMQPType};
ghost use Rattle.amqp_value_core.specs.Values.{Scalar, Tree, scalar, short, long, octets, array, table, Trees, no_trees, tree, Entries, no_entries, entry, scalar_type, type_of, readable, entries_readable, depth, entries_depth, count, entries_count};
ghost use Rattle.amqp_value_core.specs.Maps.{insert, insert_all, has_key, value_at, last_at, IsRising};
ghost use Rattle.amqp_value_core.specs.Layouts.{width_of};
ghost use Rattle.amqp_value_core.specs.Outcomes.{RawOutcome, read_back, StillWaits, with_more, Reading, Outcome, Heavy, RawHeavy, found, malformed};
ghost use Rattle.amqp_value_core.specs.Texts.{payload, text, size, Fits, EntriesFit};
ghost use Rattle.amqp_value_core.specs.Grammar.{Wire, Raw};
ghost use Rattle.amqp_value_core.specs.Nesting.{WireWithin, OutcomeWithin, nesting};
ghost use Rattle.amqp_value_core.specs.InMemory.{IsValue, AreEntries};
ghost use Rattle.amqp_value_core.specs.Ids.{kind};
ghost use Rattle.amqp_value_core.specs.Bytes.{IsShort, IsBytes};
ghost use Rattle.amqp_value_core.specs.Decode.{compute_outcome, compute_raw_outcome, meaning, outcome_by};
ghost use Rattle.amqp_value_core.specs.Canonical.{Canon, CanonRaw};
ghost use Rattle.amqp_value_core.specs.Headline.{IsCanonical, IsWritableIn, IsShortest, TellsApart};
ghost use Rattle.amqp_value_core.specs.declared.types.amqp_type.AMQPType.TheVariants as amqp;

/// A list begins with at most one encoding, and that encoding has one meaning. So no encoding is a
/// proper prefix of another.
#[tactic(auto, using(crate::proofs::GrammarLaws::one_reading))]
pub fn one_reading()
    ensures { (w u x y : List ℕ) (v z : Tree) → Wire w v → Wire u z → w ++ x ≡ u ++ y
        → (w ≡ u) × (v ≡ z) × (x ≡ y) }
{}

/// A list begins with at most one payload of a given type, and that payload has one meaning.
#[tactic(auto, using(crate::proofs::GrammarLaws::one_raw_reading))]
pub fn one_raw_reading()
    ensures { (type : AMQPType) (b c x y : List ℕ) (v z : Tree) → Raw type b v → Raw type c z
        → b ++ x ≡ c ++ y → (b ≡ c) × (v ≡ z) × (x ≡ y) }
{}

/// What a canonical encoding takes: the type tag and a payload of the type's width, or a length in
/// one or four bytes and as many bytes as it counts. A value in an array takes as much as outside,
/// and in a table its key more, after a length in one byte.
#[tactic(auto, using(crate::proofs::GrammarLaws::size_of_scalar, crate::proofs::GrammarLaws::size_of_array, crate::proofs::GrammarLaws::size_of_table))]
pub fn sizes()
    ensures fixed_width { (x : Scalar) → size (scalar x) ≡ 1 + width_of (scalar_type x) }
    ensures short_string { (s : List ℕ) → size (short s) ≡ 2 + length s }
    ensures long_string { (s : List ℕ) → size (long s) ≡ 5 + length s }
    ensures byte_array { (s : List ℕ) → size (octets s) ≡ 5 + length s }
    ensures empty_array { size (array no_trees) ≡ 5 }
    ensures value { (v : Tree) (vs : Trees) → size (array (tree v vs)) ≡ size v + size (array vs) }
    ensures empty_table { size (table no_entries) ≡ 5 }
    ensures entry { (k : List ℕ) (v : Tree) (es : Entries)
        → size (table (entry k v es)) ≡ 1 + length k + size v + size (table es) }
    ensures payload { (v : Tree) → length (payload v) + 1 ≡ size v }
{}

/// The canonical encoding of a value is an encoding of it, and the payload is one of its type: of
/// every value in memory whose lengths fit their fields, and in which every value has a type tag
/// that is read.
#[tactic(auto, using(crate::proofs::GrammarLaws::text_is_wire, crate::proofs::GrammarLaws::payload_is_raw))]
pub fn text_is_wire()
    ensures text { (v : Tree) → IsValue v → Fits v → IsTrue (readable v) → Wire (text v) v }
    ensures payload { (v : Tree) → IsValue v → Fits v → IsTrue (readable v)
        → Raw (type_of v) (payload v) v }
{}

/// Whatever follows it, the canonical encoding of a value is read as that value, and what follows
/// is left. If the value is not readable, its encoding is rejected.
#[tactic(auto, using(crate::proofs::GrammarLaws::reading_back))]
pub fn reading_back()
    ensures { (v : Tree) (rest : List ℕ) → IsValue v → Fits v
        → Outcome (text v ++ rest) (read_back v rest) }
{}

/// What more bytes change of an outcome: they join the rest after a value, and fewer of them than
/// are needed are that many less that are needed. An error stays.
#[tactic(auto, using(crate::proofs::GrammarLaws::more_bytes, crate::proofs::GrammarLaws::more_raw_bytes))]
pub fn more_bytes()
    ensures value { (s t : List ℕ) (o : Reading) → Outcome s o → StillWaits o t
        → Outcome (s ++ t) (with_more o t) }
    ensures payload { (type : AMQPType) (s t : List ℕ) (o : Reading) → RawOutcome type s o
        → StillWaits o t → RawOutcome type (s ++ t) (with_more o t) }
{}

/// Reading a list has at most one outcome.
#[tactic(auto, using(crate::proofs::GrammarLaws::one_outcome, crate::proofs::GrammarLaws::one_raw_outcome))]
pub fn one_outcome()
    ensures value { (s : List ℕ) (o p : Reading) → Outcome s o → Outcome s p → o ≡ p }
    ensures payload { (type : AMQPType) (s : List ℕ) (o p : Reading) → RawOutcome type s o
        → RawOutcome type s p → o ≡ p }
{}

/// Reading a value is reading the payload of the type that its first byte denotes, and may allocate
/// if that may.
#[tactic(auto, using(crate::proofs::GrammarLaws::raw_to_value, crate::proofs::GrammarLaws::raw_to_heavy))]
pub fn value_from_payload()
    ensures outcome { (c : ℕ) (type : AMQPType) (b : List ℕ) (o : Reading) → kind c ≡ Some type
        → RawOutcome type b o → Outcome (c ∷ b) o }
    ensures heavy { (c : ℕ) (type : AMQPType) (b : List ℕ) → kind c ≡ Some type
        → RawHeavy type b → Heavy (c ∷ b) }
{}

/// A table is a finite map: a value is found at the key at which it was inserted, every other key
/// keeps its value, and there is a value if there is a key.
#[tactic(auto, using(crate::proofs::GrammarLaws::put_found, crate::proofs::GrammarLaws::put_other, crate::proofs::GrammarLaws::key_has_value))]
pub fn table_is_a_map()
    ensures put { (k : List ℕ) (v : Tree) (es : Entries) → value_at k (insert k v es) ≡ Some v }
    ensures others { (j k : List ℕ) (v : Tree) (es : Entries) → j ≢ k
        → value_at j (insert k v es) ≡ value_at j es }
    ensures keys { (k : List ℕ) (es : Entries) → has_key k es ≡ is_some (value_at k es) }
{}

/// What an insertion changes of a table. The table grows by at most the size of the new entry, and
/// nests at most as deep as the new value and the old entries. If the new value and the old table
/// can be written, read back and in memory, so can the new table, unless it is too large. If both
/// are written as bytes, so is the new table.
#[tactic(auto, using(crate::proofs::GrammarLaws::insert_size, crate::proofs::GrammarLaws::insert_count, crate::proofs::GrammarLaws::insert_depth, crate::proofs::GrammarLaws::insert_entries_fit, crate::proofs::GrammarLaws::insert_fits, crate::proofs::GrammarLaws::insert_readable, crate::proofs::GrammarLaws::insert_entries))]
pub fn insertion()
    ensures size { (k : List ℕ) (v : Tree) (es : Entries)
        → size (table (insert k v es)) ≤ 1 + length k + size v + size (table es) }
    ensures count { (k : List ℕ) (v : Tree) (es : Entries)
        → entries_count (insert k v es) ≤ count v + entries_count es }
    ensures depth { (k : List ℕ) (v : Tree) (es : Entries)
        → entries_depth (insert k v es) ≤ max (depth v) (entries_depth es) }
    ensures entries_fit { (k : List ℕ) (v : Tree) (es : Entries) → Fits v → EntriesFit es
        → EntriesFit (insert k v es) }
    ensures fits { (k : List ℕ) (v : Tree) (es : Entries) → Fits v → Fits (table es)
        → 1 + length k + size v + size (table es) < 2 ^ 32 → Fits (table (insert k v es)) }
    ensures readable { (k : List ℕ) (v : Tree) (es : Entries) → IsTrue (readable v)
        → IsTrue (entries_readable es) → IsTrue (entries_readable (insert k v es)) }
    ensures entries { (k : List ℕ) (v : Tree) (es : Entries) → IsShort k → IsValue v
        → AreEntries es → AreEntries (insert k v es) }
    ensures bytes { (k : List ℕ) (v : Tree) (es : Entries) → IsShort k → IsBytes k
        → IsBytes (text v) → IsBytes (text (table es)) → IsBytes (text (table (insert k v es))) }
{}

/// What the pairs of an encoding mean: at each key the value of the last pair with it, under keys
/// that are ascending. If the pairs' own keys are ascending they are the table's entries unchanged.
#[tactic(auto, using(crate::proofs::GrammarLaws::last_stays, crate::proofs::GrammarLaws::pairs_rise, crate::proofs::GrammarLaws::rising_pairs))]
pub fn last_pair_stays()
    ensures values { (k : List ℕ) (ps : Entries) → value_at k (insert_all no_entries ps) ≡ last_at k ps }
    ensures keys { (ps : Entries) → IsRising (insert_all no_entries ps) }
    ensures rising { (ps : Entries) → IsRising ps → insert_all no_entries ps ≡ ps }
{}

/// Tables are equal if they have the same value at each key. The keys of every table in memory
/// are ascending.
#[tactic(auto, using(crate::proofs::GrammarLaws::same_tables, crate::proofs::GrammarLaws::entries_rise))]
pub fn same_tables()
    ensures equal { (es fs : Entries) → IsRising es → IsRising fs
        → ((k : List ℕ) → value_at k es ≡ value_at k fs) → es ≡ fs }
    ensures rising { (es : Entries) → IsValue (table es) → IsRising es }
{}

/// What is in an encoding takes bytes: as many as the canonical encoding of its value has, one for
/// each value in it, and five for each container down to the deepest. A payload has one byte less,
/// since it has no type tag.
#[tactic(auto, using(crate::proofs::GrammarLaws::bounds, crate::proofs::GrammarLaws::raw_bounds))]
pub fn bounds()
    ensures value { (w : List ℕ) (v : Tree) → Wire w v
        → (size v ≤ length w) × (count v ≤ length w) × (5 * depth v ≤ length w) }
    ensures payload { (type : AMQPType) (b : List ℕ) (v : Tree) → Raw type b v
        → (size v ≤ length b + 1) × (count v ≤ length b + 1) × (5 * depth v ≤ length b + 1) }
{}

/// What an encoding means can be written and read again: its lengths fit their fields, and each
/// value in it has a type tag that is read. If the encoding is bytes, what it means is a value.
/// That holds of a payload too, except a short string's, which no type tag denotes.
#[tactic(auto, using(crate::proofs::GrammarLaws::what_is_read, crate::proofs::GrammarLaws::what_raw_reads, crate::proofs::GrammarLaws::read_is_value, crate::proofs::GrammarLaws::raw_value))]
pub fn what_is_read()
    ensures fits { (w : List ℕ) (v : Tree) → Wire w v → Fits v × IsTrue (readable v) }
    ensures value { (w : List ℕ) (v : Tree) → IsBytes w → Wire w v → IsValue v }
    ensures payload_fits { (type : AMQPType) (b : List ℕ) (v : Tree) → type ≢ amqp.ShortString
        → Raw type b v → Fits v × IsTrue (readable v) }
    ensures payload_value { (type : AMQPType) (b : List ℕ) (v : Tree) → IsBytes b → Raw type b v
        → IsValue v }
{}

/// Of all encodings of a value that are bytes, its canonical one is a shortest.
#[tactic(auto, using(crate::proofs::GrammarLaws::shortest))]
pub fn shortest()
    ensures { (w : List ℕ) (v : Tree) → IsBytes w → Wire w v
        → Wire (text v) v × (length (text v) ≤ length w) }
{}

/// Values that are read from bytes have the same canonical encoding only if they are equal.
#[tactic(auto, using(crate::proofs::GrammarLaws::same_text_same_value))]
pub fn same_text_same_value()
    ensures { (w u : List ℕ) (v z : Tree) → Wire w v → Wire u z → IsBytes w → IsBytes u
        → text v ≡ text z → v ≡ z }
{}

/// A canonical encoding is known by its bytes alone: no alternate tag, no boolean but 0
/// or 1, and keys that are ascending. Bytes are such an encoding of a value in memory, whose
/// lengths fit their fields, exactly when each value in it has a type tag that is read and they
/// are what is written for it.
#[tactic(auto, using(crate::proofs::GrammarLaws::is_canonical))]
pub fn canonical()
    ensures { (v : Tree) → IsValue v → Fits v → IsCanonical v }
{}

/// What is written for a value in memory is a canonical encoding by its bytes alone, if its lengths
/// fit their fields and each value in it has a type tag that is read. The same holds of the
/// payload. Both are bytes if the value was read from bytes.
#[tactic(auto, using(crate::proofs::GrammarLaws::text_is_canon, crate::proofs::GrammarLaws::payload_is_canon, crate::proofs::GrammarLaws::text_bytes, crate::proofs::GrammarLaws::payload_bytes))]
pub fn text_is_canon()
    ensures text { (v : Tree) → IsValue v → Fits v → IsTrue (readable v) → Canon (text v) v }
    ensures payload { (v : Tree) → IsValue v → Fits v → IsTrue (readable v)
        → CanonRaw (type_of v) (payload v) v }
    ensures bytes { (w : List ℕ) (v : Tree) → IsBytes w → Wire w v → IsBytes (text v) }
    ensures payload_bytes { (type : AMQPType) (b : List ℕ) (v : Tree) → IsBytes b → Raw type b v
        → IsBytes (payload v) }
{}

/// A canonical encoding of any value is an encoding, its value fits its fields and is readable, and
/// if it is bytes, it is what is written for the value.
#[tactic(auto, using(crate::proofs::GrammarLaws::canonical_wire))]
pub fn canonical_wire()
    ensures { (w : List ℕ) (v : Tree) → Canon w v → IsBytes w
        → Wire w v × Fits v × IsTrue (readable v) × (w ≡ text v) }
{}

/// What reading finds has an encoding at the start, and keeps to the number of bytes taken.
#[tactic(auto, using(crate::proofs::GrammarLaws::found_prefix, crate::proofs::GrammarLaws::bounded_found))]
pub fn what_is_found()
    ensures prefix { (s rest : List ℕ) (v : Tree) → Outcome s (found v rest)
        → (w : List ℕ) × Wire w v × (s ≡ w ++ rest) }
    ensures bounded { (s rest : List ℕ) (v : Tree) → Outcome s (found v rest)
        → IsWritableIn (length s - length rest) v }
{}

/// The canonical encoding of each value is a shortest one, if it has any, and among values that
/// have encodings it is that of no other.
#[tactic(auto, using(crate::proofs::GrammarLaws::is_shortest, crate::proofs::GrammarLaws::injective))]
pub fn what_a_text_is()
    ensures shortest { (v : Tree) → IsShortest v }
    ensures injective { (v : Tree) → TellsApart v }
{}

/// Reading a value from any bytes has an outcome, it has no other, and the function `compute_outcome`
/// computes it.
#[tactic(auto, using(crate::proofs::Agreement::outcome_holds, crate::proofs::Agreement::outcome_is))]
pub fn outcome_computes()
    ensures holds { (s : List ℕ) → IsBytes s → Outcome s (compute_outcome s) }
    ensures only { (s : List ℕ) (o : Reading) → IsBytes s → Outcome s o ↔ (o ≡ compute_outcome s) }
{}

/// Reading a payload of a type has an outcome, it has no other, and the function `compute_raw_outcome`
/// computes it.
#[tactic(auto, using(crate::proofs::Agreement::raw_outcome_holds, crate::proofs::Agreement::raw_outcome_is))]
pub fn raw_outcome_computes()
    ensures holds { (type : AMQPType) (s : List ℕ) → IsBytes s
        → RawOutcome type s (compute_raw_outcome type s) }
    ensures only { (type : AMQPType) (s : List ℕ) (o : Reading) → IsBytes s
        → RawOutcome type s o ↔ (o ≡ compute_raw_outcome type s) }
{}

/// Reading within a depth has an outcome, it has no other, and the function computes it.
#[tactic(auto, using(crate::proofs::Agreement::within_holds, crate::proofs::Agreement::within_is))]
pub fn within_computes()
    ensures holds { (depth : ℕ) (s : List ℕ) → IsBytes s
        → OutcomeWithin depth s (outcome_by (meaning depth) s) }
    ensures only { (depth : ℕ) (s : List ℕ) (o : Reading) → IsBytes s
        → OutcomeWithin depth s o ↔ (o ≡ outcome_by (meaning depth) s) }
{}

/// An encoding within a depth is an encoding in which containers nest no deeper, each written entry
/// counted.
#[tactic(auto, using(crate::proofs::Nests::within_is_nesting))]
pub fn limits_on_depth()
    ensures { (depth : ℕ) (w : List ℕ) (v : Tree) → WireWithin depth w v
        ↔ ((p : Wire w v) × (nesting w v p ≤ depth)) }
{}

/// A payload of fixed width, a long string and a byte array are never malformed: once all of the
/// bytes are there, they have a value.
#[tactic(auto, using(crate::proofs::Agreement::never_malformed))]
pub fn never_malformed()
    ensures { (type : AMQPType) (s : List ℕ) → IsBytes s
        → type ≢ amqp.ShortString → type ≢ amqp.FieldArray → type ≢ amqp.FieldTable
        → RawOutcome type s malformed → ⊥ }
{}
