//! Worked examples of encodings: above all what `compute_outcome` reads from some bytes, and what
//! `text` writes for some values.
//!
//! Bytes are written as `hex` reads them: two digits a byte, type tags and strings between quotes.

// Tactics at functions: each names which of its literals are UTF-8, which the search doesn't compute.

ghost use Rattle.std.specs.Prelude.{◌≡◌, List, [], ◌∷◌, ◌++◌, true, false, negsuc, Some, None, codes};
ghost use Rattle.std.specs.Str.{byte};
ghost use Rattle.std.specs.Int.{w8, w16, w32, w64, cast_unsigned};
ghost use Rattle.amqp_value_core.specs.Values.{boolean, number, decimal, void, scalar, short, long, octets, array, trees_of, no_trees, table, entries_of, no_entries, depth, count, readable, ComesBefore};
ghost use Rattle.amqp_value_core.specs.Maps.{insert, has_key, value_at, Mean};
ghost use Rattle.amqp_value_core.specs.Ids.{kind, id_of};
ghost use Rattle.amqp_value_core.specs.Names.{read_as};
ghost use Rattle.amqp_value_core.specs.Outcomes.{found, more, unknown, malformed, Outcome, Heavy, RawHeavy, RawOutcome, with_more, StillWaits};
ghost use Rattle.amqp_value_core.specs.Headline.{IsWritableIn};
ghost use Rattle.amqp_value_core.specs.Decode.{compute_outcome, compute_raw_outcome, hex};
ghost use Rattle.amqp_value_core.specs.Texts.{text, size};
ghost use Rattle.amqp_value_core.specs.Canonical.{Canon};
ghost use Rattle.amqp_value_core.specs.InMemory.{IsValue};

use amqp_value_core::types::AMQPType;

/// 0 is false, every other byte is true, and true is written 1.
pub fn booleans()
    ensures zero { compute_outcome (hex "'t' 00") ≡ found (scalar (boolean false)) [] }
    ensures one { compute_outcome (hex "'t' 01") ≡ found (scalar (boolean true)) [] }
    ensures seven { compute_outcome (hex "'t' 07") ≡ found (scalar (boolean true)) [] }
    ensures writes { text (scalar (boolean true)) ≡ hex "'t' 01" }
    ensures writes_false { text (scalar (boolean false)) ≡ hex "'t' 00" }
{}

/// Numbers of one byte and of two, big-endian: if each byte is 255 a signed number is -1.
pub fn numbers_of_few_bytes()
    ensures byte { compute_outcome (hex "'b' ff")
        ≡ found (scalar (number AMQPType.ShortShortInt (cast_unsigned w8 (negsuc 0)))) [] }
    ensures unsigned_byte { compute_outcome (hex "'B' ff") ≡ found (scalar (number AMQPType.ShortShortUInt 255)) [] }
    ensures writes_byte { text (scalar (number AMQPType.ShortShortUInt 64)) ≡ hex "'B' 40" }
    ensures two_bytes { compute_outcome (hex "'s' ffff")
        ≡ found (scalar (number AMQPType.ShortInt (cast_unsigned w16 (negsuc 0)))) [] }
    ensures unsigned_two_bytes { compute_outcome (hex "'u' 0102")
        ≡ found (scalar (number AMQPType.ShortUInt 258)) [] }
    ensures writes_two_bytes { text (scalar (number AMQPType.ShortUInt 132)) ≡ hex "'u' 0084" }
{}

/// The number 42 in four bytes, and unsigned numbers up to the greatest.
pub fn numbers_of_four_bytes()
    ensures reads { compute_outcome (hex "'I' 0000002a") ≡ found (scalar (number AMQPType.LongInt 42)) [] }
    ensures writes { text (scalar (number AMQPType.LongInt 42)) ≡ hex "'I' 0000002a" }
    ensures greatest { compute_outcome (hex "'i' ffffffff")
        ≡ found (scalar (number AMQPType.LongUInt 0xffffffff)) [] }
    ensures writes_unsigned { text (scalar (number AMQPType.LongUInt 66666)) ≡ hex "'i' 0001046a" }
{}

/// A number below 0 is written as its two's complement: -2 in four bytes, and -53.
pub fn a_negative_number()
    ensures reads { compute_outcome (hex "'I' fffffffe")
        ≡ found (scalar (number AMQPType.LongInt (cast_unsigned w32 (negsuc 1)))) [] }
    ensures writes { text (scalar (number AMQPType.LongInt (cast_unsigned w32 (negsuc 52))))
        ≡ hex "'I' ffffffcb" }
{}

/// Signed numbers of eight bytes.
pub fn numbers_of_eight_bytes()
    ensures reads { compute_outcome (hex "'l' 0000000000000100")
        ≡ found (scalar (number AMQPType.LongLongInt 256)) [] }
    ensures writes { text (scalar (number AMQPType.LongLongInt (cast_unsigned w64 (negsuc 9998))))
        ≡ hex "'l' ffffffffffffd8f1" }
{}

/// A timestamp is eight bytes, an unsigned number.
pub fn a_timestamp()
    ensures reads { compute_outcome (hex "'T' 2a2a2a2a2a2a2a2a")
        ≡ found (scalar (number AMQPType.Timestamp 0x2a2a2a2a2a2a2a2a)) [] }
    ensures greatest { compute_outcome (hex "'T' ffffffffffffffff")
        ≡ found (scalar (number AMQPType.Timestamp 0xffffffffffffffff)) [] }
    ensures writes { text (scalar (number AMQPType.Timestamp 1234567890)) ≡ hex "'T' 00000000499602d2" }
{}

/// Two types have a second type tag, which is read and never written.
pub fn alternate_tags()
    ensures two_bytes { compute_outcome (hex "'U' 0005") ≡ found (scalar (number AMQPType.ShortInt 5)) [] }
    ensures writes_two { text (scalar (number AMQPType.ShortInt 5)) ≡ hex "'s' 0005" }
    ensures eight_bytes { compute_outcome (hex "'L' ffffffffffffffff")
        ≡ found (scalar (number AMQPType.LongLongInt (cast_unsigned w64 (negsuc 0)))) [] }
    ensures writes_eight { text (scalar (number AMQPType.LongLongInt (cast_unsigned w64 (negsuc 0))))
        ≡ hex "'l' ffffffffffffffff" }
{}

/// A Float is its four bytes, and a Double its eight: one that is no number is written as it was
/// read, and the two zeros differ.
pub fn floats()
    ensures no_number { compute_outcome (hex "'f' 7fc00001") ≡ found (scalar (number AMQPType.Float 0x7fc00001)) [] }
    ensures writes { text (scalar (number AMQPType.Float 0x7fc00001)) ≡ hex "'f' 7fc00001" }
    ensures zero { compute_outcome (hex "'f' 00000000") ≡ found (scalar (number AMQPType.Float 0)) [] }
    ensures other_zero { compute_outcome (hex "'f' 80000000") ≡ found (scalar (number AMQPType.Float 0x80000000)) [] }
    ensures zeros_differ { ¬ (scalar (number AMQPType.Float 0) ≡ scalar (number AMQPType.Float 0x80000000)) }
    ensures double { compute_outcome (hex "'d' 404535c28f5c28f6")
        ≡ found (scalar (number AMQPType.Double 0x404535c28f5c28f6)) [] }
    ensures writes_double { text (scalar (number AMQPType.Double 0x404535c28f5c28f6))
        ≡ hex "'d' 404535c28f5c28f6" }
{}

/// A decimal is a scale of one byte and an unsigned number of four.
pub fn a_decimal()
    ensures reads { compute_outcome (hex "'D' 37 000003e7") ≡ found (scalar (decimal 55 999)) [] }
    ensures greatest { compute_outcome (hex "'D' ff ffffffff") ≡ found (scalar (decimal 255 0xffffffff)) [] }
    ensures writes { text (scalar (decimal 2 42)) ≡ hex "'D' 02 0000002a" }
{}

/// Nothing has no payload, and what is after it is left.
pub fn nothing()
    ensures alone { compute_outcome (hex "'V'") ≡ found (scalar void) [] }
    ensures with_rest { compute_outcome (hex "'V' 0a") ≡ found (scalar void) (hex "0a") }
{}

/// A long string is any bytes after their length.
pub fn long_strings()
    ensures word { compute_outcome (hex "'S' 00000004 'test'") ≡ found (long (codes "test")) [] }
    ensures empty { compute_outcome (hex "'S' 00000000 09") ≡ found (long []) (hex "09") }
    ensures no_text { compute_outcome (hex "'S' 00000001 ff") ≡ found (long (hex "ff")) [] }
    ensures writes { text (long (codes "test")) ≡ hex "'S' 00000004 'test'" }
{}

/// So is a byte array, which is another value with the same bytes.
pub fn byte_arrays()
    ensures reads { compute_outcome (hex "'x' 00000002 ff00 03") ≡ found (octets (hex "ff00")) (hex "03") }
    ensures writes { text (octets (hex "2a010203")) ≡ hex "'x' 00000004 2a010203" }
{}

/// A short string is written with a type tag that is not read, so that it is rejected outside, and
/// inside an array as that array.
pub fn short_strings_are_written()
    ensures writes { text (short (codes "x")) ≡ hex "'_' 01 'x'" }
    ensures alone { compute_outcome (hex "'_' 01 'x'") ≡ unknown }
    ensures writes_inside { text (array (trees_of (short (codes "x") ∷ []))) ≡ hex "'A' 00000003 '_' 01 'x'" }
    ensures inside { compute_outcome (hex "'A' 00000003 '_' 01 'x'") ≡ malformed }
    ensures not_readable { readable (array (trees_of (short (codes "x") ∷ []))) ≡ false }
{}

/// A short string is read only as a payload: at most 255 bytes of UTF-8 after their length.
#[tactic(auto, using(crate::proofs::OnLiterals::empty_text, crate::proofs::OnLiterals::word_test, crate::proofs::OnLiterals::e_acute))]
pub fn short_strings_are_read()
    ensures empty { compute_raw_outcome AMQPType.ShortString (hex "00 07") ≡ found (short []) (hex "07") }
    ensures word { compute_raw_outcome AMQPType.ShortString (hex "04 'test'") ≡ found (short (codes "test")) [] }
    ensures two_bytes { compute_raw_outcome AMQPType.ShortString (hex "02 c3a9") ≡ found (short (hex "c3a9")) [] }
{}

/// Bytes that aren't UTF-8 are rejected once they have come: a byte that is in no UTF-8, a
/// character that is cut, an overlong form, a surrogate.
#[tactic(auto, using(crate::proofs::OnLiterals::byte_255, crate::proofs::OnLiterals::cut_letter, crate::proofs::OnLiterals::overlong, crate::proofs::OnLiterals::surrogate))]
pub fn short_strings_are_refused()
    ensures no_text { compute_raw_outcome AMQPType.ShortString (hex "01 ff") ≡ malformed }
    ensures cut_letter { compute_raw_outcome AMQPType.ShortString (hex "01 c3 a9") ≡ malformed }
    ensures overlong { compute_raw_outcome AMQPType.ShortString (hex "02 c080") ≡ malformed }
    ensures half { compute_raw_outcome AMQPType.ShortString (hex "03 eda080") ≡ malformed }
    ensures lacks { compute_raw_outcome AMQPType.ShortString (hex "02 ff") ≡ more 1 }
    ensures no_byte { compute_raw_outcome AMQPType.ShortString [] ≡ more 1 }
{}

/// An array of true and nothing is found; the boolean is written 7, and 1 is written for it.
pub fn an_array()
    ensures reads { compute_outcome (hex "'A' 00000003 't' 07 'V'")
        ≡ found (array (trees_of (scalar (boolean true) ∷ scalar void ∷ []))) [] }
    ensures writes { text (array (trees_of (scalar (boolean true) ∷ scalar void ∷ [])))
        ≡ hex "'A' 00000003 't' 01 'V'" }
{}

/// An array that holds the array of false; its body ends before the last three bytes. With a body
/// that is two bytes longer the number -1 is in the array too.
pub fn a_nested_array()
    ensures ends_before { compute_outcome (hex "'A' 00000007 'A' 00000002 't' 00 'b' ff 01")
        ≡ found (array (trees_of (array (trees_of (scalar (boolean false) ∷ [])) ∷ []))) (hex "'b' ff 01") }
    ensures longer { compute_outcome (hex "'A' 00000009 'A' 00000002 't' 00 'b' ff 01")
        ≡ found (array (trees_of (array (trees_of (scalar (boolean false) ∷ [])) ∷ scalar (number AMQPType.ShortShortInt 255) ∷ []))) (hex "01") }
{}

/// An array with no values, and a byte that is left.
pub fn an_empty_array()
    ensures reads { compute_outcome (hex "'A' 00000000 03") ≡ found (array no_trees) (hex "03") }
    ensures writes { text (array no_trees) ≡ hex "'A' 00000000" }
{}

/// A table of two keys, with a long string at the first and nothing at the second.
pub fn a_table()
    ensures reads { compute_outcome (hex "'F' 00000012 04 'test' 'S' 00000004 'test' 02 'tt' 'V'")
        ≡ found (table (entries_of ((codes "test", long (codes "test")) ∷ (codes "tt", scalar void) ∷ []))) [] }
    ensures writes { text (table (entries_of ((codes "test", long (codes "test")) ∷ (codes "tt", scalar void) ∷ [])))
        ≡ hex "'F' 00000012 04 'test' 'S' 00000004 'test' 02 'tt' 'V'" }
{}

/// A table with no keys, and a byte that is left.
pub fn an_empty_table()
    ensures reads { compute_outcome (hex "'F' 00000000 03") ≡ found (table no_entries) (hex "03") }
    ensures writes { text (table no_entries) ≡ hex "'F' 00000000" }
{}

/// Of equal keys the last one's value stays, whatever key is between, and the key is written once.
pub fn equal_keys()
    ensures reads { compute_outcome (hex "'F' 00000008 01 'a' 't' 01 01 'a' 't' 00")
        ≡ found (table (entries_of ((codes "a", scalar (boolean false)) ∷ []))) [] }
    ensures writes { text (table (entries_of ((codes "a", scalar (boolean false)) ∷ [])))
        ≡ hex "'F' 00000004 01 'a' 't' 00" }
    ensures between { compute_outcome (hex "'F' 0000000b 01 'a' 't' 01 01 'b' 'V' 01 'a' 't' 00")
        ≡ found (table (entries_of ((codes "a", scalar (boolean false)) ∷ (codes "b", scalar void) ∷ []))) [] }
    ensures mean { Mean (entries_of ((codes "a", scalar (boolean true)) ∷ (codes "b", scalar void) ∷ (codes "a", scalar (boolean false)) ∷ []))
        (entries_of ((codes "a", scalar (boolean false)) ∷ (codes "b", scalar void) ∷ [])) }
    ensures not_the_first { ¬ Mean (entries_of ((codes "a", scalar (boolean true)) ∷ (codes "a", scalar (boolean false)) ∷ []))
        (entries_of ((codes "a", scalar (boolean true)) ∷ [])) }
    ensures not_twice { ¬ Mean (entries_of ((codes "a", scalar void) ∷ (codes "a", scalar void) ∷ []))
        (entries_of ((codes "a", scalar void) ∷ (codes "a", scalar void) ∷ [])) }
{}

/// An encoding is canonical by its bytes: with ascending keys, no alternate tag, and 1 for true.
pub fn canonical_by_bytes()
    ensures table { Canon (hex "'F' 00000006 01 'a' 'V' 01 'b' 'V'") (table (entries_of ((codes "a", scalar void) ∷ (codes "b", scalar void) ∷ []))) }
    ensures alternate { ¬ Canon (hex "'U' 0005") (scalar (number AMQPType.ShortInt 5)) }
    ensures seven { ¬ Canon (hex "'t' 07") (scalar (boolean true)) }
    ensures short_string { ¬ Canon (hex "'A' 00000003 '_' 01 'x'") (array (trees_of (short (codes "x") ∷ []))) }
{}

/// A key comes before a longer one that begins with it, and a byte below 128 before any other.
pub fn keys_come_before()
    ensures prefix { ComesBefore (codes "a") (entries_of ((codes "aa", scalar void) ∷ [])) }
    ensures byte { ComesBefore (codes "z") (entries_of ((hex "c3a9", scalar void) ∷ [])) }
    ensures not_equal { ¬ ComesBefore (codes "a") (entries_of ((codes "a", scalar void) ∷ [])) }
{}

/// More bytes come after a value's rest, and lower the number that is needed.
pub fn more_bytes()
    ensures rest { with_more (found (scalar void) (hex "01")) (hex "02") ≡ found (scalar void) (hex "0102") }
    ensures fewer { with_more (more 5) (hex "0102") ≡ more 3 }
    ensures malformed { with_more malformed (hex "01") ≡ malformed }
    ensures waits { StillWaits (more 3) (hex "0102") }
    ensures enough { ¬ StillWaits (more 2) (hex "0102") }
{}

/// A boolean can be written again in two bytes and not in one, and a short string in none.
pub fn what_can_be_written()
    ensures boolean { IsWritableIn 2 (scalar (boolean true)) }
    ensures too_few { ¬ IsWritableIn 1 (scalar (boolean true)) }
    ensures short_string { ¬ IsWritableIn 9 (short (codes "x")) }
{}

/// A value in memory has ascending keys, and numbers of their types.
pub fn values_in_memory()
    ensures number { ¬ IsValue (scalar (number AMQPType.ShortShortInt 256)) }
    ensures no_number { ¬ IsValue (scalar (number AMQPType.FieldTable 7)) }
    ensures descending { ¬ IsValue (table (entries_of ((codes "b", scalar void) ∷ (codes "a", scalar void) ∷ []))) }
{}

/// Keys are read in any order, and written in that of their bytes.
pub fn keys_in_order()
    ensures reads { compute_outcome (hex "'F' 00000006 01 'b' 'V' 01 'a' 'V'")
        ≡ found (table (entries_of ((codes "a", scalar void) ∷ (codes "b", scalar void) ∷ []))) [] }
    ensures writes { text (table (entries_of ((codes "a", scalar void) ∷ (codes "b", scalar void) ∷ [])))
        ≡ hex "'F' 00000006 01 'a' 'V' 01 'b' 'V'" }
{}

/// A table of seventeen keys, with a value of nearly every type, in 199 bytes: it is written so,
/// and read back.
pub fn a_large_table()
    ensures { let bytes =
        hex "'F' 000000c2"
        ++ hex "04 'aaaa' 'b' 2a"
        ++ hex "03 'bar' 'F' 00000000"
        ++ hex "04 'bbbb' 'B' 40"
        ++ hex "04 'blah' 't' 00"
        ++ hex "04 'cccc' 's' 0020"
        ++ hex "04 'dddd' 'u' 0084"
        ++ hex "04 'eeee' 'I' ffffffcb"
        ++ hex "04 'ffff' 'i' 0001046a"
        ++ hex "03 'foo' 'A' 00000003 't' 01 'V'"
        ++ hex "04 'gggg' 'l' ffffffffffffd8f1"
        ++ hex "04 'hhhh' 'x' 00000004 2a010203"
        ++ hex "04 'iiii' 'f' 4229ae14"
        ++ hex "04 'jjjj' 'd' 404535c28f5c28f6"
        ++ hex "04 'kkkk' 'T' 00000000499602d2"
        ++ hex "04 'llll' 'V'"
        ++ hex "03 'oof' 'A' 00000000"
        ++ hex "04 'tabl' 'F' 00000019 03 'baz' 'S' 00000006 'blah42' 03 'foo' 'D' 37 000003e7" in
        let entries = entries_of (
        (codes "aaaa", scalar (number AMQPType.ShortShortInt 42))
        ∷ (codes "bar", table no_entries)
        ∷ (codes "bbbb", scalar (number AMQPType.ShortShortUInt 64))
        ∷ (codes "blah", scalar (boolean false))
        ∷ (codes "cccc", scalar (number AMQPType.ShortInt 32))
        ∷ (codes "dddd", scalar (number AMQPType.ShortUInt 132))
        ∷ (codes "eeee", scalar (number AMQPType.LongInt (cast_unsigned w32 (negsuc 52))))
        ∷ (codes "ffff", scalar (number AMQPType.LongUInt 66666))
        ∷ (codes "foo", array (trees_of (scalar (boolean true) ∷ scalar void ∷ [])))
        ∷ (codes "gggg", scalar (number AMQPType.LongLongInt (cast_unsigned w64 (negsuc 9998))))
        ∷ (codes "hhhh", octets (hex "2a010203"))
        ∷ (codes "iiii", scalar (number AMQPType.Float 0x4229ae14))
        ∷ (codes "jjjj", scalar (number AMQPType.Double 0x404535c28f5c28f6))
        ∷ (codes "kkkk", scalar (number AMQPType.Timestamp 1234567890))
        ∷ (codes "llll", scalar void)
        ∷ (codes "oof", array no_trees)
        ∷ (codes "tabl", table (entries_of ((codes "baz", long (codes "blah42")) ∷ (codes "foo", scalar (decimal 55 999)) ∷ []))) ∷ []) in
        (text (table entries) ≡ bytes) × (size (table entries) ≡ 199) × (compute_outcome bytes ≡ found (table entries) []) }
{}

/// A table inside an array: what is written is as much shorter as the key that came twice.
pub fn a_table_in_an_array()
    ensures reads { compute_outcome (hex "'A' 0000000b 'F' 00000006 01 'a' 'V' 01 'a' 'V'")
        ≡ found (array (trees_of (table (entries_of ((codes "a", scalar void) ∷ [])) ∷ []))) [] }
    ensures writes { text (array (trees_of (table (entries_of ((codes "a", scalar void) ∷ [])) ∷ [])))
        ≡ hex "'A' 00000008 'F' 00000003 01 'a' 'V'" }
{}

/// A table inside a table, and an array inside that.
pub fn a_table_in_a_table()
    ensures reads { compute_outcome (hex "'F' 0000000e 01 'a' 'F' 00000007 01 'b' 'A' 00000000")
        ≡ found (table (entries_of ((codes "a", table (entries_of ((codes "b", array no_trees) ∷ []))) ∷ []))) [] }
    ensures writes { text (table (entries_of ((codes "a", table (entries_of ((codes "b", array no_trees) ∷ []))) ∷ [])))
        ≡ hex "'F' 0000000e 01 'a' 'F' 00000007 01 'b' 'A' 00000000" }
{}

/// A key may be empty, and may have characters of more than one byte.
#[tactic(auto, using(crate::proofs::OnLiterals::empty_text, crate::proofs::OnLiterals::e_acute))]
pub fn other_keys()
    ensures empty { compute_outcome (hex "'F' 00000002 00 'V'")
        ≡ found (table (entries_of (([], scalar void) ∷ []))) [] }
    ensures two_bytes { compute_outcome (hex "'F' 00000004 02 c3a9 'V'")
        ≡ found (table (entries_of ((hex "c3a9", scalar void) ∷ []))) [] }
{}

/// A complete table is malformed if a key isn't UTF-8, and if the body cuts a key or its value.
#[tactic(auto, using(crate::proofs::OnLiterals::byte_255, crate::proofs::OnLiterals::letter_a))]
pub fn keys_are_refused()
    ensures no_text { compute_outcome (hex "'F' 00000003 01 ff 'V'") ≡ malformed }
    ensures cut { compute_outcome (hex "'F' 00000002 02 'aa' 'V'") ≡ malformed }
    ensures no_value { compute_outcome (hex "'F' 00000002 01 'a' 'V'") ≡ malformed }
    ensures unknown_value { compute_outcome (hex "'F' 00000003 01 'a' 'z'") ≡ malformed }
    ensures lacks { compute_outcome (hex "'F' 00000003 01 ff") ≡ more 1 }
{}

/// A new key goes to its place in the order of bytes, in which a prefix comes first; an equal key
/// takes the value.
pub fn keys_are_put()
    ensures first { insert (codes "a") (scalar void) (entries_of ((codes "aa", scalar void) ∷ []))
        ≡ entries_of ((codes "a", scalar void) ∷ (codes "aa", scalar void) ∷ []) }
    ensures between { insert (codes "az") (scalar void) (entries_of ((codes "a", scalar void) ∷ (codes "b", scalar void) ∷ []))
        ≡ entries_of ((codes "a", scalar void) ∷ (codes "az", scalar void) ∷ (codes "b", scalar void) ∷ []) }
    ensures last { insert (hex "c3a9") (scalar void) (entries_of ((codes "z", scalar void) ∷ []))
        ≡ entries_of ((codes "z", scalar void) ∷ (hex "c3a9", scalar void) ∷ []) }
    ensures again { insert (codes "a") (scalar (boolean true)) (entries_of ((codes "a", scalar void) ∷ (codes "b", scalar void) ∷ []))
        ≡ entries_of ((codes "a", scalar (boolean true)) ∷ (codes "b", scalar void) ∷ []) }
{}

/// A value is found only at its key.
pub fn keys_are_looked_up()
    ensures there { value_at (codes "b") (entries_of ((codes "a", scalar void) ∷ (codes "b", long (codes "c")) ∷ []))
        ≡ Some (long (codes "c")) }
    ensures not_there { value_at (codes "c") (entries_of ((codes "a", scalar void) ∷ (codes "b", long (codes "c")) ∷ []))
        ≡ None }
    ensures longer { has_key (codes "aa") (entries_of ((codes "a", scalar void) ∷ [])) ≡ false }
    ensures has { has_key (codes "a") (entries_of ((codes "a", scalar void) ∷ [])) ≡ true }
{}

/// If there is no byte one is needed, and of a length of four bytes those that haven't come.
pub fn cut_headers()
    ensures no_byte { compute_outcome [] ≡ more 1 }
    ensures array { compute_outcome (hex "'A' 00") ≡ more 3 }
    ensures string { compute_outcome (hex "'S' 00") ≡ more 3 }
    ensures table { compute_outcome (hex "'F'") ≡ more 4 }
{}

/// A number that is cut needs the rest of its width. A decimal has two, which are read one after
/// the other: first one byte is needed, then four.
pub fn a_cut_number()
    ensures four_bytes { compute_outcome (hex "'I' 0000") ≡ more 2 }
    ensures eight_bytes { compute_outcome (hex "'T' 01") ≡ more 7 }
    ensures scale { compute_outcome (hex "'D'") ≡ more 1 }
    ensures whole_number { compute_outcome (hex "'D' 02") ≡ more 4 }
    ensures number { compute_outcome (hex "'D' 02 00") ≡ more 3 }
{}

/// Nine more bytes of the body are needed, and the unknown type tag in what has come isn't looked
/// at.
pub fn a_cut_body()
    ensures lacks { compute_outcome (hex "'A' 0000000a 'z'") ≡ more 9 }
    ensures a_byte_more { compute_outcome (hex "'A' 0000000a 'z' 'V'") ≡ more 8 }
{}

/// As many bytes may be needed as a length can count, and nothing is allocated for them.
pub fn the_longest_frame()
    ensures array { compute_outcome (hex "'A' ffffffff") ≡ more 0xffffffff }
    ensures string { compute_outcome (hex "'S' ffffffff") ≡ more 0xffffffff }
    ensures no_memory { ¬ Heavy (hex "'S' ffffffff") }
{}

/// The first byte isn't a type tag: `z`, and a byte beyond ASCII.
pub fn an_unknown_id()
    ensures letter { compute_outcome (hex "'z'") ≡ unknown }
    ensures beyond_ascii { compute_outcome (hex "c8") ≡ unknown }
    ensures with_rest { compute_outcome (hex "c8 'V'") ≡ unknown }
{}

/// An unknown type tag in a body that has come completely is malformed.
pub fn an_unknown_id_inside()
    ensures { compute_outcome (hex "'A' 00000001 'z'") ≡ malformed }
{}

/// A value that the end of a complete body cuts is malformed, and asks for no more bytes.
pub fn a_cut_value_inside()
    ensures refused { compute_outcome (hex "'A' 00000002 's' 00") ≡ malformed }
    ensures with_rest { compute_outcome (hex "'A' 00000002 'I' 00 00002a") ≡ malformed }
{}

/// An inner length-prefixed field that ends after the outer one is malformed, though complete.
pub fn a_frame_past_its_body()
    ensures array { compute_outcome (hex "'A' 00000006 'A' 00000002 't' 00") ≡ malformed }
    ensures string { compute_outcome (hex "'A' 00000006 'S' 00000002 't' 00") ≡ malformed }
{}

/// What is written is read back, whatever is after it.
#[tactic(auto, using(crate::proofs::OnLiterals::letter_a))]
pub fn reading_back()
    ensures number { compute_outcome (text (scalar (number AMQPType.LongInt 70000)) ++ hex "21")
        ≡ found (scalar (number AMQPType.LongInt 70000)) (hex "21") }
    ensures array { compute_outcome (text (array (trees_of (array no_trees ∷ scalar void ∷ []))) ++ hex "21")
        ≡ found (array (trees_of (array no_trees ∷ scalar void ∷ []))) (hex "21") }
    ensures table { compute_outcome (text (table (entries_of ((codes "a", octets (hex "0102")) ∷ []))) ++ hex "21")
        ≡ found (table (entries_of ((codes "a", octets (hex "0102")) ∷ []))) (hex "21") }
{}

/// The array of an empty array nests two deep, and has two values and ten bytes; one of three times
/// nothing nests one deep, and has four values and eight bytes.
pub fn measures_of_arrays()
    ensures deep { depth (array (trees_of (array no_trees ∷ []))) ≡ 2 }
    ensures values { count (array (trees_of (array no_trees ∷ []))) ≡ 2 }
    ensures bytes { size (array (trees_of (array no_trees ∷ []))) ≡ 10 }
    ensures flat { depth (array (trees_of (scalar void ∷ scalar void ∷ scalar void ∷ []))) ≡ 1 }
    ensures flat_values { count (array (trees_of (scalar void ∷ scalar void ∷ scalar void ∷ []))) ≡ 4 }
    ensures flat_bytes { size (array (trees_of (scalar void ∷ scalar void ∷ scalar void ∷ []))) ≡ 8 }
    ensures writes_flat { text (array (trees_of (scalar void ∷ scalar void ∷ scalar void ∷ [])))
        ≡ hex "'A' 00000003 'V' 'V' 'V'" }
{}

/// An empty table at one key and a long string at another: two deep, three values; keys count as
/// bytes only.
pub fn measures_of_a_table()
    ensures deep { depth (table (entries_of ((codes "a", table no_entries) ∷ (codes "bb", long (codes "cc")) ∷ [])))
        ≡ 2 }
    ensures values { count (table (entries_of ((codes "a", table no_entries) ∷ (codes "bb", long (codes "cc")) ∷ [])))
        ≡ 3 }
    ensures bytes { size (table (entries_of ((codes "a", table no_entries) ∷ (codes "bb", long (codes "cc")) ∷ [])))
        ≡ 22 }
    ensures readable { readable (table (entries_of ((codes "a", table no_entries) ∷ (codes "bb", long (codes "cc")) ∷ [])))
        ≡ true }
{}

/// A payload is read by its type, with no type tag before it.
pub fn payloads()
    ensures boolean { compute_raw_outcome AMQPType.Boolean (hex "07 09") ≡ found (scalar (boolean true)) (hex "09") }
    ensures no_byte { compute_raw_outcome AMQPType.Boolean [] ≡ more 1 }
    ensures void { compute_raw_outcome AMQPType.Void (hex "05") ≡ found (scalar void) (hex "05") }
    ensures nothing { compute_raw_outcome AMQPType.Void [] ≡ found (scalar void) [] }
    ensures string { compute_raw_outcome AMQPType.LongString (hex "00000004 'test'")
        ≡ found (long (codes "test")) [] }
    ensures array { compute_raw_outcome AMQPType.FieldArray (hex "00000002 't' 00 09")
        ≡ found (array (trees_of (scalar (boolean false) ∷ []))) (hex "09") }
    ensures cut { compute_raw_outcome AMQPType.FieldArray (hex "000000") ≡ more 1 }
    ensures refused { compute_raw_outcome AMQPType.FieldArray (hex "00000001 'z'") ≡ malformed }
{}

/// An unsigned number of eight bytes is only a payload, and means the signed number of the same
/// bits.
pub fn unsigned_numbers_of_eight_bytes()
    ensures unsigned { compute_raw_outcome AMQPType.LongLongUInt (hex "2a2a2a2a2a2a2a2a")
        ≡ found (scalar (number AMQPType.LongLongInt 0x2a2a2a2a2a2a2a2a)) [] }
    ensures greatest { compute_raw_outcome AMQPType.LongLongUInt (hex "ffffffffffffffff")
        ≡ found (scalar (number AMQPType.LongLongInt (cast_unsigned w64 (negsuc 0)))) [] }
    ensures timestamp { compute_raw_outcome AMQPType.Timestamp (hex "2a2a2a2a2a2a2a2a")
        ≡ found (scalar (number AMQPType.Timestamp 0x2a2a2a2a2a2a2a2a)) [] }
{}

/// The nineteen type tags that are read, and the types that they denote; `_`, `z`, 0 and 200
/// denote no type.
pub fn ids()
    ensures boolean { kind (byte "t") ≡ Some AMQPType.Boolean }
    ensures short_short_int { kind (byte "b") ≡ Some AMQPType.ShortShortInt }
    ensures short_short_uint { kind (byte "B") ≡ Some AMQPType.ShortShortUInt }
    ensures short_int { kind (byte "s") ≡ Some AMQPType.ShortInt }
    ensures short_int_too { kind (byte "U") ≡ Some AMQPType.ShortInt }
    ensures short_uint { kind (byte "u") ≡ Some AMQPType.ShortUInt }
    ensures long_int { kind (byte "I") ≡ Some AMQPType.LongInt }
    ensures long_uint { kind (byte "i") ≡ Some AMQPType.LongUInt }
    ensures long_long_int { kind (byte "l") ≡ Some AMQPType.LongLongInt }
    ensures long_long_int_too { kind (byte "L") ≡ Some AMQPType.LongLongInt }
    ensures float { kind (byte "f") ≡ Some AMQPType.Float }
    ensures double { kind (byte "d") ≡ Some AMQPType.Double }
    ensures decimal_value { kind (byte "D") ≡ Some AMQPType.DecimalValue }
    ensures long_string { kind (byte "S") ≡ Some AMQPType.LongString }
    ensures field_array { kind (byte "A") ≡ Some AMQPType.FieldArray }
    ensures timestamp { kind (byte "T") ≡ Some AMQPType.Timestamp }
    ensures field_table { kind (byte "F") ≡ Some AMQPType.FieldTable }
    ensures byte_array { kind (byte "x") ≡ Some AMQPType.ByteArray }
    ensures void { kind (byte "V") ≡ Some AMQPType.Void }
    ensures short_string { kind (byte "_") ≡ None }
    ensures other_letter { kind (byte "z") ≡ None }
    ensures zero { kind 0 ≡ None }
    ensures beyond_ascii { kind 200 ≡ None }
{}

/// The type tag that is written for each type.
pub fn ids_are_written()
    ensures boolean { id_of AMQPType.Boolean ≡ byte "t" }
    ensures short_short_int { id_of AMQPType.ShortShortInt ≡ byte "b" }
    ensures short_short_uint { id_of AMQPType.ShortShortUInt ≡ byte "B" }
    ensures short_int { id_of AMQPType.ShortInt ≡ byte "s" }
    ensures short_uint { id_of AMQPType.ShortUInt ≡ byte "u" }
    ensures long_int { id_of AMQPType.LongInt ≡ byte "I" }
    ensures long_uint { id_of AMQPType.LongUInt ≡ byte "i" }
    ensures long_long_int { id_of AMQPType.LongLongInt ≡ byte "l" }
    ensures long_long_uint { id_of AMQPType.LongLongUInt ≡ byte "l" }
    ensures float { id_of AMQPType.Float ≡ byte "f" }
    ensures double { id_of AMQPType.Double ≡ byte "d" }
    ensures decimal_value { id_of AMQPType.DecimalValue ≡ byte "D" }
    ensures short_string { id_of AMQPType.ShortString ≡ byte "_" }
    ensures long_string { id_of AMQPType.LongString ≡ byte "S" }
    ensures field_array { id_of AMQPType.FieldArray ≡ byte "A" }
    ensures timestamp { id_of AMQPType.Timestamp ≡ byte "T" }
    ensures field_table { id_of AMQPType.FieldTable ≡ byte "F" }
    ensures byte_array { id_of AMQPType.ByteArray ≡ byte "x" }
    ensures void { id_of AMQPType.Void ≡ byte "V" }
{}

/// The type that is read if the type tag of a type was written: a signed number of eight bytes
/// for an unsigned one, no type for a short string, and the type itself for every other.
pub fn types_read_back()
    ensures long_long_uint { read_as AMQPType.LongLongUInt ≡ Some AMQPType.LongLongInt }
    ensures short_string { read_as AMQPType.ShortString ≡ None }
    ensures other { read_as AMQPType.DecimalValue ≡ Some AMQPType.DecimalValue }
{}

/// Only a complete length-prefixed field of at least one byte allocates, whatever it holds.
pub fn memory()
    ensures body { Heavy (hex "'A' 00000001 'z'") }
    ensures string { Heavy (hex "'S' 00000001 'z'") }
    ensures table { Heavy (hex "'F' 00000001 'z'") }
    ensures empty { ¬ Heavy (hex "'A' 00000000") }
    ensures empty_string { ¬ Heavy (hex "'S' 00000000") }
    ensures cut { ¬ Heavy (hex "'A' 00000002 'V'") }
    ensures cut_table { ¬ Heavy (hex "'F' 00000002 'V'") }
    ensures scalar { ¬ Heavy (hex "'I' 00000001") }
    ensures unknown { ¬ Heavy (hex "'_' 01 'x'") }
{}

/// Only a complete payload of at least one byte after its length allocates, a short string's too.
pub fn memory_of_payloads()
    ensures short_string { RawHeavy AMQPType.ShortString (hex "01 ff") }
    ensures empty { ¬ RawHeavy AMQPType.ShortString (hex "00 07") }
    ensures cut { ¬ RawHeavy AMQPType.ShortString (hex "02 ff") }
    ensures byte_array { RawHeavy AMQPType.ByteArray (hex "00000001 00") }
    ensures decimal { ¬ RawHeavy AMQPType.DecimalValue (hex "02 0000002a") }
{}

/// The grammar agrees: what is found has an encoding, and what is malformed has no prefix
/// that is one.
pub fn by_the_grammar()
    ensures array { Outcome (hex "'A' 00000003 't' 07 'V'") (found (array (trees_of (scalar (boolean true) ∷ scalar void ∷ []))) []) }
    ensures table { Outcome (hex "'F' 00000008 01 'a' 't' 01 01 'a' 't' 00") (found (table (entries_of ((codes "a", scalar (boolean false)) ∷ []))) []) }
    ensures refused { Outcome (hex "'A' 00000001 'z'") malformed }
    ensures refused_key { Outcome (hex "'F' 00000003 01 ff 'V'") malformed }
    ensures refused_text { RawOutcome AMQPType.ShortString (hex "01 ff") malformed }
    ensures lacks { Outcome (hex "'A' 0000000a 'z'") (more 9) }
    ensures unknown { Outcome (hex "'z' 'V'") unknown }
{}
