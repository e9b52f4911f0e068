//! Worked examples of `pack` and `unpack`: flags as the bits of bytes, and back.

ghost use Rattle.std.specs.Prelude.{◌≡◌, true, false, [], ◌∷◌, codes};
ghost use Rattle.amqp_value_core.specs.Decode.{hex};
ghost use Rattle.amq_protocol_types.specs.Flags.{pack, unpack};

/// Flags are packed eight to a byte, the first one's bit the lowest, and the bits left over are 0.
pub fn packed_flags()
    ensures five { pack (true ∷ false ∷ false ∷ true ∷ true ∷ []) ≡ hex "19" }
    ensures ten { pack (true ∷ false ∷ false ∷ true ∷ true ∷ true ∷ false ∷ false ∷ true ∷ true ∷ []) ≡ hex "3903" }
    ensures ninth { pack (false ∷ false ∷ false ∷ false ∷ false ∷ false ∷ false ∷ false ∷ true ∷ []) ≡ hex "0001" }
    ensures none { pack [] ≡ [] }
{}

/// Names are paired with bits as long as both last: a, b, c and so on with the lowest bits first.
pub fn unpacked_flags()
    ensures ten { unpack
        (codes "a" ∷ codes "b" ∷ codes "c" ∷ codes "d" ∷ codes "e" ∷ codes "f" ∷ codes "g" ∷ codes "h" ∷ codes "i" ∷ codes "j" ∷ [])
        (hex "dd02")
        ≡ (codes "a", true) ∷ (codes "b", false) ∷ (codes "c", true) ∷ (codes "d", true) ∷ (codes "e", true) ∷ (codes "f", false) ∷ (codes "g", true) ∷ (codes "h", true) ∷ (codes "i", false) ∷ (codes "j", true) ∷ [] }
    ensures few_names { unpack (codes "a" ∷ codes "b" ∷ []) (hex "fe07") ≡ (codes "a", false) ∷ (codes "b", true) ∷ [] }
    ensures no_bytes { unpack (codes "a" ∷ []) [] ≡ [] }
{}
