//! `Encoding`: the encoding of a value of fixed width, which `encoding_of` makes from a type tag,
//! bits and a scale, for `put`.

ghost use Rattle.std.specs.Prelude.{◌≡◌, ◌≤◌, ◌∷◌, length, take, MatchBool, MatchOption, MatchResult};
ghost use Rattle.amqp_value_core.specs.declared.types.amqp_type.AMQPType.TheVariants as amqp;
ghost use Rattle.amqp_value_core.specs.Values.{Scalar, scalar};
ghost use Rattle.amqp_value_core.specs.Texts.{text};
ghost use Rattle.amqp_c.specs.Items.{IsScalarOf, IsScalarOfType, IsScalarTag};
ghost use Rattle.amqp_c.specs.BuildCalls.{RefusesNumber};

use crate::Fault;
use crate::entry::has_content;
use amqp_value_core::types::AMQPType;
use std::marker::Model;

/// The encoding of a value of fixed width: its type tag, and at most eight bytes more.
#[derive(Drop)]
pub struct Encoding {
    tag: u8,
    /// The bytes after the type tag, and then zeros, as a little-endian number: so they stay in a register.
    payload: u64,
    length: usize,
}

impl Model for Encoding {
    ghost use Rattle.std.specs.Prelude.{ℕ, ◌≤◌, ◌∷◌, List, take};
    ghost use Rattle.std.specs.Int.{w64, to_le_bytes};

    ghost Value = { List ℕ };

    ghost view = { λ e. e.tag ∷ take e.length (to_le_bytes w64 e.payload) };

    ghost invariant = { λ e. e.length ≤ 8 };
}

impl Encoding {
    /// The encoding of this type tag and this payload.
    fn new(tag: u8, payload: &[u8]) -> Encoding
        requires { length payload.now ≤ 8 }
        ensures { result ≡ tag ∷ payload.now }
    {
        let bytes = eight_bytes(payload);
        Encoding {
            tag,
            payload: u64::from_le_bytes(bytes),
            length: payload.len(),
        }
    }

    /// Its type tag, and eight bytes that begin with its payload, with how many that has.
    pub fn parts(&self) -> (u8, [u8; 8], usize)
        ensures few { result.2 ≤ 8 }
        ensures parts { result.0 ∷ take result.2 result.1 ≡ self.now }
    {
        (self.tag, self.payload.to_le_bytes(), self.length)
    }
}

/// The bytes, and then zeros.
fn eight_bytes(bytes: &[u8]) -> [u8; 8]
    requires { length bytes.now ≤ 8 }
    ensures { take (length bytes.now) result ≡ bytes.now }
{
    let mut all = [0; 8];
    all[..bytes.len()].copy_from_slice(bytes);
    all
}

/// The encoding of the value of fixed width that these determine, as those of an entry do.
pub fn encoding_of(tag: u8, bits: u64, scale: u8) -> Result<Encoding, Fault>
    ensures { MatchResult result
        (λ e. (x : Scalar) × IsScalarOf tag bits scale x × (e ≡ text (scalar x)))
        (RefusesNumber tag bits scale) }
{
    match encoding_by_tag(tag, bits, scale) {
        Some(encoding) => Ok(encoding),
        None if is_scalar_tag(tag) => Err(Fault::OutOfRange),
        None => Err(Fault::BadTag),
    }
}

/// Whether it is the type tag that is written for a type of fixed width.
#[cold]
// The tactic names why the type tag isn't of fixed width: of no type, of one with content, of another.
#[tactic(auto, using(crate::proofs::Scalars::no_kind, crate::proofs::Scalars::with_content, crate::proofs::Scalars::other_id, crate::proofs::Scalars::same_id))]
fn is_scalar_tag(tag: u8) -> bool
    ensures { MatchBool result (IsScalarTag tag) (IsScalarTag tag → ⊥) }
{
    let Some(amqp_type) = AMQPType::from_id(tag as char) else {
        return false;
    };
    if has_content(amqp_type) {
        return false;
    }
    let written = amqp_type.get_id() as u8;
    if written != tag {
        return false;
    }
    true
}

/// The encoding of the value of fixed width that these determine, if there is one.
fn encoding_by_tag(tag: u8, bits: u64, scale: u8) -> Option<Encoding>
    ensures { MatchOption result
        ((x : Scalar) → IsScalarOf tag bits scale x → ⊥)
        (λ e. (x : Scalar) × IsScalarOf tag bits scale x × (e ≡ text (scalar x))) }
{
    if scale != 0 {
        // of all types only a decimal has a scale
        return if tag == b'D' {
            decimal(bits, scale)
        } else {
            None
        };
    }
    let amqp_type = AMQPType::from_id(tag as char)?;
    // `U` and `L` are alternate tags, which no entry has
    if amqp_type.get_id() as u8 != tag {
        return None;
    }
    encoding_by_type(amqp_type, bits)
}

/// The encoding of the value of this type that the bits determine, with a scale of 0.
fn encoding_by_type(amqp_type: AMQPType, bits: u64) -> Option<Encoding>
    ensures { MatchOption result
        ((x : Scalar) → IsScalarOfType amqp_type bits 0 x → ⊥)
        (λ e. (x : Scalar) × IsScalarOfType amqp_type bits 0 x × (e ≡ text (scalar x))) }
{
    match amqp_type {
        AMQPType::DecimalValue => decimal(bits, 0),
        AMQPType::Boolean => boolean(bits),
        AMQPType::ShortShortInt => {
            let n = i8::try_from(bits.cast_signed()).ok()?;
            Some(Encoding::new(b'b', &n.to_be_bytes()))
        }
        AMQPType::ShortShortUInt => {
            let n = u8::try_from(bits).ok()?;
            Some(Encoding::new(b'B', &n.to_be_bytes()))
        }
        AMQPType::ShortInt => {
            let n = i16::try_from(bits.cast_signed()).ok()?;
            Some(Encoding::new(b's', &n.to_be_bytes()))
        }
        AMQPType::ShortUInt => {
            let n = u16::try_from(bits).ok()?;
            Some(Encoding::new(b'u', &n.to_be_bytes()))
        }
        AMQPType::LongInt => {
            let n = i32::try_from(bits.cast_signed()).ok()?;
            Some(Encoding::new(b'I', &n.to_be_bytes()))
        }
        AMQPType::LongUInt => {
            let n = u32::try_from(bits).ok()?;
            Some(Encoding::new(b'i', &n.to_be_bytes()))
        }
        AMQPType::Float => {
            let n = u32::try_from(bits).ok()?;
            Some(Encoding::new(b'f', &n.to_be_bytes()))
        }
        AMQPType::LongLongInt => Some(Encoding::new(b'l', &bits.to_be_bytes())),
        AMQPType::Double => Some(Encoding::new(b'd', &bits.to_be_bytes())),
        AMQPType::Timestamp => Some(Encoding::new(b'T', &bits.to_be_bytes())),
        AMQPType::Void => void(bits),
        AMQPType::LongLongUInt
        | AMQPType::ShortString
        | AMQPType::LongString
        | AMQPType::ByteArray
        | AMQPType::FieldArray
        | AMQPType::FieldTable => None,
    }
}

/// The encoding of a decimal: its scale in a byte, and its number in four.
fn decimal(bits: u64, scale: u8) -> Option<Encoding>
    ensures { MatchOption result
        ((x : Scalar) → IsScalarOfType amqp.DecimalValue bits scale x → ⊥)
        (λ e. (x : Scalar) × IsScalarOfType amqp.DecimalValue bits scale x × (e ≡ text (scalar x))) }
{
    let n = u32::try_from(bits).ok()?;
    let [a, b, c, d] = n.to_be_bytes();
    Some(Encoding::new(b'D', &[scale, a, b, c, d]))
}

// The tactic names what each boolean is written as.
/// The encoding of a boolean, whose bits are 0 or 1.
#[tactic(auto, using(crate::proofs::Scalars::false_written, crate::proofs::Scalars::true_written))]
fn boolean(bits: u64) -> Option<Encoding>
    ensures { MatchOption result
        ((x : Scalar) → IsScalarOfType amqp.Boolean bits 0 x → ⊥)
        (λ e. (x : Scalar) × IsScalarOfType amqp.Boolean bits 0 x × (e ≡ text (scalar x))) }
{
    match bits {
        0 => Some(Encoding::new(b't', &[0])),
        1 => Some(Encoding::new(b't', &[1])),
        _ => None,
    }
}

/// The encoding of nothing, whose bits are 0.
fn void(bits: u64) -> Option<Encoding>
    ensures { MatchOption result
        ((x : Scalar) → IsScalarOfType amqp.Void bits 0 x → ⊥)
        (λ e. (x : Scalar) × IsScalarOfType amqp.Void bits 0 x × (e ≡ text (scalar x))) }
{
    if bits != 0 {
        return None;
    }
    Some(Encoding::new(b'V', &[]))
}
