//! [`to_vec`], [`tagged_field_table_to_vec`] and [`field_table_to_vec`]: the canonical encoding of a
//! value or of a table, in a new vector.

ghost use Rattle.std.specs.Prelude.{◌≡◌, ◌≢◌, ◌^◌, ◌≤◌, ℕ, List, IfOk, IfErr, OnOk};
ghost use Rattle.amqp_value_core.specs.Values.{table};
ghost use Rattle.amqp_value_core.specs.View.{view};
ghost use Rattle.amqp_value_core.specs.Containers.{table_view};
ghost use Rattle.amqp_value_core.specs.Grammar.{Wire, Raw};
ghost use Rattle.amqp_value_core.specs.Texts.{text, payload, size, Fits};
ghost use Rattle.amqp_value_core.specs.InMemory.{IsValue};
ghost use Rattle.amq_protocol_types.specs.declared.generation.error.GenError.TheVariants.{OutOfMemory, LengthTooLong, InvalidOffset};
ghost use Rattle.amq_protocol_types.specs.generation.Written.{IsReadBackAndCanonical, IsPayloadReadBack, IsShortestAndUnique};
ghost use Rattle.amq_protocol_types.specs.generation.NewVectors.{IsNotEncoded, FailsOnlyForMemory};

use crate::generation::{GenError, WriteContext, gen_field_table, gen_type, gen_value};
use amqp_value_core::types::{AMQPType, FieldTable};
use amqp_value_core::value::AMQPValue;
use std::alloc::Global;

/// Returns a value's encoding in a new vector: what [`gen_value`] writes.
///
/// Returns `LengthTooLong` if a string or the body of a container has more than 4294967295 bytes,
/// and `OutOfMemory` if an allocation fails; no other error, and for a value that was parsed only
/// `OutOfMemory`. It uses stack for each level of nesting.
pub fn to_vec(alloc: Global, value: &AMQPValue) -> Result<Vec<u8>, GenError>
    ensures bytes { IfOk result (λ bytes. bytes.items ≡ text (view value.now)) }
    ensures fits { OnOk result (Fits (view value.now)) }
    ensures err { IfErr result (IsNotEncoded (Fits (view value.now))) }
    ensures parsed { FailsOnlyForMemory (λ w. Wire w (view value.now)) result }
    ensures encoding { IsShortestAndUnique (view value.now) }
    ensures ok { OnOk result (IsReadBackAndCanonical (view value.now)) }
{
    let mut context = WriteContext::from(Vec::new(alloc));
    match gen_value(value, &mut context) {
        Ok(()) => Ok(context.into_inner().0),
        Err(error) => Err(vector_error(value, error)),
    }
}

/// Returns the encoding of a table in a new vector, with its type tag: what [`to_vec`] returns for
/// the value that holds the table. Errors and stack are as there.
pub fn tagged_field_table_to_vec(alloc: Global, t: &FieldTable) -> Result<Vec<u8>, GenError>
    ensures bytes { IfOk result (λ bytes. bytes.items ≡ text (table (table_view t.now))) }
    ensures fits { OnOk result (Fits (table (table_view t.now))) }
    ensures err { IfErr result (IsNotEncoded (Fits (table (table_view t.now)))) }
    ensures parsed { FailsOnlyForMemory (λ w. Wire w (table (table_view t.now))) result }
    ensures encoding { IsShortestAndUnique (table (table_view t.now)) }
    ensures ok { OnOk result (IsReadBackAndCanonical (table (table_view t.now))) }
{
    let mut context = WriteContext::from(Vec::new(alloc));
    gen_type(AMQPType::FieldTable, &mut context)?;
    match gen_field_table(t, &mut context) {
        Ok(()) => Ok(context.into_inner().0),
        Err(error) => Err(length_error(error)),
    }
}

/// Returns the encoding of a table in a new vector, without its type tag: what [`gen_field_table`]
/// writes. Errors and stack are as in [`to_vec`].
pub fn field_table_to_vec(alloc: Global, t: &FieldTable) -> Result<Vec<u8>, GenError>
    ensures bytes { IfOk result (λ bytes. bytes.items ≡ payload (table (table_view t.now))) }
    ensures fits { OnOk result (Fits (table (table_view t.now))) }
    ensures err { IfErr result (IsNotEncoded (Fits (table (table_view t.now)))) }
    ensures parsed { FailsOnlyForMemory (λ b. Raw AMQPType.FieldTable b (table (table_view t.now)))
        result }
    ensures value { OnOk result (IsValue (table (table_view t.now))) }
    ensures read_back { OnOk result
        (IsPayloadReadBack AMQPType.FieldTable (table (table_view t.now))) }
{
    let mut untagged = WriteContext::from(Vec::new(alloc));
    match gen_field_table(t, &mut untagged) {
        Ok(()) => Ok(untagged.into_inner().0),
        Err(error) => Err(length_error(error)),
    }
}

// What an error of `gen_value` means for an empty vector. A value of 2^64 bytes or more is no
// ShortString, which has at most 255, so it has a length that doesn't fit its field.
fn vector_error(value: &AMQPValue, error: GenError) -> GenError
    requires { error ≡ InvalidOffset → 2 ^ 64 ≤ size (view value.now) }
    ensures other { error ≢ InvalidOffset → result ≡ error }
    ensures offset { error ≡ InvalidOffset → (result ≡ LengthTooLong) × (Fits (view value.now) → ⊥) }
{
    match (value, error) {
        (AMQPValue::ShortString(s), GenError::InvalidOffset) => {
            let _ = s.as_str();
            GenError::LengthTooLong
        }
        (_, GenError::InvalidOffset) => GenError::LengthTooLong,
        _ => error,
    }
}

// What an error of a container's generator means for a new vector. No length field holds 2^64
// bytes, of which `InvalidOffset` tells.
fn length_error(error: GenError) -> GenError
    ensures other { error ≢ InvalidOffset → result ≡ error }
    ensures offset { error ≡ InvalidOffset → result ≡ LengthTooLong }
{
    match error {
        GenError::InvalidOffset => GenError::LengthTooLong,
        _ => error,
    }
}
