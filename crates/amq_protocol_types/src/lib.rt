//! Values of AMQP 0-9-1 field tables: types, parsers and serializers.
//!
//! A field table maps short strings to typed values. It carries queue arguments, message headers
//! and server properties. This crate decodes and encodes them, by the type tags of RabbitMQ and its
//! clients; it does no networking.
//!
//! | Module | For |
//! |---|---|
//! | [`parsing`] | owned values from bytes; incomplete input is distinguished from malformed |
//! | [`stream`] | the same from untrusted peers: limits on length and nesting; readers |
//! | [`generation`] | bytes from values, always in the canonical encoding |
//! | [`flags`] | named booleans packed eight to a byte, as in method arguments |
//!
//! A value is an [`AMQPValue`], here a table with one entry. It is written, and parsed back:
//!
//! ```rust
//! let entries = [("x-max-length", AMQPValue::LongInt(10_000))];
//! let arguments = FieldTable::from_entries(alloc, entries)?;
//! let value = AMQPValue::FieldTable(arguments);
//!
//! let bytes = to_vec(alloc, &value)?;
//!
//! let (rest, read) = parse_value(alloc, SliceInput::new(bytes.as_slice()))?;
//! ```
//!
//! Calls that may allocate take the allocator first, and return an error if an allocation fails.
//! `parse_value` recurses as deep as its input nests: on bytes from untrusted peers use
//! [`stream::parse_value_within`], [`stream::ValueReader`] or `amqp_in_place::read_in_place`.
//!
//! `CALLING.md` has the public contracts and a proved caller, `crates/examples` complete programs.
//!
//! The rows of `crates/test_calls/data` test the calls, and `crates/test_codec` what no row can say.
//! `tests/memory` tests them with allocations that fail and with large input.
//!
//! What comes in, through which modules, and what comes out:
//!
//! ```text
//! input      parsing::values, by scalars, strings and pairs       AMQPValue, rest
//! input      parsing::within, by header (is all there?), values   AMQPValue, rest
//! reader     stream::reader, values, pending (bytes so far)       AMQPValue
//! AMQPValue  generation::owned, by values                         a new vector
//! AMQPValue  generation::values, by scalars, strings, context     slice, vector, device
//! AMQPFlags  generation::flags; back by parsing::flags            a byte for eight flags
//! ```
#![tactic(auto)]

mod errors;
pub mod flags;
pub mod generation;
pub mod parsing;
pub mod stream;

pub use amqp_value_core::types::{
    AMQPType, Boolean, ByteArray, ChannelId, ChunkSize, ConsumerCount, DecimalValue, DeliveryTag,
    Double, FieldArray, FieldTable, Float, FrameSize, Heartbeat, Identifier, LongInt, LongLongInt,
    LongLongUInt, LongString, LongUInt, MAX_SHORT_STRING_LENGTH, MessageCount, PayloadSize,
    ReplyCode, ShortInt, ShortShortInt, ShortShortUInt, ShortString, ShortStringError, ShortUInt,
    Timestamp, TryCopyError, Void,
};
pub use amqp_value_core::value::AMQPValue;
pub use errors::Error;
