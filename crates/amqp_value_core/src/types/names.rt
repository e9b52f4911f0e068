//! AMQP's names for Rust's types, as `ShortUInt` for `u16`, and `MAX_SHORT_STRING_LENGTH`.

/// A boolean.
pub type Boolean = bool;
/// A signed integer of 8 bits.
pub type ShortShortInt = i8;
/// An unsigned integer of 8 bits.
pub type ShortShortUInt = u8;
/// A signed integer of 16 bits.
pub type ShortInt = i16;
/// An unsigned integer of 16 bits.
pub type ShortUInt = u16;
/// A signed integer of 32 bits.
pub type LongInt = i32;
/// An unsigned integer of 32 bits.
pub type LongUInt = u32;
/// A signed integer of 64 bits.
pub type LongLongInt = i64;
/// An unsigned integer of 64 bits.
pub type LongLongUInt = u64;
/// A time, AMQP's `timestamp` (0-9-1, section 4.2.5.4), in seconds since 1970.
pub type Timestamp = LongLongUInt;
/// No value: a type that has one value, and a payload of no bytes.
pub type Void = ();

/// The number of a class or of a method.
pub type Identifier = ShortUInt;
/// The number of a channel; 0 is the connection itself.
pub type ChannelId = Identifier;
/// The seconds between two heartbeats; 0 turns them off.
pub type Heartbeat = ShortUInt;
/// The code of a reply.
pub type ReplyCode = ShortUInt;
/// The size of a chunk in bytes.
pub type ChunkSize = LongUInt;
/// The number of consumers.
pub type ConsumerCount = LongUInt;
/// The size of a frame in bytes; as a limit, 0 is none.
pub type FrameSize = LongUInt;
/// The number of messages.
pub type MessageCount = LongUInt;
/// The tag of a delivery.
pub type DeliveryTag = LongLongUInt;
/// The size of a message in bytes.
pub type PayloadSize = LongLongUInt;

/// The maximum length of a short string in bytes, as its length has one byte.
pub const MAX_SHORT_STRING_LENGTH: usize = 255;
