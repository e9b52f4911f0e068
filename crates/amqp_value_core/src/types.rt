//! Exports what the variants of `AMQPValue` hold, and `AMQPType`, the type of a value, each from
//! its module.

mod amqp_type;
mod byte_array;
mod decimal_value;
mod double;
mod field_array;
mod field_table;
mod float;
mod long_string;
mod names;
mod short_string;

pub use amqp_type::AMQPType;
pub use byte_array::ByteArray;
pub use decimal_value::DecimalValue;
pub use double::Double;
pub use field_array::FieldArray;
pub use field_table::FieldTable;
pub use float::Float;
pub use long_string::LongString;
pub use names::{
    Boolean, ChannelId, ChunkSize, ConsumerCount, DeliveryTag, FrameSize, Heartbeat, Identifier,
    LongInt, LongLongInt, LongLongUInt, LongUInt, MAX_SHORT_STRING_LENGTH, MessageCount,
    PayloadSize, ReplyCode, ShortInt, ShortShortInt, ShortShortUInt, ShortUInt, Timestamp, Void,
};
pub use short_string::{ShortString, ShortStringError, TryCopyError};
