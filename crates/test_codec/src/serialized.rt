//! What serde writes of types, strings, decimals and flags, and reads back.

use amq_protocol_types::flags::AMQPFlags;
use amq_protocol_types::{AMQPType, ByteArray, DecimalValue, LongString};
use std::test::Fail;

#[test]
fn a_type_is_its_name(rt: HostRuntime) -> Result<(), Fail> {
    let text = serde_json::to_string(rt.alloc(), &AMQPType::ShortShortInt)?;
    assert_eq!(rt; text.as_str(), "\"ShortShortInt\"");
    let read: AMQPType = serde_json::from_str(rt.alloc(), text.as_str())?;
    assert_eq!(rt; read, AMQPType::ShortShortInt);
    Ok(())
}

#[test]
fn a_decimal_is_its_two_numbers(rt: HostRuntime) -> Result<(), Fail> {
    let decimal = DecimalValue {
        scale: 2,
        value: 42,
    };
    let text = serde_json::to_string(rt.alloc(), &decimal)?;
    assert_eq!(rt; text.as_str(), "{\"scale\":2,\"value\":42}");
    let read: DecimalValue = serde_json::from_str(rt.alloc(), text.as_str())?;
    assert_eq!(rt; read, decimal);
    Ok(())
}

#[test]
fn bytes_are_numbers(rt: HostRuntime) -> Result<(), Fail> {
    let string = LongString::from_slice(rt.alloc(), &[104, 255])?;
    let text = serde_json::to_string(rt.alloc(), &string)?;
    assert_eq!(rt; text.as_str(), "[104,255]");
    assert!(rt; serde_json::from_str::<LongString>(rt.alloc(), text.as_str())? == string);
    let array = ByteArray::from_slice(rt.alloc(), &[104, 255])?;
    let text = serde_json::to_string(rt.alloc(), &array)?;
    assert_eq!(rt; text.as_str(), "[104,255]");
    assert!(rt; serde_json::from_str::<ByteArray>(rt.alloc(), text.as_str())? == array);
    Ok(())
}

#[test]
fn flags_are_names_and_values(rt: HostRuntime) -> Result<(), Fail> {
    let mut flags = AMQPFlags::new_in(rt.alloc());
    flags.add_flag(String::from_str(rt.alloc(), "durable")?, true)?;
    flags.add_flag(String::from_str(rt.alloc(), "exclusive")?, false)?;
    let text = serde_json::to_string(rt.alloc(), &flags)?;
    assert_eq!(rt;
        text.as_str(),
        "{\"flags\":[[\"durable\",true],[\"exclusive\",false]]}"
    );
    assert!(rt; serde_json::from_str::<AMQPFlags>(rt.alloc(), text.as_str())? == flags);
    Ok(())
}
