//! Worked examples of the definitions in specs/ of amqp_value_core and of amq_protocol_types.
//!
//! Nothing here does anything when it runs: the contracts are the examples, and they hold by
//! computation.

pub mod encodings;
pub mod flags;
pub mod numbers;
