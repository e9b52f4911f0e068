//! Conversions of `AMQPValue`: `From` what each variant holds, getters of it, `clone`, and
//! `try_from`, which takes a JSON value.

mod copies;
mod from;
mod getters;
mod json;
