//! [`Error`] holds any error of this crate: a [`ParserError`] (`parsing/errors.rt`), a [`GenError`]
//! (`generation/error.rt`), a [`StreamError`] (`stream/error.rt`), a string's or an allocation's.

use crate::generation::GenError;
use crate::parsing::ParserError;
use crate::stream::StreamError;
use amqp_value_core::types::{ShortStringError, TryCopyError};
use std::alloc::AllocError;

/// Any error of this crate, for a function that passes on by `?` whichever comes.
#[derive(Clone, Debug, PartialEq, Drop, thiserror::Error)]
pub enum Error {
    /// A string has more than 255 bytes.
    #[error(transparent)]
    ShortString(#[from] ShortStringError),
    /// A string wasn't copied.
    #[error(transparent)]
    TryCopy(#[from] TryCopyError),
    /// A value wasn't written.
    #[error(transparent)]
    Gen(#[from] GenError),
    /// A parser returned no value.
    #[error(transparent)]
    Parser(#[from] ParserError),
    /// A reader of values returned none.
    #[error(transparent)]
    Stream(#[from] StreamError),
    /// An allocation failed.
    #[error(transparent)]
    Alloc(#[from(alloc)] AllocError),
}
