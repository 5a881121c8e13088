//! Types as data: their printed texts, and what is made again where memory was refused.
mod convert;
mod display;
mod error;
mod indices;
mod referenced;
mod refusals;
mod views;
