//! Sessions over given lists, and over texts.
mod lists;
mod streams;
mod wanted;
