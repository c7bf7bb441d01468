//! Characters of ASCII as bits of a set of characters.

/// NUL, line feed and carriage return.
pub(crate) const BREAKS: u64 = 1 << 0 | 1 << 10 | 1 << 13;

pub(crate) const TAB: u64 = 1 << 9;

pub(crate) const FORM_FEED: u64 = 1 << 12;

pub(crate) const SPACE: u64 = 1 << 32;

pub(crate) const QUOTE: u64 = 1 << 34;

pub(crate) const AMPERSAND: u64 = 1 << 38;

pub(crate) const APOSTROPHE: u64 = 1 << 39;

pub(crate) const HYPHEN: u64 = 1 << 45;

pub(crate) const SOLIDUS: u64 = 1 << 47;

pub(crate) const SEMICOLON: u64 = 1 << 59;

pub(crate) const LESS_THAN: u64 = 1 << 60;

pub(crate) const EQUALS: u64 = 1 << 61;

pub(crate) const GREATER_THAN: u64 = 1 << 62;
