//! The tag of each message, and the markers of structures (Bolt 4.4, section "Messages").

pub(crate) const HELLO: u8 = 0x01;

pub(crate) const GOODBYE: u8 = 0x02;

pub(crate) const RESET: u8 = 0x0F;

pub(crate) const RUN: u8 = 0x10;

pub(crate) const BEGIN: u8 = 0x11;

pub(crate) const COMMIT: u8 = 0x12;

pub(crate) const ROLLBACK: u8 = 0x13;

pub(crate) const DISCARD: u8 = 0x2F;

pub(crate) const PULL: u8 = 0x3F;

pub(crate) const ROUTE: u8 = 0x66;

pub(crate) const SUCCESS: u8 = 0x70;

pub(crate) const RECORD: u8 = 0x71;

pub(crate) const IGNORED: u8 = 0x7E;

pub(crate) const FAILURE: u8 = 0x7F;

/// The marker of a structure without fields; one with n fields has the n-th marker behind it.
pub(crate) const FIRST_STRUCTURE: u8 = 0xB0;

/// The marker of a structure with 15 fields.
pub(crate) const LAST_STRUCTURE: u8 = 0xBF;

/// The marker of a structure with one field.
pub(crate) const ONE_FIELD: u8 = FIRST_STRUCTURE + 1;

/// The marker of a structure with three fields.
pub(crate) const THREE_FIELDS: u8 = FIRST_STRUCTURE + 3;
