//! A place in bytes that are read from left to right, and the numbers that stand there.

ghost use Rattle.std.specs.Prelude.{◌≡◌, ◌-◌, length};
ghost use Rattle.std.specs.Int.{w8, w16, w32, w64};
ghost use Rattle.ncc_pack.specs.Reading.{Gives, number_at};

use crate::error::PackError;
use std::alloc::Global;

/// Where reading stands: the bytes that are left, how many there are in all, and the allocator of what is read. What is
/// read is taken from the front; after an error the cursor is not used again.
#[derive(Drop)]
pub(crate) struct Cursor<'a> {
    pub(crate) alloc: Global,
    pub(crate) total: usize,
    pub(crate) rest: &'a [u8],
}

impl<'a> Cursor<'a> {
    /// The place of the first byte that is left, from 0.
    #[inline]
    pub(crate) fn place(&self) -> u64
        ensures exact { result ≡ self.now.total - length self.now.rest.now }
    {
        self.total.saturating_sub(self.rest.len()) as u64
    }

    #[inline]
    pub(crate) fn take_u8(&mut self) -> Result<u8, PackError>
        ensures read { Gives (λ n. (n, self.new.rest.now)) result (number_at w8 self.old.rest.now) }
        ensures total { self.new.total ≡ self.old.total }
    {
        match self.rest {
            [] => Err(PackError::Short),
            [byte, rest @ ..] => {
                self.rest = rest;
                Ok(*byte)
            }
        }
    }

    pub(crate) fn take_u16(&mut self) -> Result<u16, PackError>
        ensures read { Gives (λ n. (n, self.new.rest.now)) result (number_at w16 self.old.rest.now) }
        ensures total { self.new.total ≡ self.old.total }
    {
        if self.rest.len() < 2 {
            return Err(PackError::Short);
        }
        let (front, rest) = self.rest.split_at(2);
        self.rest = rest;
        Ok(u16::from_be_bytes([front[0], front[1]]))
    }

    pub(crate) fn take_u32(&mut self) -> Result<u32, PackError>
        ensures read { Gives (λ n. (n, self.new.rest.now)) result (number_at w32 self.old.rest.now) }
        ensures total { self.new.total ≡ self.old.total }
    {
        if self.rest.len() < 4 {
            return Err(PackError::Short);
        }
        let (front, rest) = self.rest.split_at(4);
        self.rest = rest;
        Ok(u32::from_be_bytes([front[0], front[1], front[2], front[3]]))
    }

    pub(crate) fn take_u64(&mut self) -> Result<u64, PackError>
        ensures read { Gives (λ n. (n, self.new.rest.now)) result (number_at w64 self.old.rest.now) }
        ensures total { self.new.total ≡ self.old.total }
    {
        if self.rest.len() < 8 {
            return Err(PackError::Short);
        }
        let (front, rest) = self.rest.split_at(8);
        self.rest = rest;
        Ok(u64::from_be_bytes([
            front[0], front[1], front[2], front[3], front[4], front[5], front[6], front[7],
        ]))
    }
}
