//! What comes down on a link are bytes.

ghost use Rattle.ncc_driver.specs.LawsFits.{AreBytes};

/// Each byte is below 256: the law of what comes down on a link asks for it.
pub(crate) fn are_bytes(bytes: &[u8])
    ensures below { AreBytes bytes.now }
{
    for byte in bytes {
        let _byte = *byte;
    }
}
