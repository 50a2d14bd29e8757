//! Compares digests in a time that does not depend on where they differ.

ghost use Rattle.std.specs.Prelude.{◌≡◌, ◌↔◌, IsTrue};

/// The number of bytes of a SHA-256.
pub(crate) const DIGEST_LENGTH: usize = 32;

/// Whether two digests are equal. Each byte of both is read, also after a difference.
pub(crate) fn same_digest(left: &[u8; DIGEST_LENGTH], right: &[u8; DIGEST_LENGTH]) -> bool
    ensures { IsTrue result ↔ (left.now ≡ right.now) }
{
    same_bytes(left.as_slice(), right.as_slice())
}

/// Whether the bytes are equal. If there are as many, each byte of both is read.
fn same_bytes(left: &[u8], right: &[u8]) -> bool
    ensures { IsTrue result ↔ (left.now ≡ right.now) }
{
    if left.len() != right.len() {
        return false;
    }
    let mut difference = 0;
    for (i, byte) in left.iter().enumerate() {
        difference |= *byte ^ right[i];
    }
    difference == 0
}
