//! Strings that borrow from the unit if they can.

ghost use Rattle.std.specs.Prelude.{◌≡◌};
ghost use Rattle.imap_values.specs.Lents.{bytes_of};

use mail_values::Bytes;

/// The bytes of a string: borrowed from the unit, or owned if a quoted string had escapes to remove.
#[derive(Drop)]
pub enum Lent<'a> {
    Slice(&'a [u8]),
    Made(Bytes),
}

impl<'a> Lent<'a> {
    pub fn as_slice(&self) -> &[u8]
        ensures { result.now ≡ bytes_of self.now }
    {
        match self {
            Lent::Slice(slice) => slice,
            Lent::Made(bytes) => bytes.as_slice(),
        }
    }
}
