//! The bytes of a saved world.

ghost use Rattle.std.specs.Prelude.{◌≡◌};

use std::marker::Model;

/// The bytes of a saved world, in an answer or in a line. Those of a line may be any bytes.
#[derive(Drop)]
pub struct Image {
    bytes: Vec<u8>,
}

impl Model for Image {
    ghost use Rattle.std.specs.Prelude.{ℕ, List};

    ghost Value = { List ℕ };

    ghost view = { λ image. image.bytes.items };
}

impl Image {
    /// The image of these bytes.
    pub fn new(bytes: Vec<u8>) -> Image
        ensures { result ≡ bytes.items }
    {
        Image { bytes }
    }

    /// Its bytes, in order.
    pub fn as_slice(&self) -> &[u8]
        ensures { result.now ≡ self.now }
    {
        self.bytes.as_slice()
    }
}
