ghost use Rattle.std.specs.Prelude.{◌≡◌, List, ℕ, ◌≤◌, take};
ghost use Rattle.byte_texts.specs.Texts.{shown_name};

use crate::texts::Text;
use std::marker::Model;

// A name as it is shown: up to 40 of its bytes, and three dots where there are more. A `Text` writes the bytes and says where they end, so an array and a length are what there is to keep.
#[derive(Drop)]
pub struct ShownName {
    bytes: [u8; 43],
    length: usize,
}

impl Model for ShownName {
    ghost Value = { List ℕ };

    ghost view = { λ s. take s.length s.bytes };

    ghost invariant = { λ s. s.length ≤ 43 };
}

impl ShownName {
    pub fn new(name: &[u8]) -> ShownName
        ensures { result ≡ shown_name name.now }
    {
        let mut bytes = [0u8; 43];
        let mut text = Text::new(&mut bytes);
        text.append_name(name);
        let length = text.end;
        ShownName { bytes, length }
    }

    pub fn bytes(&self) -> &[u8]
        ensures { result.now ≡ self.now }
    {
        &self.bytes[..self.length]
    }
}
