// A sound book.
ghost use Rattle.layout.specs.SoundBook.{SoundBook};

use crate::examination::Sizes;
use crate::offsets::BookLayout;

// Lent bytes that are a book in this layout, of which neither 31 nor 32 holds, with its sizes.
#[derive(Clone, Copy)]
pub struct Book<'a> {
    pub layout: BookLayout,
    pub bytes: &'a [u8],
    pub sizes: Sizes,
    pub ghost sound: { SoundBook layout.plain bytes.now sizes },
}
