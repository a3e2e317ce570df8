ghost use Rattle.std.specs.Prelude.{◌≡◌, Bool};
ghost use Rattle.listing_lines.specs.Pieces.{piece_in};

use byte_texts::Text;

// Where the writing of a text stands that is written piece by piece.
pub trait Progress {
    ghost over: { Self → Bool };

    // Whether nothing is left to write.
    fn is_over(&self) -> bool
        ensures { result ≡ over self.now };
}

// What is left to write: the stage, the records of its walk, and the place of its next line.
#[derive(Clone, Copy)]
pub struct Page<S, R> {
    pub stage: S,
    pub records: R,
    pub place: usize,
}

// How many bytes of the buffer are the next piece, and what is left then. A length and no slice: `Written::new` is an equation of such values, and a slice would bring its address into it.
#[derive(Clone, Copy)]
pub struct Written<S, R> {
    pub length: usize,
    pub page: Page<S, R>,
}

impl<S: Copy, R: Copy> Written<S, R> {
    // A text as a piece, where its buffer has room for more: one that fills it may be cut.
    #[tactic(auto, unfolding(crate::specs::Pieces::piece_in))]
    pub fn new(text: &Text, page: Page<S, R>) -> Option<Written<S, R>>
        ensures { result ≡ piece_in text.now page }
    {
        if text.end < text.out.len() {
            return Some(Written {
                length: text.end,
                page,
            });
        }
        None
    }
}
