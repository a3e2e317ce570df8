ghost use Rattle.std.specs.Prelude.{◌≡◌, Bool, get_or, set as set_at};
ghost use Rattle.changes.specs.Changes.{effect, changed_word};

// What happens to each bit that an edit names. No closure: `set` and `copy_bit` choose as they run.
#[derive(Clone, Copy, Debug, PartialEq, Eq)]
pub enum Change {
    Insert,
    Remove,
    Toggle,
}

// Insert for yes, Remove for no.
impl From<bool> for Change {
    ghost from_gives = { λ enabled c. effect c ≡ (λ (was : Bool). enabled) };

    fn from(enabled: bool) -> Change {
        if enabled {
            Change::Insert
        } else {
            Change::Remove
        }
    }
}

// The bits of the word that the mask names, changed.
pub fn change_word(word: u64, mask: u64, change: Change) -> u64
    ensures { result ≡ changed_word change mask word }
{
    match change {
        Change::Insert => word | mask,
        Change::Remove => word & !mask,
        Change::Toggle => word ^ mask,
    }
}

// Word k, where the slice has it. Asks nothing: for the calls of this library, which have asked.
pub fn change_block(words: &mut [u64], k: usize, mask: u64, change: Change)
    ensures { words.new ≡ set_at words.old k (changed_word change mask (get_or words.old k 0)) }
{
    if k < words.len() {
        words[k] = change_word(words[k], mask, change);
    }
}
