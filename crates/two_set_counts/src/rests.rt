ghost use Rattle.std.specs.Prelude.{◌≡◌, ◌*◌, ◌≤◌, min, length};
ghost use Rattle.sets.specs.CheckedSets.{members};
ghost use Rattle.two_set_counts.specs.Helpers.{ones_from, ones_beyond};

use operations::Join;
use range_counts::ones_of_words;
use sets::Checked;

// How many members of a set are in its words from number `first` on.
fn ones_from(set: Checked, first: usize) -> usize
    requires { first ≤ length set.words.now }
    ensures { result ≡ ones_from (first * 64) (members set.entry) }
{
    ones_of_words(&set.words[first..])
}

// How many members in the words that one of the two sets alone has the operation takes.
pub(crate) fn ones_beyond<S: Join>(a: Checked, b: Checked) -> usize
    ensures { result ≡ ones_beyond S.operation (min (length a.entry.words.now) (length b.entry.words.now) * 64) (members a.entry) (members b.entry) }
{
    let shared = a.words.len().min(b.words.len());
    let first = if S::first_alone() {
        ones_from(a, shared)
    } else {
        0
    };
    let second = if S::second_alone() {
        ones_from(b, shared)
    } else {
        0
    };
    first + second
}
