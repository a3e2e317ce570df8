ghost use Rattle.std.specs.Prelude.{◌≡◌};
ghost use Rattle.sets.specs.Members.{set_of, empty};
ghost use Rattle.comparisons.specs.Rules.{is_subset_rule};

use comparisons::subset_by_words;
use sets::Checked;

// Whether every member is marked.
pub(crate) fn members_marked(set: Checked, marks: &[u64; 1024]) -> bool
    ensures { result ≡ (is_subset_rule (record { length = set.entry.length }) set.entry.words.now (set_of (empty 65536)) marks.now).yes }
{
    subset_by_words(set.words, marks)
}
