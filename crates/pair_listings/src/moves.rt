ghost use Rattle.std.specs.Prelude.{◌≡◌, List, ℕ, ◌+◌, ◌≤◌, ◌<◌, length};
ghost use Rattle.sets.specs.Members.{words_of, write, set_of, empty};
ghost use Rattle.sets.specs.Outcomes.{outcome};
ghost use Rattle.sets.specs.Refusals.{edited_of};
ghost use Rattle.listing_lines.specs.Offsets.{offsets_of};
ghost use Rattle.pair_listings.specs.Tables.{entry_of, moved_below, moved_by, move_members_rule, named_below, named_by, named_set_rule};

use blocks::block;
use edits::insert;
use fresh_sets::with_capacity;
use sets::{FixedBitSet, Refusal, member};

// One offset of the old set: its partner becomes a member, where it is a member and has one.
fn move_member(words: &[u64], to: &[u64], p: usize, out: &mut [u64])
    ensures { (vs : List ℕ) → words_of 65536 ≤ length vs
        → out.old ≡ write vs (moved_below p (entry_of to.now) (offsets_of words.now))
        → out.new ≡ write vs (moved_below (p + 1) (entry_of to.now) (offsets_of words.now)) }
{
    let set = FixedBitSet::new(65536);
    if member(set, words, p) {
        let entry = block(to, p);
        if entry != 0 {
            let _ = insert(set, out, (entry % 65536) as usize);
        }
    }
}

fn move_each(words: &[u64], to: &[u64], out: &mut [u64])
    ensures { (vs : List ℕ) → words_of 65536 ≤ length vs → out.old ≡ write vs (empty 65536)
        → out.new ≡ write vs (moved_by (entry_of to.now) (offsets_of words.now)) }
{
    for p in 0..65536 {
        move_member(words, to, p, out);
    }
}

// The set of 65,536 bits with exactly the partner of each member that has one. Asks 1 to 3 of the old set, then 7 of the buffer.
pub fn move_members(words: &[u64], to: &[u64], out: &mut [u64]) -> Result<FixedBitSet, Refusal>
    ensures { outcome (edited_of (set_of (empty 0)) result) out.new ≡ move_members_rule words.now (entry_of to.now) out.old }
{
    FixedBitSet::new(65536).check(words)?;
    let made = with_capacity(65536, out)?;
    move_each(words, to, out);
    Ok(made)
}

// One offset: it becomes a member where a pair names it.
fn mark_named(table: &[u64], p: usize, out: &mut [u64])
    ensures { (vs : List ℕ) → words_of 65536 ≤ length vs → p < 65536
        → out.old ≡ write vs (named_below p (entry_of table.now))
        → out.new ≡ write vs (named_below (p + 1) (entry_of table.now)) }
{
    if block(table, p) != 0 {
        let _ = insert(FixedBitSet::new(65536), out, p);
    }
}

// As `move_each`, with another step: a function of both would take the step and a law of what it does to `out`, and is no plainer than the loop.
fn mark_each(table: &[u64], out: &mut [u64])
    ensures { (vs : List ℕ) → words_of 65536 ≤ length vs → out.old ≡ write vs (empty 65536)
        → out.new ≡ write vs (named_by (entry_of table.now)) }
{
    for p in 0..65536 {
        mark_named(table, p, out);
    }
}

// The set of 65,536 bits with exactly the offsets that a pair names. Asks 7 of the buffer.
pub fn named_set(table: &[u64], out: &mut [u64]) -> Result<FixedBitSet, Refusal>
    ensures { outcome (edited_of (set_of (empty 0)) result) out.new ≡ named_set_rule (entry_of table.now) out.old }
{
    let made = with_capacity(65536, out)?;
    mark_each(table, out);
    Ok(made)
}
