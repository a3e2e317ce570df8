ghost use Rattle.std.specs.Prelude.{◌≡◌};
ghost use Rattle.text_lines.specs.Texts.{more as more_of};

// One more, up to 2 ^ 32 - 1.
#[tactic(auto, unfolding(crate::specs::Texts::more))]
pub fn more(n: usize) -> usize
    ensures { result ≡ more_of n }
{
    n.saturating_add(1).min(4294967295)
}
