ghost use Rattle.std.specs.Prelude.{◌≡◌, [], ◌∷◌, ◌+◌, ◌-◌, length};
ghost use Rattle.offset_lines.specs.Lines.{starts_with};
ghost use Rattle.text_lines.specs.Texts.{body_of};

// Whether a line starts with a byte order mark.
pub fn starts_with_mark(line: &[u8]) -> bool
    ensures { result ≡ starts_with (239 ∷ 187 ∷ 191 ∷ []) line.now }
{
    line.starts_with(b"\xEF\xBB\xBF")
}

// A line without the byte order mark that it starts with, where it is the first.
#[tactic(auto, using(offset_lines::proofs::Parts::starts_within), unfolding(crate::specs::Texts::body_of))]
pub fn body_of(lines: usize, line: &[u8]) -> &[u8]
    ensures bytes { result.now ≡ body_of lines line.now }
    ensures start { result.ref_ptr ≡ (line.entry.ref_ptr.0, line.entry.ref_ptr.1 + (length line.now - length result.now)) }
{
    if lines == 0 {
        // Cut by a count: the contract of `strip_prefix` does not say where the rest starts, and each returned part names its start.
        if starts_with_mark(line) {
            return &line[3..];
        }
    }
    line
}
