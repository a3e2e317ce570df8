ghost use Rattle.std.specs.Prelude.{◌≡◌};
ghost use Rattle.calls.specs.Encoding.{decode, listed};
ghost use Rattle.calls.specs.Rules.{meant_by};

// An editing call on a set, the other one read.
#[derive(Clone, Copy)]
pub enum Call<'a> {
    Insert(usize),
    Remove(usize),
    Put(usize),
    Toggle(usize),
    Set(usize, bool),
    CopyBit(usize, usize),
    InsertRange(usize, usize),
    RemoveRange(usize, usize),
    ToggleRange(usize, usize),
    SetRange(usize, usize, bool),
    Clear,
    Grow(usize),
    GrowAndInsert(usize),
    UnionWith,
    IntersectWith,
    DifferenceWith,
    SymmetricDifferenceWith,
    InsertAll(&'a [u64]),
}

// The positions start..end of the list. A part that the list does not have is no call. A match: with `map` the search found no proof.
fn insert_part(positions: &[u64], start: usize, end: usize) -> Option<Call<'_>>
    ensures { meant_by result ≡ listed positions.entry.now start end }
{
    match positions.get(start..end) {
        Some(part) => Some(Call::InsertAll(part)),
        None => None,
    }
}

impl<'a> Call<'a> {
    // The call of a number. An unknown number is no call.
    pub(crate) fn decode(
        positions: &'a [u64],
        code: u64,
        x: usize,
        y: usize,
        z: bool,
    ) -> Option<Call<'a>>
        ensures { meant_by result ≡ decode positions.entry.now code x y z }
    {
        match code {
            0 => Some(Call::Insert(x)),
            1 => Some(Call::Remove(x)),
            2 => Some(Call::Put(x)),
            3 => Some(Call::Toggle(x)),
            4 => Some(Call::Set(x, z)),
            5 => Some(Call::CopyBit(x, y)),
            6 => Some(Call::InsertRange(x, y)),
            7 => Some(Call::RemoveRange(x, y)),
            8 => Some(Call::ToggleRange(x, y)),
            9 => Some(Call::SetRange(x, y, z)),
            10 => Some(Call::Clear),
            11 => Some(Call::Grow(x)),
            12 => Some(Call::GrowAndInsert(x)),
            13 => Some(Call::UnionWith),
            14 => Some(Call::IntersectWith),
            15 => Some(Call::DifferenceWith),
            16 => Some(Call::SymmetricDifferenceWith),
            17 => insert_part(positions, x, y),
            _ => None,
        }
    }
}
