ghost use Rattle.text_lines.specs.Bounds.{Within};

// A line that is not ended: as many of its bytes as decide what it is, and how many that are. An array and a length: `arrayvec::ArrayVec` writes all of its array where it is cleared, which each line would do.
#[derive(Clone, Copy)]
pub struct OpenLine {
    pub bytes: [u8; 2052],
    pub length: usize,
    pub ghost within: { Within length bytes },
}
