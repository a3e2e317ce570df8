ghost use Rattle.std.specs.Prelude.{◌≡◌, map, take};
ghost use Rattle.byte_texts.specs.Texts.{visible, decimal, shown_text, shown_name};
ghost use Rattle.byte_texts.specs.Growth.{Appended};

// A text in a lent buffer, and where it ends. Both fields are public, so a call may hand in any end: hence `min`, and a text that is empty is appended too, since that alone cuts an end behind the buffer. What the buffer has no room for is left out. Messages are appended piece by piece and not by `write!`: names need not be UTF-8, and std says what `write!` wrote only where it answers `Ok`, and not that it does.
#[derive(Drop)]
pub struct Text<'a> {
    pub out: &'a mut [u8],
    pub end: usize,
}

// A control byte is shown as a question mark.
#[tactic(auto, unfolding(crate::specs::Texts::visible))]
fn visible_byte(byte: u8) -> u8
    ensures { result ≡ visible byte }
{
    if byte < 32 || byte == 127 { b'?' } else { byte }
}

fn show(bytes: &mut [u8])
    ensures { bytes.new ≡ map visible bytes.old }
{
    for byte in bytes.iter_mut() {
        *byte = visible_byte(*byte);
    }
}

impl<'a> Text<'a> {
    pub fn new(out: &'a mut [u8]) -> Text<'a>
        ensures same_buffer { result.out.ghost_name ≡ out.entry.ghost_name }
        ensures same_bytes { result.out.now ≡ out.old }
        ensures empty { result.end ≡ 0 }
    {
        Text { out, end: 0 }
    }

    // The bytes as they are.
    pub fn append(&mut self, text: &[u8])
        ensures { Appended self.old self.new text.now }
    {
        let size = self.out.len();
        let start = self.end.min(size);
        let end = start + text.len().min(size - start);
        self.out[start..end].copy_from_slice(&text[..end - start]);
        self.end = end;
    }

    // The bytes as they are shown.
    fn append_visible(&mut self, text: &[u8])
        ensures { Appended self.old self.new (map visible text.now) }
    {
        let start = self.end.min(self.out.len());
        self.append(text);
        show(&mut self.out[start..self.end]);
    }

    // A number in decimal.
    pub fn append_decimal(&mut self, n: u64)
        ensures { Appended self.old self.new (decimal n) }
    {
        let mut digits = [0u8; 20];
        let count = io::decimal(n, &mut digits);
        self.append(&digits[..count]);
    }

    // A text as it is shown.
    pub fn append_text(&mut self, text: &[u8])
        ensures { Appended self.old self.new (shown_text text.now) }
    {
        if text.len() <= 40 {
            return self.append_visible(text);
        }
        self.append_visible(&text[..40]);
        self.append(b"...");
    }

    // A name as it is shown.
    pub fn append_name(&mut self, name: &[u8])
        ensures { Appended self.old self.new (shown_name name.now) }
    {
        if name.len() <= 40 {
            return self.append_visible(name);
        }
        self.append(b"...");
        self.append_visible(&name[name.len() - 40..]);
    }

    // What is written.
    pub fn written(self) -> &'a [u8]
        ensures { result.now ≡ take self.entry.end self.entry.out.now }
    {
        let Text { out, end } = self;
        &out[..end.min(out.len())]
    }
}
