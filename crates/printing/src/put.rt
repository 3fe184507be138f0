// Putting a text together in a buffer that is lent.
ghost use Rattle.std.specs.Prelude.{◌≡◌, ◌^◌, ◌≤◌, ◌<◌, length, take};
ghost use Rattle.printing.specs.Text.{hex_digits, numbered, ended, operand, refusal_line};
ghost use Rattle.printing.specs.Put.{Fits, Put};

// A text that is put together: the buffer, and how many of its first bytes are the text so far.
#[derive(Drop)]
pub struct Text<'a> {
    pub buffer: &'a mut [u8],
    pub length: usize,
}

impl<'a> Text<'a> {
    // No byte yet.
    pub fn new(buffer: &'a mut [u8]) -> Text<'a>
        ensures same_buffer { result.buffer.ghost_name ≡ buffer.entry.ghost_name }
        ensures held { result.buffer.now ≡ buffer.old }
        ensures empty { result.length ≡ 0 }
    {
        Text { buffer, length: 0 }
    }

    // The text so far.
    pub fn bytes(&self) -> &[u8]
        requires { self.now.length ≤ length self.now.buffer.now }
        ensures { result.now ≡ take self.now.length self.now.buffer.now }
    {
        &self.buffer[..self.length]
    }

    pub fn push(&mut self, bytes: &[u8])
        requires { Fits self.old bytes.now }
        ensures { Put self.old self.new bytes.now }
    {
        words::store(self.buffer, self.length, bytes);
        self.length += bytes.len();
    }

    // A word, and a number in decimal digits.
    pub fn push_number(&mut self, word: &[u8], v: u64)
        requires { Fits self.old (numbered word.now v) }
        ensures { Put self.old self.new (numbered word.now v) }
    {
        let mut digits = [0u8; 20];
        let n = io::decimal(v, &mut digits);
        self.push(word);
        self.push(&digits[..n]);
    }

    // The same at the end of a line.
    pub fn push_ended(&mut self, word: &[u8], v: u64)
        requires { Fits self.old (ended word.now v) }
        ensures { Put self.old self.new (ended word.now v) }
    {
        self.push_number(word, v);
        self.push(b"\n");
    }

    // A number that has no more than so many hexadecimal digits, in all of them.
    pub fn push_hex(&mut self, v: u64, width: usize)
        requires le_width { (1 ≤ width) × (width ≤ 16) × (v < 16 ^ width) }
        requires fits { Fits self.old (hex_digits width v) }
        ensures { Put self.old self.new (hex_digits width v) }
    {
        let mut digits = [0u8; 16];
        let n = io::hex(v, width, &mut digits);
        self.push(&digits[..n]);
    }

    // A word, and an operand in eight hexadecimal digits.
    pub fn push_operand(&mut self, word: &[u8], v: u32)
        requires { Fits self.old (operand word.now v) }
        ensures { Put self.old self.new (operand word.now v) }
    {
        self.push(word);
        self.push_hex(u64::from(v), 8);
    }

    // The line of a refusal.
    pub fn push_refusal(&mut self, number: u64, offset: usize)
        requires { Fits self.old (refusal_line number offset) }
        ensures { Put self.old self.new (refusal_line number offset) }
    {
        self.push_number(b"refused ", number);
        self.push_ended(b" at ", offset as u64);
    }
}
