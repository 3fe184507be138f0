// Putting the bytes of values, names and codes into a text.
ghost use Rattle.std.specs.Prelude.{◌≡◌};
ghost use Rattle.printing.specs.Text.{each, hex_byte, is_plain, name_byte, named};
ghost use Rattle.printing.specs.Put.{Fits, Put};

use crate::put::Text;

// Whether a byte of a name is written as it is.
fn is_plain(b: u8) -> bool
    ensures { result ≡ is_plain b }
{
    matches!(b, 33..=126) && b != b'\\'
}

impl<'a> Text<'a> {
    // A byte in two hexadecimal digits.
    fn push_hex_byte(&mut self, b: u8)
        requires { Fits self.old (hex_byte b) }
        ensures { Put self.old self.new (hex_byte b) }
    {
        self.push_hex(u64::from(b), 2);
    }

    // Each byte of a value.
    pub fn push_value(&mut self, value: &[u8])
        requires { Fits self.old (each hex_byte value.now) }
        ensures { Put self.old self.new (each hex_byte value.now) }
    {
        for b in value {
            self.push_hex_byte(*b);
        }
    }

    fn push_name_byte(&mut self, b: u8)
        requires { Fits self.old (name_byte b) }
        ensures { Put self.old self.new (name_byte b) }
    {
        if is_plain(b) {
            return self.push(&[b]);
        }
        self.push(b"\\x");
        self.push_hex_byte(b);
    }

    // Each byte of a name or a code.
    fn push_name(&mut self, name: &[u8])
        requires { Fits self.old (each name_byte name.now) }
        ensures { Put self.old self.new (each name_byte name.now) }
    {
        for b in name {
            self.push_name_byte(*b);
        }
    }

    // A word, and a name or a code.
    pub fn push_named(&mut self, word: &[u8], name: &[u8])
        requires { Fits self.old (named word.now name.now) }
        ensures { Put self.old self.new (named word.now name.now) }
    {
        self.push(word);
        self.push_name(name);
    }
}
