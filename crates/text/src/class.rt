// Kinds of characters, and how far a text is of one kind.
ghost use Rattle.std.specs.Prelude.{◌≡◌, ◌≤◌, length};
ghost use Rattle.std.specs.List.{prefix_len};
ghost use Rattle.text.specs.Classes.{belongs};

#[derive(Clone, Copy)]
pub enum Class {
    // 0 to 9 and a to f
    Hexadecimal,
    // 0 to 9
    Decimal,
    // what stands between words: a space, a tab, a carriage return
    Blank,
    // what a word is made of: anything but a blank
    Solid,
    // what comes before a comment: anything but `#`
    Code,
    // what a name is made of: letters, digits and `_`
    Name,
}

impl Class {
    fn has(self, character: u8) -> bool
        ensures { result ≡ belongs self character }
    {
        match self {
            Class::Hexadecimal => matches!(character, b'0'..=b'9' | b'a'..=b'f'),
            Class::Decimal => matches!(character, b'0'..=b'9'),
            Class::Blank => matches!(character, b' ' | b'\t' | b'\r'),
            Class::Solid => !matches!(character, b' ' | b'\t' | b'\r'),
            Class::Code => character != b'#',
            Class::Name => matches!(character, b'A'..=b'Z' | b'_' | b'a'..=b'z' | b'0'..=b'9'),
        }
    }

    // How many characters of this class the text begins with.
    pub fn run(self, text: &[u8]) -> usize
        ensures count { result ≡ prefix_len (belongs self) text.now }
        ensures bound { result ≤ length text.now }
    {
        text.iter().take_while(|c| self.has(**c)).count()
    }
}
