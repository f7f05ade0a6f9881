//! In which units the characters of a line are counted.
ghost use Rattle.std.specs.Prelude.{◌≡◌, ℕ, List};
ghost use Rattle.std.specs.Str.{encode_utf8_all};
ghost use Rattle.rast_document.specs.Units.{units, units_of_byte, characters_units};

/// An encoding, in whose units the characters of a line are counted.
#[derive(Clone, Copy, Debug, PartialEq, Eq)]
pub enum Encoding {
    /// Bytes.
    Utf8,
    /// One unit for a character up to U+FFFF, two for one past it.
    Utf16,
    /// Characters.
    Utf32,
}

impl Encoding {
    /// How many units a byte of a text counts: of a character that is no single unit, all stand at its first byte.
    pub(crate) fn units_of_byte(self, byte: u8) -> usize
        ensures { result ≡ units_of_byte self byte }
    {
        match self {
            Encoding::Utf8 => 1,
            Encoding::Utf16 => match byte {
                0x80..=0xbf => 0,
                0xf0..=0xff => 2,
                _ => 1,
            },
            Encoding::Utf32 => match byte {
                0x80..=0xbf => 0,
                _ => 1,
            },
        }
    }
}

/// What a text counts by its bytes is what its characters count. A law: the function does nothing.
pub fn bytes_count_as_characters()
    ensures { (e : Encoding) (cs : List ℕ) → units e (encode_utf8_all cs) ≡ characters_units e cs }
{}
