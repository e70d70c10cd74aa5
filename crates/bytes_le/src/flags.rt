// The flag word of a record: masks for the bits that have a meaning, and for those that must not be set.
ghost use Rattle.std.specs.Prelude.{◌≡◌, ◌<◌};
ghost use Rattle.bytes_le.specs.Flags.{is_set, only_first, flag_word};

// Is this bit set? The lowest is bit 0.
pub fn is_set(flags: u16, bit: u32) -> bool
    requires { bit < 16 }
    ensures { result ≡ is_set bit flags }
{
    let mask = 1 << bit;
    flags & mask == mask
}

// Is no bit set but the first n?
pub fn only_first_bits(flags: u16, n: u32) -> bool
    requires { n < 16 }
    ensures { result ≡ only_first n flags }
{
    let mask = !((1 << n) - 1);
    flags & mask == 0
}

// The flag word with bit 0 and bit 1 as given, and no other set.
pub fn word(first: bool, second: bool) -> u16
    ensures { result ≡ flag_word first second }
{
    u16::from(first) + 2 * u16::from(second)
}
