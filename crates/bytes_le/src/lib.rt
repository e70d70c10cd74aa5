// Little-endian numbers in a slice of bytes, read and written.
#![tactic(auto)]

ghost use Rattle.std.specs.Prelude.{ℕ, FitsSigned, ◌≡◌, ◌+◌, ◌^◌, ◌≤◌, ◌<◌, List, ◌++◌, length, take, drop};
ghost use Rattle.std.specs.Int.{w32};
ghost use Rattle.std.proofs.lemmas.List.Edits.{sets};
ghost use Rattle.bytes_le.specs.Numbers.{u16_at, u32_at, u64_at, i32_at, AreBytes};
ghost use Rattle.bytes_le.specs.Numbers.{u16_bytes, u32_bytes, u64_bytes, i32_bytes};
ghost use Rattle.bytes_le.specs.NumberLaws.{u16_length, u32_length, u64_length, i32_length};
ghost use Rattle.bytes_le.specs.NumberLaws.{u16_back, u32_back, u64_back, i32_back};
ghost use Rattle.bytes_le.specs.NumberLaws.{u16_again, u32_again, u64_again, i32_again};

pub mod flags;

// A number that lies in bytes, the lowest first.
pub trait LittleEndian: Copy {
    // How many bytes hold a number.
    ghost size: { ℕ };

    // Does a number fit them?
    ghost Fits: { Self → Type 0 };

    // The number in the bytes from a place on.
    ghost number_at: { List ℕ → ℕ → Self };

    // The bytes of a number.
    ghost bytes_of: { Self → List ℕ };

    // The number in the bytes from `at` on.
    fn read_at(s: &[u8], at: usize) -> Self
        requires { at + size ≤ length s.now }
        ensures { result ≡ number_at s.now at };

    // Writes the number into the bytes from `at` on.
    fn write_at(self, buffer: &mut [u8], at: usize)
        requires { at + size ≤ length buffer.old }
        ensures { buffer.new ≡ sets buffer.old at (bytes_of self) };

    // A number is written into that many bytes,
    ghost length_bytes: { (n : Self) → length (bytes_of n) ≡ size };

    // what was written is read,
    ghost back: { (n : Self) (t : List ℕ) → Fits n → number_at (bytes_of n ++ t) 0 ≡ n };

    // and what was read is written again.
    ghost again: { (s : List ℕ) (at : ℕ) → AreBytes s → at + size ≤ length s
        → bytes_of (number_at s at) ≡ take size (drop at s) };
}

impl LittleEndian for u16 {
    ghost size = { 2 };

    ghost Fits = { λ n. n < 2 ^ 16 };

    ghost number_at = { λ s at. u16_at s at };

    ghost bytes_of = { λ n. u16_bytes n };

    ghost length_bytes = { u16_length };

    ghost back = { u16_back };

    ghost again = { u16_again };

    fn read_at(s: &[u8], at: usize) -> u16 {
        u16::from_le_bytes([s[at], s[at + 1]])
    }

    fn write_at(self, buffer: &mut [u8], at: usize) {
        buffer[at..at + 2].copy_from_slice(&self.to_le_bytes());
    }
}

impl LittleEndian for u32 {
    ghost size = { 4 };

    ghost Fits = { λ n. n < 2 ^ 32 };

    ghost number_at = { λ s at. u32_at s at };

    ghost bytes_of = { λ n. u32_bytes n };

    ghost length_bytes = { u32_length };

    ghost back = { u32_back };

    ghost again = { u32_again };

    fn read_at(s: &[u8], at: usize) -> u32 {
        u32::from_le_bytes([s[at], s[at + 1], s[at + 2], s[at + 3]])
    }

    fn write_at(self, buffer: &mut [u8], at: usize) {
        buffer[at..at + 4].copy_from_slice(&self.to_le_bytes());
    }
}

impl LittleEndian for u64 {
    ghost size = { 8 };

    ghost Fits = { λ n. n < 2 ^ 64 };

    ghost number_at = { λ s at. u64_at s at };

    ghost bytes_of = { λ n. u64_bytes n };

    ghost length_bytes = { u64_length };

    ghost back = { u64_back };

    ghost again = { u64_again };

    fn read_at(s: &[u8], at: usize) -> u64 {
        u64::from_le_bytes([
            s[at],
            s[at + 1],
            s[at + 2],
            s[at + 3],
            s[at + 4],
            s[at + 5],
            s[at + 6],
            s[at + 7],
        ])
    }

    fn write_at(self, buffer: &mut [u8], at: usize) {
        buffer[at..at + 8].copy_from_slice(&self.to_le_bytes());
    }
}

impl LittleEndian for i32 {
    ghost size = { 4 };

    ghost Fits = { λ n. FitsSigned w32 n };

    ghost number_at = { λ s at. i32_at s at };

    ghost bytes_of = { λ n. i32_bytes n };

    ghost length_bytes = { i32_length };

    ghost back = { i32_back };

    ghost again = { i32_again };

    fn read_at(s: &[u8], at: usize) -> i32 {
        u32::read_at(s, at).cast_signed()
    }

    fn write_at(self, buffer: &mut [u8], at: usize) {
        self.cast_unsigned().write_at(buffer, at);
    }
}
