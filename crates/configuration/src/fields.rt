//! Fields of words: some bits of a word from a place on, read and written.
ghost use Rattle.std.specs.Prelude.{◌≡◌, ◌+◌, ◌≤◌, ◌<◌, ◌^◌};
ghost use Rattle.configuration.specs.Fields.{field_of, IsPut};

/// So many bits of a word, from a place on.
pub fn field(word: u64, at: u32, bits: u32) -> u64
    requires place { at < 64 }
    requires size { bits < 64 }
    ensures value { result ≡ field_of word at bits }
    ensures small { result < 2 ^ bits }
{
    (word >> at) & ((1 << bits) - 1)
}

/// The word with another value in these bits.
pub fn put(word: u64, at: u32, bits: u32, value: u64) -> u64
    requires within { at + bits ≤ 64 }
    requires place { at < 64 }
    requires size { bits < 64 }
    requires small { value < 2 ^ bits }
    ensures { IsPut result word at bits value }
{
    word ^ (((word >> at) ^ value) & ((1 << bits) - 1)) << at
}
