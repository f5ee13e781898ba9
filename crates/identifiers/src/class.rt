//! A class of numbers.
ghost use Rattle.std.specs.Prelude.{◌≡◌, ◌<◌, IfSome, None, ◌≤◌};
ghost use Rattle.identifiers.specs.Class.{skipped, size, number_at, key_in};

/// The numbers from 1 to `last` that leave `first` where they are divided by `stride` (this profile's own). Each has a key, from 0 on.
#[derive(Clone, Copy)]
pub(crate) struct Class {
    pub(crate) first: u32,
    pub(crate) stride: u32,
    pub(crate) last: u32,
}

impl Class {
    /// 1 where 0 would have the first key; it is no number.
    fn skipped(&self) -> u64
        ensures { result ≡ skipped self.now.first }
    {
        if self.first == 0 { 1 } else { 0 }
    }

    /// How many numbers there are.
    pub(crate) fn size(&self) -> usize
        requires { self.now.first < self.now.stride }
        ensures { result ≡ size self.now }
    {
        let past = self.last as u64 + self.stride as u64 - self.first as u64;
        let quotient = past / self.stride as u64;
        quotient.saturating_sub(self.skipped()) as usize
    }

    /// The key of a number; `None` where it is not of the class.
    pub(crate) fn key(&self, number: u32) -> Option<usize>
        requires { self.now.first < self.now.stride }
        ensures { result ≡ key_in self.now number }
    {
        let quotient = number / self.stride;
        if number == 0 || number % self.stride != self.first {
            return None;
        }
        Some((quotient as u64 - self.skipped()) as usize)
    }

    /// The number of a key; `None` where it would be past the last one.
    pub(crate) fn number(&self, key: usize) -> Option<u32>
        requires { self.now.first < self.now.stride }
        ensures number { IfSome result (λ number. number ≡ number_at self.now key) }
        ensures within { IfSome result (λ _. key < size self.now) }
        ensures past { result ≡ None → size self.now ≤ key }
    {
        if key >= self.size() {
            return None;
        }
        let quotient = key as u64 + self.skipped();
        Some((quotient * self.stride as u64 + self.first as u64) as u32)
    }
}
