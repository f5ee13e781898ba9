//! The rows of a field: for each of its numbers a bit for each member of a group.
ghost use Rattle.std.specs.Prelude.{◌≡◌, ◌-◌, ◌^◌, ◌<◌, ◌≤◌, ◌==◌, ◌&&◌, ◌||◌, ℕ, true, false, not, IfSome, IsTrue, nat_lt, slice_index};
ghost use Rattle.configuration.specs.Bits.{has};

use configuration::fields::field;

/// A bit for each of so many members, the first of a group.
pub(crate) fn first_members(count: usize) -> u64
    ensures { (b : ℕ) → b < 64 → has result b ≡ nat_lt b count }
{
    if count >= 64 {
        return u64::MAX;
    }
    (1 << count) - 1
}

/// Rows with the bits of all members of a group.
pub(crate) fn rows_of_all() -> [u64; 32]
    ensures { (n : ℕ) → n < 32 → slice_index result n ≡ 2 ^ 64 - 1 }
{
    [u64::MAX; 32]
}

/// A row without the bits of some members, unless these allow the row's number.
pub(crate) fn narrowed(row: u64, members: u64, is_allowed: bool) -> u64
    ensures { (b : ℕ) → b < 64 → has result b ≡ (has row b && (not (has members b) || is_allowed)) }
{
    if is_allowed {
        return row;
    }
    row & !members
}

/// Clears the bits of some members in the row of each number of so many bits that isn't allowed.
pub(crate) fn narrow_rows(rows: &mut [u64; 32], bits: u32, members: u64, allowed: u64)
    requires bits { bits ≤ 5 }
    ensures { (n b : ℕ) → n < 2 ^ bits → b < 64
        → has (slice_index rows.new n) b ≡ (has (slice_index rows.old n) b && (not (has members b) || has allowed n)) }
{
    for number in 0..1usize << bits {
        let is_allowed = field(allowed, number as u32, 1) != 0;
        rows[number] = narrowed(rows[number], members, is_allowed);
    }
}

/// The first number, of so many bits, whose row has each of some members.
pub(crate) fn row_of_all(rows: &[u64; 32], bits: u32, members: u64) -> Option<usize>
    requires bits { bits ≤ 5 }
    ensures small { IfSome result (λ number. number < 2 ^ bits) }
    ensures all { IfSome result (λ number. (b : ℕ) → has members b ≡ true → has (slice_index rows.now number) b ≡ true) }
{
    for number in 0..1usize << bits {
        if rows[number] & members == members {
            return Some(number);
        }
    }
    None
}

/// Whether a row has none of some members, unless it is one that may.
fn is_clear(row: u64, members: u64, may: bool) -> bool
    ensures { IsTrue result → may ≡ false → (b : ℕ) → has members b ≡ true → has row b ≡ false }
{
    if may {
        return true;
    }
    row & members == 0
}

/// Whether no other row than that of a number, of so many bits, has one of some members.
pub(crate) fn is_alone(rows: &[u64; 32], bits: u32, members: u64, number: usize) -> bool
    requires bits { bits ≤ 5 }
    ensures { IsTrue result → (n b : ℕ) → n < 2 ^ bits → (n ≡ number → ⊥) → has members b ≡ true → has (slice_index rows.now n) b ≡ false }
{
    for other in 0..1usize << bits {
        if !is_clear(rows[other], members, other == number) {
            return false;
        }
    }
    true
}
