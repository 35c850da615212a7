//! Lists of tab numbers that strictly rise.

ghost use Rattle.std.specs.Prelude.{◌≡◌, ◌==◌, ◌<◌, ◌≤◌, length, filter, not, vec_len, vec_capacity, true};
ghost use Rattle.std.specs.List.{insert};
ghost use Rattle.wl_kernel.specs.Kernel.{insert_sorted, rises, is_listed};

/// Returns whether the numbers strictly rise.
pub(crate) fn rises(numbers: &[u16]) -> bool
    ensures { result ≡ rises numbers.now }
{
    numbers.is_sorted_by(|earlier, later| *earlier < *later)
}

pub(crate) fn contains(numbers: &[u16], number: u16) -> bool
    requires { rises numbers.now ≡ true }
    ensures { result ≡ is_listed numbers.now number }
{
    numbers.binary_search(&number).is_ok()
}

/// Returns the index of the number, or the index at which it would be inserted.
fn place_of(numbers: &[u16], number: u16) -> usize
    requires { rises numbers.now ≡ true }
    ensures within { result ≤ length numbers.now }
    ensures place { insert numbers.now result number ≡ insert_sorted number numbers.now }
{
    match numbers.binary_search(&number) {
        Ok(place) | Err(place) => place,
    }
}

/// Inserts the number in order. Allocates no memory.
pub(crate) fn insert_sorted(numbers: &mut Vec<u16>, number: u16)
    requires rising { rises numbers.old.items ≡ true }
    requires room { vec_len numbers.old < vec_capacity numbers.old }
    ensures { numbers.new.items ≡ insert_sorted number numbers.old.items }
{
    let place = place_of(numbers, number);
    // The list has spare capacity, so the insertion never fails.
    let _ = numbers.insert(place, number);
}

/// Removes the number. Allocates no memory.
pub(crate) fn remove_sorted(numbers: &mut Vec<u16>, number: u16)
    ensures { numbers.new.items ≡ filter (λ n. not (n == number)) numbers.old.items }
{
    numbers.retain(|n| *n != number);
}
