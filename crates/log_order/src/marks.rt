// Marks on numbers below a bound.
ghost use Rattle.std.specs.Prelude.{◌≡◌, ◌<◌, ◌||◌, ◌++◌, ℕ, All, length, not, OnOk};
ghost use Rattle.std.specs.List.{filter};
ghost use Rattle.log_order.specs.Precedence.{is_marked, is_in};

use des_base::Memory;

// Whether the number has a mark.
pub fn is_marked(marks: &[bool], number: u32) -> bool
    ensures { result ≡ is_marked marks.now number }
{
    match marks.get(number as usize) {
        Some(mark) => *mark,
        None => false,
    }
}

// Marks each of the numbers.
pub fn mark_all(numbers: &[u32], marks: &mut Vec<bool>)
    requires { All (λ i. i < length marks.old.items) numbers.now }
    ensures marks { (i : ℕ) → is_marked marks.new.items i ≡ (is_marked marks.old.items i || is_in numbers.now i) }
    ensures long { length marks.new.items ≡ length marks.old.items }
{
    for number in numbers {
        marks[*number as usize] = true;
    }
}

// Appends the numbers that have a mark.
pub fn push_marked(numbers: &[u32], marks: &[bool], into: &mut Vec<u32>) -> Result<(), Memory>
    ensures { OnOk result (into.new.items ≡ into.old.items ++ filter (is_marked marks.now) numbers.now) }
{
    for number in numbers {
        if is_marked(marks, *number) {
            into.push(*number)?;
        }
    }
    Ok(())
}

// Appends the numbers that have none.
pub fn push_unmarked(numbers: &[u32], marks: &[bool], into: &mut Vec<u32>) -> Result<(), Memory>
    ensures { OnOk result (into.new.items ≡ into.old.items ++ filter (λ i. not (is_marked marks.now i)) numbers.now) }
{
    for number in numbers {
        if !is_marked(marks, *number) {
            into.push(*number)?;
        }
    }
    Ok(())
}
