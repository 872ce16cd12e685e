// The numbers that follow one another from a start.
ghost use Rattle.std.specs.Prelude.{◌≡◌, ◌<◌};
ghost use Rattle.gen_plant.specs.Plant.{sequence_number, number_after};

/// The number that the others follow.
pub fn first_number(start: u64) -> u32
    ensures first { result ≡ sequence_number start 0 }
    ensures small { result < 97 }
{
    (start % 97) as u32
}

/// The number that follows one.
pub fn number_after(number: u32) -> u32
    requires { number < 97 }
    ensures next { result ≡ number_after number }
    ensures small { result < 97 }
{
    (5 * number + 3) % 97
}
