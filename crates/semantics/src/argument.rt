//! The numbers of arguments.

ghost use Rattle.std.specs.Prelude.{◌↔◌, IsTrue};
ghost use Rattle.semantics.specs.Arguments.{IsArgument};

/// The largest number that an argument may have. The smallest is 1.
pub const MAX_ARGUMENT: u32 = 1_000_000;

/// Whether the number may be an argument's.
pub fn is_argument(number: u32) -> bool
    ensures { IsTrue result ↔ IsArgument number }
{
    1 <= number && number <= MAX_ARGUMENT
}
