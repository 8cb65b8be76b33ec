//! The value of a literal under an assignment.

ghost use Rattle.std.specs.Prelude.{◌≡◌};
ghost use Rattle.plain_lits.specs.Values.{for_sign, from_sign};

/// True, false, or no value yet.
#[derive(Clone, Copy)]
pub enum Value {
    True,
    False,
    Unset,
}

impl Value {
    /// The value of a variable whose literal of this sign is true.
    pub fn from_sign(positive: bool) -> Value
        ensures { result ≡ from_sign positive }
    {
        if positive { Value::True } else { Value::False }
    }

    /// The value of a variable's literal of this sign, where the variable has the value.
    pub fn for_sign(self, positive: bool) -> Value
        ensures { result ≡ for_sign self positive }
    {
        match (self, positive) {
            (Value::Unset, _) => Value::Unset,
            (Value::True, true) => Value::True,
            (Value::True, false) => Value::False,
            (Value::False, true) => Value::False,
            (Value::False, false) => Value::True,
        }
    }
}
