//! Tests of what no clause says of frameworks of both kinds in clauses: the axioms that they need, what an edit changes of
//! them, the atoms that are read back, and models that the SAT solver finds.
#![tactic(auto)]

// Literals of an atom, true and false, as constants can hold them.
#[cfg(test)]
macro_rules! is {
    ($atom:expr) => {
        meaning_atoms::AtomLit {
            atom: $atom,
            positive: true,
        }
    };
}

#[cfg(test)]
macro_rules! not {
    ($atom:expr) => {
        meaning_atoms::AtomLit {
            atom: $atom,
            positive: false,
        }
    };
}

#[cfg(test)]
mod af_changes;
#[cfg(test)]
mod af_decoding;
#[cfg(test)]
mod af_needed;
#[cfg(test)]
mod encoding;
#[cfg(test)]
mod searches;
