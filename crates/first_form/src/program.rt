use jf_base::{List, Text};

/// What a `putchar` of the C function is given: the function's parameter, or a number.
#[derive(Clone, Copy, PartialEq, Eq, Debug)]
pub enum PutcharArgument {
    Parameter,
    Number(u32),
}

/// A Fortran main program and the C function that it calls.
#[derive(Drop, Debug)]
pub struct FirstProgram {
    /// The binding label of the function.
    pub label: Text,
    /// The argument of each call of the main program, in order; each is at most 2,147,483,647.
    pub calls: List<u32>,
    /// The argument of each `putchar` of the function, in order; each number is at most 2,147,483,647.
    pub puts: List<PutcharArgument>,
}
