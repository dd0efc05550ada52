// What the programs print: values, each with a blank behind it.
//
// Calls; none requires anything of its caller
//   field   one value and a blank
//   row     the values of a list in a row, each with a blank
// What they print is in no contract: the programs' output is held to the files stdout.

#![tactic(auto)]

use std::fmt::Display;
use std::io;

// One value and a blank.
pub fn field(rt: &impl Print, value: impl Display + Copy) -> io::Result<()> {
    print!(rt; "{value} ")
}

// The values of a list, each with a blank behind it.
pub fn row<T: Display + Copy>(rt: &impl Print, values: &[T]) -> io::Result<()> {
    for value in values {
        field(rt, *value)?;
    }
    Ok(())
}
