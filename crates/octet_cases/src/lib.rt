// A case made by hand for each way that octets are read, refused, answered and written, and for each line
// of the program: what the crate cases is for a station and its links. Each theorem is promised by a
// function that does nothing, and is computed.
#![tactic(auto)]

ghost use Rattle.octet_cases.specs.Octets.{Reading, Arriving, Writing};
ghost use Rattle.octet_cases.specs.Program.{Program};

// Octets read.
pub fn of_reading()
    ensures { Reading }
{}

// Octets arriving at a station.
pub fn of_arriving()
    ensures { Arriving }
{}

// Headers written.
pub fn of_writing()
    ensures { Writing }
{}

// The program, from octets to octets.
pub fn of_the_program()
    ensures { Program }
{}
