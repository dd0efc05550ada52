// No call asks anything of its caller: each function here takes whatever it is given, says nothing
// of it, and hands it to a public call. A call that required something would be refused here, at
// that requirement.
//
// One file a floor: the table's calls, the method's, those of palette and mapping, those of
// pictures and the listing, and the boundary's.
// Read next: src/table_calls.rt, and the calls' own front doors.
#![tactic(auto)]

mod boundary_calls;
mod mapping_calls;
mod method_calls;
mod picture_calls;
mod table_calls;
