// A test as a number: what a loop adds to count without a branch.
//
// Calls; it refuses nothing and requires nothing
//   bit   1 where the test holds, else 0
//
// Read next: number/specs/Count.antt (`bit`, and counting by it).
#![tactic(auto)]

ghost use Rattle.std.specs.Prelude.{◌≡◌, ◌≤◌};
ghost use Rattle.number.specs.{bit};

// 1 where the test holds, else 0.
pub fn bit(test: bool) -> u32
    ensures { (result ≡ bit test) × (result ≤ 1) }
{
    u32::from(test)
}
