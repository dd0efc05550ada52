// The tests of counts, limits, rooms and members.
ghost use Rattle.std.specs.Prelude.{◌≡◌, ◌≤◌, length};
ghost use Rattle.table_entries.specs.{most_entries};
ghost use Rattle.lloyd_tests.specs.Tests.{bad_count, limit_of, bad_member};

use super::USUAL_LIMIT;

// Whether a run cannot have this many shades: the test of 4 BAD COUNT.
pub fn bad_count(count: usize) -> bool
    ensures { result ≡ bad_count count }
{
    !(1..=shades::MOST_SHADES).contains(&count)
}

// The limit asked for: 100 for 0.
pub fn limit_of(limit: usize) -> usize
    ensures { result ≡ limit_of limit }
{
    if limit == 0 { USUAL_LIMIT } else { limit }
}

// Whether a used member is not below the count: the test of 9 BAD MEMBER. Requires a table's number
// of entries, and a member for each.
pub fn bad_member(members: &[u32], used: usize, count: usize) -> bool
    requires { (used ≤ length members.now) × (used ≤ most_entries) }
    ensures { result ≡ bad_member used count members.now }
{
    let mut bad: u32 = 0;
    for member in &members[..used] {
        bad += u32::from(count <= *member as usize);
    }
    0 < bad
}
