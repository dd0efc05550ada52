// Many inputs listed one after the other, from standard input: before each input its length in five
// digits, and LF. What is printed is held to the file stdout beside src/, which the model of the
// scope in compare/ has made, and which tells every slip of a listing apart that it knows.
#![tactic(auto)]

ghost use Rattle.std.specs.Prelude.{◌+◌, ◌≤◌, ◌<◌, length, IfOk};

use std::io;
use std::io::Read;

// A digit's value.
fn digit(b: u8) -> usize
    ensures { result < 16 }
{
    (b % 16) as usize
}

// The number in the five digits from `at` on. Requires that they are there.
fn number_at(input: &[u8], at: usize) -> usize
    requires { at + 5 ≤ length input.now }
    ensures { result < 200000 }
{
    let mut n = 10000 * digit(input[at]);
    n += 1000 * digit(input[at + 1]);
    n += 100 * digit(input[at + 2]);
    n += 10 * digit(input[at + 3]);
    n + digit(input[at + 4])
}

// Lists the input that begins at `at`, and answers where the next one begins; the end where none
// stands there whole.
fn list_one(rt: &impl Print, input: &[u8], at: usize) -> io::Result<usize>
    requires { at < length input.now }
    ensures { IfOk result (λ next. at < next) }
{
    let n = input.len();
    if n - at < 6 {
        return Ok(n);
    }
    let first = at + 6;
    let bytes = number_at(input, at);
    if n - first < bytes {
        return Ok(n);
    }
    let end = first + bytes;
    let l = listing::list_shades(&input[first..end]);
    let text = l.text;
    let length = l.length;
    rt.write_all(&text[..length])?;
    Ok(end)
}

// Lists all inputs, from the first to the last.
fn list_all(rt: &impl Print, input: &[u8]) -> io::Result<()> {
    let n = input.len();
    let mut at = 0;
    while at < n {
        at = list_one(rt, input, at)?;
    }
    Ok(())
}

fn main(rt: HostRuntime) -> io::Result<()> {
    let mut input = Vec::new(rt.alloc());
    rt.reader().take(262144).read_to_end(&mut input)?;
    list_all(&rt, &input)
}
