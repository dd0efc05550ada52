// A colour's key, and its levels back from the key.
ghost use Rattle.std.specs.Prelude.{◌≡◌, ◌+◌, ◌≤◌, ◌<◌, length, get_or};
ghost use Rattle.colour.specs.Key.{most_level, most_key, key_of, red_of, green_of, blue_of};

// The key of the colour with these three bytes.
pub fn key_of(red: u8, green: u8, blue: u8) -> u32
    ensures { (result ≡ key_of red green blue) × (result ≤ most_key) }
{
    u32::from_be_bytes([0, red, green, blue])
}

// The key of the colour whose three bytes stand from `at` on. Requires that they stand in the list.
pub fn key_at(bytes: &[u8], at: usize) -> u32
    requires { at + 2 < length bytes.now }
    ensures { (result
        ≡ key_of (get_or bytes.now at 0) (get_or bytes.now (at + 1) 0)
        (get_or bytes.now (at + 2) 0))
        × (result ≤ most_key) }
{
    key_of(bytes[at], bytes[at + 1], bytes[at + 2])
}

// The red level of the colour with this key.
pub fn red_of(key: u32) -> u32
    ensures { (result ≡ red_of key) × (result ≤ most_level) }
{
    u32::from(key.to_be_bytes()[1])
}

// The green level of the colour with this key.
pub fn green_of(key: u32) -> u32
    ensures { (result ≡ green_of key) × (result ≤ most_level) }
{
    u32::from(key.to_be_bytes()[2])
}

// The blue level of the colour with this key.
pub fn blue_of(key: u32) -> u32
    ensures { (result ≡ blue_of key) × (result ≤ most_level) }
{
    u32::from(key.to_be_bytes()[3])
}
