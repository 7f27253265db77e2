// Text written into lent bytes, one piece behind another.
#![tactic(auto)]

ghost use Rattle.std.specs.Prelude.{[], ◌∷◌, ◌≡◌, ◌+◌, ◌/◌, ◌%◌, ◌^◌, ◌≤◌, ◌<◌, length};
ghost use Rattle.fields.specs.Runs.{PutBytes};
ghost use Rattle.text.specs.Text.{digit, decimal, labelled, ending, most_digits, Wrote};

// Writes a byte at `at`, and gives the place after it.
pub fn put_byte(room: &mut [u8], at: usize, byte: u8) -> usize
    requires { at + 1 ≤ length room.old }
    ensures { PutBytes room.old at (byte ∷ []) room.new result }
{
    room[at] = byte;
    at + 1
}

// How many digits a number has in base ten: at most 20, and of 16 bits at most 5.
pub fn digits(n: u64) -> u64
    ensures { (result ≡ length (decimal n)) × (result ≤ most_digits) × (n < 2 ^ 16 → result ≤ 5) }
{
    n.max(1).ilog10() as u64 + 1
}

// Writes the two digits of a number below 100 at `at`, and gives the place after them.
fn put_two_digits(room: &mut [u8], at: usize, n: u64) -> usize
    requires { (n < 100) × (at + 2 ≤ length room.old) }
    ensures { PutBytes room.old at (digit (n / 10) ∷ digit (n % 10) ∷ []) room.new result }
{
    let next = put_byte(room, at, 48 + (n / 10) as u8);
    put_byte(room, next, 48 + (n % 10) as u8)
}

// Writes a number in base ten at `at`, and gives the place after it. (One of one or two digits, as most labels are, is written without counting them.)
pub fn put_number(room: &mut [u8], at: usize, n: u64) -> usize
    requires { at + length (decimal n) ≤ length room.old }
    ensures { PutBytes room.old at (decimal n) room.new result }
{
    if n < 10 {
        return put_byte(room, at, 48 + n as u8);
    }
    if n < 100 {
        return put_two_digits(room, at, n);
    }
    let end = at + digits(n) as usize;
    itoa::write_digits(n, room, end);
    end
}

// Writes a text at `at`, and gives the byte after it.
pub fn put(room: &mut [u8], at: usize, text: &[u8]) -> usize
    requires { at + length text.now ≤ length room.old }
    ensures { Wrote room.old at text.now (length text.now) room.new result }
{
    let end = at + text.len();
    room[at..end].copy_from_slice(text);
    end
}

// Writes a name and a number at `at`, and gives the byte after them.
pub fn put_labelled(room: &mut [u8], at: usize, name: &[u8], n: u64) -> usize
    requires { at + (length name.now + most_digits) ≤ length room.old }
    ensures { Wrote room.old at (labelled name.now n) (length name.now + most_digits) room.new result }
{
    let end = put(room, at, name);
    put_number(room, end, n)
}

// Writes a name and a number that end a line at `at`, and gives the byte after the line feed.
pub fn put_ending(room: &mut [u8], at: usize, name: &[u8], n: u64) -> usize
    requires { at + (length name.now + most_digits + 1) ≤ length room.old }
    ensures { Wrote room.old at (ending name.now n) (length name.now + most_digits + 1) room.new result }
{
    let end = put_labelled(room, at, name, n);
    put(room, end, b"\n")
}
