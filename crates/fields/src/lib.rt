// Unsigned fields of 1 to 4 bytes in a slice, most significant byte first.
#![tactic(auto)]

ghost use Rattle.std.specs.Prelude.{◌≡◌, ◌+◌, ◌^◌, ◌≤◌, ◌<◌, length};
ghost use Rattle.fields.specs.Fields.{field, with_field};
ghost use Rattle.fields.specs.Label.{label_width};

// The field of N bytes at `at`.
pub fn get<const N: usize>(s: &[u8], at: usize) -> u32
    requires { (N ≤ 4) × (at + N ≤ length s.now) }
    ensures { (result ≡ field N s.now at) × (result < 256 ^ N) }
{
    let mut v: u32 = 0;
    for i in 0..N {
        v = v * 256 + (s[at + i] as u32);
    }
    v
}

// Writes v as the field of N bytes at `at`.
pub fn put<const N: usize>(s: &mut [u8], at: usize, v: u32)
    requires { (N ≤ 4) × (at + N ≤ length s.old) }
    ensures { s.new ≡ with_field N s.old at v }
{
    for i in 0..N {
        s[at + i] = ((v >> (8 * (N - 1 - i))) % 256) as u8;
    }
}

// How many bytes a label takes in a book or sheet of a version.
// Stays: a version is any byte, as the book or sheet has it, and no enum: `label_width` promises the width at each.
pub fn label_width(version: u8) -> usize
    ensures { (result ≡ label_width version) × (1 ≤ result) × (result ≤ 2) }
{
    if version == 1 {
        return 1;
    }
    2
}

// The label at `at` in a book or sheet of a version.
pub fn get_label(s: &[u8], at: usize, version: u8) -> u16
    requires { at + label_width version ≤ length s.now }
    ensures { result ≡ field (label_width version) s.now at }
{
    if version == 1 {
        return s[at] as u16;
    }
    get::<2>(s, at) as u16
}

// Writes a label at `at` in a sheet of a version.
pub fn put_label(s: &mut [u8], at: usize, version: u8, label: u16)
    requires { (at + label_width version ≤ length s.old) × (label < 256 ^ label_width version) }
    ensures { s.new ≡ with_field (label_width version) s.old at label }
{
    if version == 1 {
        put::<1>(s, at, label as u32);
    } else {
        put::<2>(s, at, label as u32);
    }
}
