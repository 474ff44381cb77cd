// Text put into a buffer at a place. Each call answers the place after the text: the text was put where that place is in the buffer,
// and where it is past the buffer's end the buffer is as it was. A place that no number of 64 bits holds is answered as the largest.
#![tactic(auto)]

ghost use Rattle.std.specs.Prelude.{◌≡◌, ◌+◌, ◌*◌, ◌/◌, ◌%◌, ◌≤◌, ◌<◌, [], ◌∷◌, leb, length};
ghost use Rattle.std.proofs.lemmas.List.Edits.{sets};
ghost use Rattle.text.specs.Text.{decimal, signed};
ghost use Rattle.text.specs.Putting.{Put};
ghost use Rattle.text.specs.Private.{digit_bytes, low_bytes};

// Does a buffer of `len` bytes have room for `size` of them at place `at`?
fn has_room(len: usize, at: usize, size: usize) -> bool
    ensures { result ≡ leb (at + size) len }
{
    len.checked_sub(size).is_some_and(|last| at <= last)
}

// `copy_from_slice` asks whether the two overlap, which costs a put of a few bytes more than the copy.
fn copy(out: &mut [u8], at: usize, text: &[u8])
    requires { at + length text.now ≤ length out.old }
    ensures { out.new ≡ sets out.old at text.now }
{
    for (j, byte) in text.iter().enumerate() {
        out[at + j] = *byte;
    }
}

pub fn put(out: &mut [u8], at: usize, text: &[u8]) -> usize
    ensures { Put out.old at text.now out.new result }
{
    if !has_room(out.len(), at, text.len()) {
        return at.saturating_add(text.len());
    }
    copy(out, at, text);
    at + text.len()
}

fn digit(n: u64) -> u8
    requires { n < 10 }
    ensures { result ≡ 48 + n }
{
    48 + n as u8
}

// Both digits of a number below a hundred, also where the first is a zero.
fn put_pair(out: &mut [u8], at: usize, n: u64)
    requires { (at + 2 ≤ length out.old) × (n < 100) }
    ensures { out.new ≡ sets out.old at ((48 + n / 10) ∷ (48 + n % 10) ∷ []) }
{
    out[at] = digit(n / 10);
    out[at + 1] = digit(n % 10);
}

// How many digits a number has, four at a time.
fn count_digits(n: u64) -> usize
    ensures { result ≡ length (decimal n) }
{
    let mut high = n;
    let mut count = 0;
    while high >= 10_000 {
        high /= 10_000;
        count += 4;
    }
    if high < 10 {
        return count + 1;
    }
    if high < 100 {
        return count + 2;
    }
    if high < 1_000 {
        return count + 3;
    }
    count + 4
}

// The digits between two places: the last first, two at a time.
fn put_digits(out: &mut [u8], at: usize, end: usize, n: u64)
    requires { (end ≡ at + length (decimal n)) × (end ≤ length out.old) }
    ensures { out.new ≡ sets out.old at (decimal n) }
{
    let mut i = end;
    let mut high = n;
    while high >= 100 {
        i -= 2;
        put_pair(out, i, high % 100);
        high /= 100;
    }
    if high < 10 {
        out[at] = digit(high);
    } else {
        put_pair(out, at, high);
    }
}

// A number below a hundred, and the place after it.
fn put_up_to_two(out: &mut [u8], at: usize, n: u64) -> usize
    requires { (at + 2 ≤ length out.old) × (n < 100) }
    ensures { (out.new ≡ sets out.old at (decimal n)) × (result ≡ at + length (decimal n)) }
{
    if n < 10 {
        out[at] = digit(n);
        return at + 1;
    }
    put_pair(out, at, n);
    at + 2
}

fn put_up_to_four(out: &mut [u8], at: usize, n: u64) -> usize
    requires { (at + 4 ≤ length out.old) × (n < 10000) }
    ensures { (out.new ≡ sets out.old at (decimal n)) × (result ≡ at + length (decimal n)) }
{
    if n < 100 {
        return put_up_to_two(out, at, n);
    }
    let next = put_up_to_two(out, at, n / 100);
    put_pair(out, next, n % 100);
    next + 2
}

// Eight digits, also where the first are zeros, as one number: the first digit is its lowest byte. A number with h hundreds is the pairs h and
// n - 100 h, and a pair with t tens is the bytes t and p - 10 t; here all at once, side by side in one number. Quotients by 100 and by 10
// are taken by a product and a shift, which does for numbers as small as these.
fn eight_digits(n: u64) -> u64
    requires { n < 100000000 }
    ensures { result ≡ digit_bytes (n / 10000) + 4294967296 * digit_bytes (n % 10000) }
{
    let both = n / 10_000 + n % 10_000 * 4_294_967_296;
    let by_hundred = both * 5_243 / 524_288;
    let hundreds = by_hundred % 128 + by_hundred / 4_294_967_296 % 128 * 4_294_967_296;
    let pairs = both * 65_536 - hundreds * 6_553_599;
    let by_ten = pairs * 103 / 1_024;
    let low_tens = by_ten % 16 + by_ten / 65_536 % 16 * 65_536;
    let high_tens = by_ten / 4_294_967_296 % 16 + by_ten / 281_474_976_710_656 % 16 * 65_536;
    let tens = low_tens + high_tens * 4_294_967_296;
    0x3030_3030_3030_3030 + pairs * 256 - tens * 2_559
}

// The compiler makes one store of the four.
fn put_low_bytes(out: &mut [u8], at: usize, n: u64)
    requires { at + 4 ≤ length out.old }
    ensures { out.new ≡ sets out.old at (low_bytes n) }
{
    out[at..at + 4].copy_from_slice(&((n % 4_294_967_296) as u32).to_le_bytes());
}

// The first four bytes of a text and, so many places on, its last four: they stand over what is too much of the first.
fn put_ends(out: &mut [u8], at: usize, first: u64, size: usize, last: u64) -> usize
    requires { (at + 8 ≤ length out.old) × (size ≤ 4) }
    ensures { (out.new ≡ sets (sets out.old at (low_bytes first)) (at + size) (low_bytes last)) × (result ≡ at + size + 4) }
{
    put_low_bytes(out, at, first);
    put_low_bytes(out, at + size, last);
    at + size + 4
}

// From the first digit that is not a leading zero.
fn put_up_to_eight(out: &mut [u8], at: usize, n: u64) -> usize
    requires { (at + 8 ≤ length out.old) × (n < 100000000) }
    ensures { (out.new ≡ sets out.old at (decimal n)) × (result ≡ at + length (decimal n)) }
{
    if n < 10_000 {
        return put_up_to_four(out, at, n);
    }
    let text = eight_digits(n);
    let last = text / 4_294_967_296;
    if n < 100_000 {
        return put_ends(out, at, text / 16_777_216, 1, last);
    }
    if n < 1_000_000 {
        return put_ends(out, at, text / 65_536, 2, last);
    }
    if n < 10_000_000 {
        return put_ends(out, at, text / 256, 3, last);
    }
    put_ends(out, at, text, 4, last)
}

// Any number, wherever it may stand: its digits are counted first.
fn put_counted(out: &mut [u8], at: usize, n: u64) -> usize
    ensures { Put out.old at (decimal n) out.new result }
{
    let count = count_digits(n);
    if !has_room(out.len(), at, count) {
        return at.saturating_add(count);
    }
    let end = at + count;
    put_digits(out, at, end, n);
    end
}

// A number of up to eight digits is put from its front, without counting them, where there is room for eight.
pub fn put_decimal(out: &mut [u8], at: usize, n: u64) -> usize
    ensures { Put out.old at (decimal n) out.new result }
{
    if n < 100_000_000 && has_room(out.len(), at, 8) {
        return put_up_to_eight(out, at, n);
    }
    put_counted(out, at, n)
}

// A minus sign and a number.
fn put_negative(out: &mut [u8], at: usize, n: u64) -> usize
    ensures { Put out.old at (45 ∷ decimal n) out.new result }
{
    let size = 1 + count_digits(n);
    if !has_room(out.len(), at, size) {
        return at.saturating_add(size);
    }
    out[at] = b'-';
    put_decimal(out, at + 1, n)
}

pub fn put_signed(out: &mut [u8], at: usize, z: i64) -> usize
    ensures { Put out.old at (signed z) out.new result }
{
    if z < 0 {
        return put_negative(out, at, z.unsigned_abs());
    }
    put_decimal(out, at, z.unsigned_abs())
}
