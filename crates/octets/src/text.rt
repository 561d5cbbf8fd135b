// Text in a lent buffer of bytes. Each function takes the place where its text goes and answers the
// place after it; bytes past the buffer's end are dropped.
ghost use Rattle.std.specs.Prelude.{◌≡◌};
ghost use Rattle.octets.specs.Text.{sink, put, decimal, field, fields};

pub fn put_bytes(text: &[u8], at: usize, out: &mut [u8]) -> usize
    ensures { sink out.new result ≡ put (sink out.old at) text.now }
{
    if out.len() <= at {
        return at;
    }
    let fit = text.len().min(out.len() - at);
    out[at..at + fit].copy_from_slice(&text[..fit]);
    at + fit
}

// A number in base ten.
pub fn put_decimal(number: u64, at: usize, out: &mut [u8]) -> usize
    ensures { sink out.new result ≡ put (sink out.old at) (decimal number) }
{
    let mut text = [0u8; 20];
    let many = io::decimal(number, &mut text);
    put_bytes(&text[..many], at, out)
}

// A number after the field before it: "Fields are parted by one space".
pub fn put_field(number: u64, at: usize, out: &mut [u8]) -> usize
    ensures { sink out.new result ≡ put (sink out.old at) (field number) }
{
    let place = put_bytes(b" ", at, out);
    put_decimal(number, place, out)
}

pub fn put_fields(numbers: &[u64], at: usize, out: &mut [u8]) -> usize
    ensures { sink out.new result ≡ put (sink out.old at) (fields numbers.now) }
{
    let mut place = at;
    for number in numbers {
        place = put_field(*number, place, out);
    }
    place
}
