// Bytes, numbers and lines of a page.
ghost use Rattle.std.specs.Prelude.{decimal};
ghost use Rattle.audit.specs.Pages.{number_line};

use crate::sink::Sink;

// Puts the bytes as they stand.
pub fn write_bytes<S: Sink>(sink: &mut S, bytes: &[u8])
    ensures { S.took sink.old bytes.now sink.new }
{
    for byte in bytes {
        sink.put(*byte);
    }
}

// Puts the digits of a number, from the front. By hand, since the library's printing may fail, and no clause excludes it.
pub fn write_number<S: Sink>(sink: &mut S, number: u64)
    ensures { S.took sink.old (decimal number) sink.new }
{
    if number >= 10 {
        write_number(sink, number / 10);
    }
    // By `as`, since a remainder by 10 is below 10.
    sink.put(b'0' + (number % 10) as u8);
}

// Puts a line key=value; the key has its equals sign.
pub fn number_line<S: Sink>(sink: &mut S, key: &[u8], number: u64)
    ensures { S.took sink.old (number_line key.now number) sink.new }
{
    write_bytes(sink, key);
    write_number(sink, number);
    sink.put(b'\n');
}
