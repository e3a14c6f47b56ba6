// Numbers and words put into a lent buffer. Each answer is where the text ends.
ghost use Rattle.std.specs.Prelude.{◌+◌, ◌≤◌, length};
ghost use Rattle.report.specs.Text.{decimal, kind_word};
ghost use Rattle.report.specs.Line.{Put};

use writing::put_text;

pub fn put_decimal(buffer: &mut [u8], at: usize, n: u64) -> usize
    requires { at + 20 ≤ length buffer.old }
    ensures text { Put buffer.old at (decimal n) buffer.new result }
    ensures bound { result ≤ at + 20 }
{
    let mut text = [0u8; 20];
    let k = io::decimal(n, &mut text);
    put_text(buffer, at, &text[..k])
}

// `keeps` or `breaks`.
pub fn put_kind(buffer: &mut [u8], at: usize, keeps: bool) -> usize
    requires { at + 6 ≤ length buffer.old }
    ensures text { Put buffer.old at (kind_word keeps) buffer.new result }
    ensures bound { result ≤ at + 6 }
{
    if keeps {
        return put_text(buffer, at, b"keeps");
    }
    put_text(buffer, at, b"breaks")
}
