// A number as a line, and one from four bytes.
ghost use Rattle.std.specs.Prelude.{◌≡◌, length};
ghost use Rattle.io.specs.Counts.{IsPrefixLen};
ghost use Rattle.files.specs.Files.{LineLong, IsLine, low_first};

use io::decimal;

// Puts n as a line at the start of out, and answers how many characters it has. println! would do, but no contract of it names the digits.
fn line(n: u8, out: &mut [u8; 20]) -> usize
    ensures prefix_len { IsPrefixLen result out.new }
    ensures line { IsLine n result out.new }
{
    let k = decimal(u64::from(n), out);
    out[k] = b'\n';
    k + 1
}

/// Prints n as a line, and answers how many characters it has.
pub fn print_number<R: Print>(rt: &R, n: u8) -> usize
    ensures { LineLong n result }
{
    let mut text = [0u8; 20];
    let r = line(n, &mut text);
    let _ = rt.write_all(&text[..r]);
    r
}

/// Four bytes as a number, the low byte first.
pub fn low_first(b: &[u8; 4]) -> u32
    ensures { result ≡ low_first b.now }
{
    u32::from_le_bytes(*b)
}
