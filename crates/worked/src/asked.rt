// A message and what it comes to, a line each.
use input::bytes::Hex;
use logix::entry::Refusal;
use std::io;

/// A request, its limit, and the reply's bytes or the refusal's number.
pub fn show(
    to: &impl Print,
    request: &[u8],
    limit: usize,
    told: Result<usize, Refusal>,
    buf: &[u8],
) -> io::Result<()> {
    print!(to; "send{}\nlimit {limit}:", Hex(request))?;
    match told {
        Ok(n) => println!(to; "{}", Hex(buf.get(..n).unwrap_or(buf))),
        Err(why) => println!(to; " refused with {}", why.number()),
    }
}
